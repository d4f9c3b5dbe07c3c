use cnf::Fault;
use futoshiki::Sign;
use puzzle::{Taken, read, sample_words};
use std::test::Fail;
use words::Entry;

// Lists of words, each with the number and the place of its refusal, read into tables for two givens, four claims and one sign.
static REFUSED: [(&[u32], u32, u32); 57] = [
    // no word at all
    (&[], 6, 1),
    // a board alone
    (&[0x1102_0000], 6, 2),
    // every claim and no end
    (
        &[
            0x1102_0000,
            0x5001_0100,
            0x5002_0200,
            0x5003_0200,
            0x5004_0100,
        ],
        6,
        6,
    ),
    // kind 0
    (&[0x0000_0000], 1, 1),
    // kind 4
    (&[0x4102_0000], 1, 1),
    // kind 14
    (&[0x1102_0000, 0xE000_0000], 1, 2),
    // a stray bit in the board
    (&[0x1102_0001], 1, 1),
    // a stray bit in a board of another puzzle
    (&[0x1202_8000], 1, 1),
    // another puzzle
    (&[0x1202_0000], 2, 1),
    // puzzle 0
    (&[0x1002_0000], 2, 1),
    // side 1
    (&[0x1101_0000], 2, 1),
    // side 10
    (&[0x110A_0000], 2, 1),
    // side 255
    (&[0x11FF_0000], 2, 1),
    // a given first
    (&[0x2001_0100], 2, 1),
    // a sign first
    (&[0x3001_0020], 2, 1),
    // a claim first
    (&[0x5001_0100], 2, 1),
    // an end first
    (&[0xF000_0000], 2, 1),
    // a second board
    (&[0x1102_0000, 0x1102_0000], 2, 2),
    // a second board out of range
    (&[0x1102_0000, 0x110A_0000], 2, 2),
    // a stray bit in a given
    (&[0x1102_0000, 0x2001_0101], 1, 2),
    // a stray bit in a claim
    (&[0x1102_0000, 0x5001_0180], 1, 2),
    // a stray bit in a sign
    (&[0x1102_0000, 0x3001_0028], 1, 2),
    // a stray bit in the end
    (&[0x1102_0000, 0xF000_0001], 1, 2),
    // a count in the end
    (
        &[
            0x1102_0000,
            0x5001_0100,
            0x5002_0200,
            0x5003_0200,
            0x5004_0100,
            0xF000_0005,
        ],
        1,
        6,
    ),
    // cell 0
    (&[0x1102_0000, 0x2000_0100], 3, 2),
    // cell 5 of 4
    (&[0x1102_0000, 0x2005_0100], 3, 2),
    // cell 4,095
    (&[0x1102_0000, 0x2FFF_0100], 3, 2),
    // value 0
    (&[0x1102_0000, 0x2001_0000], 3, 2),
    // value 3 of 2
    (&[0x1102_0000, 0x5001_0300], 3, 2),
    // value 200
    (&[0x1102_0000, 0x5001_C800], 3, 2),
    // a sign from cell 0
    (&[0x1102_0000, 0x3000_0010], 3, 2),
    // a sign to cell 5
    (&[0x1102_0000, 0x3001_0050], 3, 2),
    // a given twice, with one value
    (&[0x1102_0000, 0x2001_0100, 0x2001_0100], 4, 3),
    // a given twice, with two values
    (&[0x1102_0000, 0x2001_0100, 0x2001_0200], 4, 3),
    // a claim twice
    (&[0x1102_0000, 0x5001_0100, 0x5002_0200, 0x5001_0200], 4, 4),
    // a sign twice
    (&[0x1102_0000, 0x3001_0020, 0x3001_0020], 4, 3),
    // a sign turned round
    (&[0x1102_0000, 0x3001_0020, 0x3002_0010], 4, 3),
    // a value out of range in a cell that is given
    (&[0x1102_0000, 0x2001_0100, 0x2001_0300], 3, 3),
    // the end of a row and the start of the next
    (&[0x1102_0000, 0x3002_0030], 5, 2),
    // a diagonal
    (&[0x1102_0000, 0x3001_0040], 5, 2),
    // a cell and itself
    (&[0x1102_0000, 0x3001_0010], 5, 2),
    // no claim at the end
    (&[0x1102_0000, 0xF000_0000], 7, 2),
    // one claim short at the end
    (
        &[
            0x1102_0000,
            0x5001_0100,
            0x5002_0200,
            0x5003_0200,
            0xF000_0000,
        ],
        7,
        5,
    ),
    // one claim short, and a word after the end
    (
        &[
            0x1102_0000,
            0x5001_0100,
            0x5002_0200,
            0x5003_0200,
            0xF000_0000,
            0xF000_0000,
        ],
        7,
        5,
    ),
    // a third given in a table of two
    (&[0x1102_0000, 0x2001_0100, 0x2002_0100, 0x2003_0100], 21, 4),
    // a second sign in a table of one
    (&[0x1102_0000, 0x3001_0020, 0x3003_0040], 21, 3),
    // a given twice in a full table
    (&[0x1102_0000, 0x2001_0100, 0x2002_0100, 0x2001_0100], 4, 4),
    // a sign without a side in a full table
    (&[0x1102_0000, 0x3001_0020, 0x3002_0030], 5, 3),
    // after the end: kind 0
    (
        &[
            0x1102_0000,
            0x5001_0100,
            0x5002_0200,
            0x5003_0200,
            0x5004_0100,
            0xF000_0000,
            0x0000_0000,
        ],
        1,
        7,
    ),
    // after the end: a stray bit
    (
        &[
            0x1102_0000,
            0x5001_0100,
            0x5002_0200,
            0x5003_0200,
            0x5004_0100,
            0xF000_0000,
            0x2001_0101,
        ],
        1,
        7,
    ),
    // after the end: a board
    (
        &[
            0x1102_0000,
            0x5001_0100,
            0x5002_0200,
            0x5003_0200,
            0x5004_0100,
            0xF000_0000,
            0x1102_0000,
        ],
        2,
        7,
    ),
    // after the end: cell 5
    (
        &[
            0x1102_0000,
            0x5001_0100,
            0x5002_0200,
            0x5003_0200,
            0x5004_0100,
            0xF000_0000,
            0x2005_0100,
        ],
        3,
        7,
    ),
    // after the end: a claim twice
    (
        &[
            0x1102_0000,
            0x5001_0100,
            0x5002_0200,
            0x5003_0200,
            0x5004_0100,
            0xF000_0000,
            0x5001_0100,
        ],
        4,
        7,
    ),
    // after the end: a diagonal
    (
        &[
            0x1102_0000,
            0x5001_0100,
            0x5002_0200,
            0x5003_0200,
            0x5004_0100,
            0xF000_0000,
            0x3001_0040,
        ],
        5,
        7,
    ),
    // after the end: a given
    (
        &[
            0x1102_0000,
            0x5001_0100,
            0x5002_0200,
            0x5003_0200,
            0x5004_0100,
            0xF000_0000,
            0x2001_0100,
        ],
        6,
        7,
    ),
    // after the end: a sign
    (
        &[
            0x1102_0000,
            0x5001_0100,
            0x5002_0200,
            0x5003_0200,
            0x5004_0100,
            0xF000_0000,
            0x3001_0020,
        ],
        6,
        7,
    ),
    // after the end: the end
    (
        &[
            0x1102_0000,
            0x5001_0100,
            0x5002_0200,
            0x5003_0200,
            0x5004_0100,
            0xF000_0000,
            0xF000_0000,
        ],
        6,
        7,
    ),
];

const USED: Entry = Entry { cell: 7, value: 7 };

const BLANK: Entry = Entry { cell: 0, value: 0 };

const OTHER: Sign = Sign {
    lesser: 7,
    greater: 8,
};

const NO_SIGN: Sign = Sign {
    lesser: 0,
    greater: 0,
};

fn entries_blank(slots: &[Entry]) -> bool {
    slots.iter().all(|e| *e == BLANK)
}

fn is_at(fault: Fault, number: u32, place: u32) -> bool {
    let (first, second) = fault.places();
    fault.number() == number && first == place && second == 0
}

// Whether a list is refused so, and leaves tables blank that were not.
fn refused(words: &[u32], number: u32, place: u32) -> bool {
    let mut givens = [USED; 2];
    let mut claims = [USED; 4];
    let mut signs = [OTHER; 1];
    match read(words, &mut givens, &mut claims, &mut signs) {
        Ok(_) => false,
        Err(fault) => {
            is_at(fault, number, place)
                && entries_blank(&givens)
                && entries_blank(&claims)
                && signs[0] == NO_SIGN
        }
    }
}

#[test]
fn every_refusal_has_its_place_and_leaves_the_tables_blank(rt: HostRuntime) {
    for (i, (words, number, place)) in REFUSED.iter().enumerate() {
        assert_eq!(rt; (i, refused(words, *number, *place)), (i, true));
    }
}

// The sample board with a given of a cell that is claimed too, its records mixed, in tables with slots to spare.
static MIXED: [u32; 8] = [
    0x1102_0000,
    0x5001_0100,
    0x2002_0200,
    0x5002_0200,
    0x3001_0020,
    0x5003_0200,
    0x5004_0100,
    0xF000_0000,
];

#[test]
fn a_taken_list_fills_its_tables_in_order_of_arrival(rt: HostRuntime) -> Result<(), Fail> {
    let mut givens = [USED; 3];
    let mut claims = [USED; 5];
    let mut signs = [OTHER; 2];
    let taken = read(&MIXED, &mut givens, &mut claims, &mut signs)
        .ok()
        .ok_or("refused")?;
    let expected = Taken {
        side: 2,
        given_count: 1,
        claim_count: 4,
        sign_count: 1,
    };
    assert!(rt; taken == expected);
    for (claim, (cell, value)) in claims.iter().zip([(1, 1), (2, 2), (3, 2), (4, 1), (0, 0)]) {
        assert!(rt; *claim == Entry { cell, value });
    }
    let given = Entry { cell: 2, value: 2 };
    assert!(rt; givens[0] == given && givens[1] == BLANK && givens[2] == BLANK);
    let sign = Sign {
        lesser: 1,
        greater: 2,
    };
    assert!(rt; signs[0] == sign && signs[1] == NO_SIGN);
    Ok(())
}

#[test]
fn tables_without_slots_are_full_at_once(rt: HostRuntime) -> Result<(), Fail> {
    let fault = read(&sample_words(), &mut [], &mut [], &mut [])
        .err()
        .ok_or("taken")?;
    assert!(rt; is_at(fault, 21, 2));
    Ok(())
}
