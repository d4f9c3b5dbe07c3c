use crate::asked::asked;
use drawing::{Undrawn, drawing_of, words_of_drawing};
use fillings::board;
use futoshiki::Sign;
use puzzle::read;
use report::{Report, judge};
use std::process::Abort;
use std::test::Fail;
use words::{Entry, bytes_of, words_of};

#[test]
fn the_sample_board_lists_nineteen_clauses(rt: HostRuntime) -> Result<(), Fail> {
    let signs = [Sign {
        lesser: 1,
        greater: 2,
    }];
    let source = board(rt.alloc(), 2, &signs)?;
    asked(
        &rt,
        &source,
        (8, 19),
        &[(1, 2), (16, 2), (18, 2), (19, 2), (20, 0)],
        &[(1, 1, 1), (1, 2, 2), (18, 1, -2), (18, 2, -3), (19, 2, -4)],
    )?;
    Ok(())
}

// Every variable of the largest board is itself: cell 81 has the variables 721 to 729.
#[test]
fn the_largest_board_has_729_variables(rt: HostRuntime) -> Result<(), Fail> {
    let source = board(rt.alloc(), 9, &[])?;
    asked(
        &rt,
        &source,
        (729, 8829),
        &[(81, 9), (82, 2), (8829, 2), (8830, 0)],
        &[
            (57, 9, 513),
            (81, 1, 721),
            (81, 9, 729),
            (8829, 1, -648),
            (8829, 2, -729),
        ],
    )?;
    Ok(())
}

#[test]
fn a_broken_board_lists_nothing(rt: HostRuntime) -> Result<(), Fail> {
    let apart = [Sign {
        lesser: 2,
        greater: 3,
    }];
    asked(
        &rt,
        &board(rt.alloc(), 2, &apart)?,
        (0, 0),
        &[(1, 0)],
        &[(1, 1, 0)],
    )?;
    asked(&rt, &board(rt.alloc(), 1, &[])?, (0, 0), &[(1, 0)], &[])?;
    asked(&rt, &board(rt.alloc(), 10, &[])?, (0, 0), &[(1, 0)], &[])?;
    Ok(())
}

static DRAWN: [u8; 98] =
    *b"+---+---+---+\n| 1 < 2 | 3 |\n+---+-^-+---+\n|[2]| 3 > 1 |\n+-^-+---+---+\n| 3 | 1 |[2]|\n+---+---+---+\n";

#[test]
fn a_drawn_board_is_read_and_drawn_again(rt: HostRuntime) -> Result<(), Fail> {
    let words = words_of_drawing(rt.alloc(), &DRAWN)
        .ok()
        .ok_or("not drawn")?;
    assert_eq!(rt; words.len(), 17);
    let bytes = bytes_of(rt.alloc(), words.as_slice())?;
    let back = words_of(rt.alloc(), bytes.as_slice())?;
    let mut givens = [Entry { cell: 0, value: 0 }; 81];
    let mut claims = givens;
    let mut signs = [Sign {
        lesser: 0,
        greater: 0,
    }; 162];
    let taken = read(back.as_slice(), &mut givens, &mut claims, &mut signs)
        .ok()
        .ok_or("refused")?;
    assert!(rt; taken.given_count <= 81 && taken.claim_count <= 81 && taken.sign_count <= 162);
    let text = drawing_of(rt.alloc(), taken.records(&givens, &claims, &signs))?;
    assert!(rt; text.as_slice() == DRAWN.as_slice());
    Ok(())
}

// A byte at a place of the drawing, and the line and the column where it is then refused.
static UNFIT: [(usize, u8, u32, u32); 9] = [
    (0, b'x', 1, 1),
    (12, b'\n', 1, 13),
    (13, b' ', 1, 28),
    (14, b'<', 2, 1),
    (16, b'4', 2, 3),
    (17, b']', 2, 4),
    (18, b'^', 2, 5),
    (29, b'^', 3, 2),
    (97, b'+', 7, 14),
];

#[test]
fn a_text_that_does_not_fit_is_refused_at_its_place(rt: HostRuntime) -> Result<(), Fail> {
    for (place, byte, line, column) in &UNFIT {
        let mut text = DRAWN;
        assert!(rt; *place < 98);
        text[*place] = *byte;
        match words_of_drawing(rt.alloc(), &text) {
            Ok(_) => return Err(Fail::new("taken")),
            Err(Undrawn::At(l, c)) => assert_eq!(rt; (*place, l, c), (*place, *line, *column)),
            Err(Undrawn::Memory) => return Err(Fail::new("no memory")),
        }
    }
    Ok(())
}

// The report on a drawn board whose byte at a place is another.
fn redrawn(rt: &(impl Abort + AllocGlobal), place: usize, byte: u8) -> Result<Report, Fail> {
    let mut text = DRAWN;
    assert!(rt; place < 98);
    text[place] = byte;
    let words = words_of_drawing(rt.alloc(), &text).ok().ok_or("not drawn")?;
    let bytes = bytes_of(rt.alloc(), words.as_slice())?;
    Ok(judge(rt.alloc(), bytes.as_slice())?)
}

#[test]
fn a_drawn_board_is_judged(rt: HostRuntime) -> Result<(), Fail> {
    // 9 + 3 * 27 clauses of the board, 6 for each of 4 signs, and 2 givens
    match redrawn(&rt, 0, b'+')? {
        Report::Source(n, m) => assert_eq!(rt; (n, m), (27, 116)),
        Report::Refusal(_) => return Err(Fail::new("refused")),
    }
    // cell 1 greater than cell 2: the first sign's clauses are 91 to 96
    match redrawn(&rt, 18, b'>')? {
        Report::Source(_, _) => Err(Fail::new("a false claim stands")),
        Report::Refusal(fault) => {
            assert_eq!(rt; (fault.number(), fault.places()), (33, (92, 0)));
            Ok(())
        },
    }
}
