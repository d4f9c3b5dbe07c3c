ghost use Rattle.std.specs.Prelude.{◌≡◌, ◌+◌, ◌*◌, ◌^◌, ◌<◌, MatchOption};
ghost use Rattle.words.specs.Kinds.{code_of};
ghost use Rattle.words.specs.Layouts.{field, entry_in, clean, decoded};
ghost use Rattle.words.specs.Laws.{SaysByLayout, Encoded};

use crate::entry::Entry;
use crate::item::Item;
use crate::kind::Kind;
use futoshiki::Sign;

// A kind's unit, bit 28; how many cells, and how many puzzles, their bits tell apart.
const KIND: u32 = 0x1000_0000;

const CELLS: u16 = 0x1000;

const PUZZLES: u8 = 0x10;

// The bits of a word from bit `low` on, `size` of them. That `low` is a bit of a word stays a clause, here and below: it is a
// number written out in each call.
fn field(word: u32, low: u32, size: u32) -> u32
    requires { (low < 32) × (size < 32) }
    ensures value { result ≡ field word low size }
    ensures fits { result < 2 ^ size }
{
    (word >> low) % (1 << size)
}

// A cell, from bit `low` on. A cast and no `try_from`, here and below: the field always fits, so there is no error to answer.
fn cell(word: u32, low: u32) -> u16
    requires { low < 32 }
    ensures { result ≡ field word low 12 }
{
    field(word, low, 12) as u16
}

// A value or a side, from bit `low` on.
fn octet(word: u32, low: u32) -> u8
    requires { low < 32 }
    ensures { result ≡ field word low 8 }
{
    field(word, low, 8) as u8
}

// The cell and the value of a given or a claim.
fn entry(word: u32) -> Entry
    ensures { result ≡ entry_in word }
{
    Entry {
        cell: cell(word, 16),
        value: octet(word, 8),
    }
}

// An item, if the lowest bits of its word, `zeros` of them, are 0.
fn if_clean(word: u32, zeros: u32, item: Item) -> Option<Item>
    requires { zeros < 32 }
    ensures { result ≡ clean zeros word item }
{
    (field(word, 0, zeros) == 0).then_some(item)
}

/// What a word says, by its layout; nothing where its kind is unknown or a bit is set that must be 0.
// An `Option` and no `TryFrom`, here and in `encode`: an error would say no more than `None` does.
#[tactic(auto, unfolding(crate::specs::Layouts::decoded))]
pub fn decode(word: u32) -> Option<Item>
    ensures answer { result ≡ decoded word }
    ensures layout { SaysByLayout word }
{
    match Kind::try_from(word >> 28).ok()? {
        Kind::Board => if_clean(
            word,
            16,
            Item::Board(field(word, 24, 4) as u8, octet(word, 16)),
        ),
        Kind::Given => if_clean(word, 8, Item::Given(entry(word))),
        Kind::Less => {
            let sign = Sign {
                lesser: cell(word, 16),
                greater: cell(word, 4),
            };
            if_clean(word, 4, Item::Less(sign))
        }
        Kind::Claim => if_clean(word, 8, Item::Claim(entry(word))),
        Kind::End => if_clean(word, 28, Item::End),
    }
}

// A cell, where its bits are enough for it.
fn fitting(cell: u16) -> Option<u32>
    ensures { MatchOption result (cell < 2 ^ 12 → ⊥) (λ bits. (cell < 2 ^ 12) × (bits ≡ cell)) }
{
    (cell < CELLS).then_some(u32::from(cell))
}

// The word of a given or a claim, by its kind; none where the cell does not fit its bits.
fn entry_word(kind: Kind, e: Entry) -> Option<u32>
    ensures { MatchOption result (e.cell < 2 ^ 12 → ⊥) (λ w. (e.cell < 2 ^ 12) × (e.value < 2 ^ 8) × (w ≡ code_of kind * 2 ^ 28 + e.cell * 2 ^ 16 + e.value * 2 ^ 8)) }
{
    let cell = fitting(e.cell)?;
    Some(u32::from(kind) * KIND + cell * 0x1_0000 + u32::from(e.value) * 0x100)
}

// The word of a sign; none where a cell does not fit its bits.
fn sign_word(s: Sign) -> Option<u32>
    ensures { MatchOption result ((s.lesser < 2 ^ 12) × (s.greater < 2 ^ 12) → ⊥) (λ w. (s.lesser < 2 ^ 12) × (s.greater < 2 ^ 12) × (w ≡ 3 * 2 ^ 28 + s.lesser * 2 ^ 16 + s.greater * 2 ^ 4)) }
{
    let lesser = fitting(s.lesser)?;
    let greater = fitting(s.greater)?;
    Some(u32::from(Kind::Less) * KIND + lesser * 0x1_0000 + greater * 0x10)
}

// The word of a board; none where the puzzle does not fit its bits.
fn board_word(puzzle: u8, side: u8) -> Option<u32>
    ensures { MatchOption result (puzzle < 2 ^ 4 → ⊥) (λ w. (puzzle < 2 ^ 4) × (side < 2 ^ 8) × (w ≡ 1 * 2 ^ 28 + puzzle * 2 ^ 24 + side * 2 ^ 16)) }
{
    if puzzle >= PUZZLES {
        return None;
    }
    Some(
        u32::from(Kind::Board) * KIND + u32::from(puzzle) * 0x100_0000 + u32::from(side) * 0x1_0000,
    )
}

/// The word that says an item; none where a field has too few bits for it.
#[tactic(auto, unfolding(crate::specs::Layouts::item_word))]
pub fn encode(item: Item) -> Option<u32>
    ensures { Encoded item result }
{
    match item {
        Item::Board(puzzle, side) => board_word(puzzle, side),
        Item::Given(e) => entry_word(Kind::Given, e),
        Item::Claim(e) => entry_word(Kind::Claim, e),
        Item::Less(s) => sign_word(s),
        Item::End => Some(u32::from(Kind::End) * KIND),
    }
}
