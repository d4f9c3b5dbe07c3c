ghost use Rattle.std.specs.Prelude.{◌≡◌, ℕ, ◌*◌, ◌≤◌, List, [], ◌∷◌, ◌++◌, map, OnOk, option_to_list};
ghost use Rattle.std.specs.List.{flat_map};
ghost use Rattle.futoshiki.specs.Board.{up_to};
ghost use Rattle.words.specs.Layouts.{item_word, FitsBits};
ghost use Rattle.drawing.specs.declared.cells.Cell.{Cell};
ghost use Rattle.drawing.specs.Drawn.{given_word, claim_word, less_word, sign_drawn, sign_right, sign_below, drawn_given, drawn_entry, drawn_signs};

use crate::board::Board;
use crate::cells::Cell;
use futoshiki::Sign;
use std::alloc::AllocError;
use words::{Entry, Item, encode};

// The word of an item whose fields have bits enough.
pub(crate) fn word_of(item: Item) -> u32
    requires { FitsBits item }
    ensures { result ≡ item_word item }
{
    encode(item).unwrap()
}

// The word of the sign that a byte draws between two cells, if it draws one: `less` says that the first holds less, `more` that the second does.
fn sign_word(byte: u8, less: u8, more: u8, i: u16, j: u16) -> Option<u32>
    requires { (i ≤ 100) × (j ≤ 100) }
    ensures { option_to_list result ≡ map less_word (sign_drawn byte less more i j) }
{
    let (lesser, greater) = if byte == less {
        (i, j)
    } else if byte == more {
        (j, i)
    } else {
        return None;
    };
    Some(word_of(Item::Less(Sign { lesser, greater })))
}

// Adds the words that there are of two.
fn push_words(words: &mut Vec<u32>, two: [Option<u32>; 2]) -> Result<(), AllocError>
    ensures { OnOk result (words.new.items ≡ words.old.items ++ flat_map option_to_list two) }
{
    let [first, second] = two;
    if let Some(word) = first {
        words.push(word)?;
    }
    if let Some(word) = second {
        words.push(word)?;
    }
    Ok(())
}

impl Cell<'_> {
    // The cell with the value that is drawn in it.
    fn entry(&self) -> Entry
        ensures is { result ≡ drawn_entry self.now.board.drawing.grid.side self.now.board.drawing.text.now self.now.number }
        ensures small { (result.cell ≤ 81) × (result.value ≤ 9) }
    {
        let drawing = self.board.drawing;
        let digit = drawing.byte_at(drawing.grid.place_of(self.number));
        Entry {
            cell: self.number as u16,
            value: digit - b'0',
        }
    }

    // The word of a cell in brackets, and none of another.
    fn given_word(&self) -> Option<u32>
        ensures { option_to_list result ≡ map given_word (drawn_given self.now.board.drawing.grid.side self.now.board.drawing.text.now self.now.number) }
    {
        let drawing = self.board.drawing;
        if drawing.byte_at(drawing.grid.place_of(self.number) - 1) == b'[' {
            Some(word_of(Item::Given(self.entry())))
        } else {
            None
        }
    }

    // The word of the cell with its value.
    fn claim_word(&self) -> u32
        ensures { result ≡ claim_word (drawn_entry self.now.board.drawing.grid.side self.now.board.drawing.text.now self.now.number) }
    {
        word_of(Item::Claim(self.entry()))
    }

    // The word of the sign to the cell's right.
    fn right_word(&self) -> Option<u32>
        ensures { option_to_list result ≡ map less_word (sign_right self.now.board.drawing.grid.side self.now.board.drawing.text.now self.now.number) }
    {
        let drawing = self.board.drawing;
        let byte = drawing.byte_at(drawing.grid.place_of(self.number) + 2);
        let i = self.number as u16;
        sign_word(byte, b'<', b'>', i, i + 1)
    }

    // The word of the sign below the cell.
    fn below_word(&self) -> Option<u32>
        ensures { option_to_list result ≡ map less_word (sign_below self.now.board.drawing.grid.side self.now.board.drawing.text.now self.now.number) }
    {
        let drawing = self.board.drawing;
        let grid = drawing.grid;
        let byte = drawing.byte_at(grid.place_of(self.number) + grid.width());
        let i = self.number as u16;
        sign_word(byte, b'^', b'v', i, i + grid.side as u16)
    }
}

impl<'t> Board<'t> {
    // Adds the words that each cell gives, two at most, in reading order.
    fn list_words<F: Fn(Cell<'t>) -> [Option<u32>; 2]>(
        &self,
        words: &mut Vec<u32>,
        words_of: F,
    ) -> Result<(), AllocError>
        requires { F.IsAlwaysCallable words_of }
        ensures { OnOk result ((given : ℕ → List ℕ) → ((cell : Cell) → cell.board ≡ self.now → (r : List _) → F.post words_of cell r → flat_map option_to_list r ≡ given cell.number) → words.new.items ≡ words.old.items ++ flat_map given (up_to (self.now.drawing.grid.side * self.now.drawing.grid.side))) }
    {
        let board = *self;
        let cells = board.drawing.grid.side * board.drawing.grid.side;
        for number in 1..=cells {
            push_words(words, words_of(Cell { board, number }))?;
        }
        Ok(())
    }

    // Adds the words of the cells in brackets, in reading order.
    pub(crate) fn list_givens(&self, words: &mut Vec<u32>) -> Result<(), AllocError>
        ensures { OnOk result (words.new.items ≡ words.old.items ++ map given_word (flat_map (drawn_given self.now.drawing.grid.side self.now.drawing.text.now) (up_to (self.now.drawing.grid.side * self.now.drawing.grid.side)))) }
    {
        self.list_words(
            words,
            |cell|
                ensures { flat_map option_to_list result ≡ map given_word (drawn_given cell.entry.board.drawing.grid.side cell.entry.board.drawing.text.now cell.entry.number) }
            { [cell.given_word(), None] },
        )
    }

    // Adds the words of all cells with their values, in reading order.
    pub(crate) fn list_claims(&self, words: &mut Vec<u32>) -> Result<(), AllocError>
        ensures { OnOk result (words.new.items ≡ words.old.items ++ map claim_word (map (drawn_entry self.now.drawing.grid.side self.now.drawing.text.now) (up_to (self.now.drawing.grid.side * self.now.drawing.grid.side)))) }
    {
        self.list_words(
            words,
            |cell|
                ensures { flat_map option_to_list result ≡ claim_word (drawn_entry cell.entry.board.drawing.grid.side cell.entry.board.drawing.text.now cell.entry.number) ∷ [] }
            { [Some(cell.claim_word()), None] },
        )
    }

    // Adds the words of the signs, cell by cell in reading order: the one to its right, then the one below it.
    pub(crate) fn list_signs(&self, words: &mut Vec<u32>) -> Result<(), AllocError>
        ensures { OnOk result (words.new.items ≡ words.old.items ++ map less_word (flat_map (drawn_signs self.now.drawing.grid.side self.now.drawing.text.now) (up_to (self.now.drawing.grid.side * self.now.drawing.grid.side)))) }
    {
        self.list_words(
            words,
            |cell|
                ensures { flat_map option_to_list result ≡ map less_word (drawn_signs cell.entry.board.drawing.grid.side cell.entry.board.drawing.text.now cell.entry.number) }
            { [cell.right_word(), cell.below_word()] },
        )
    }
}
