ghost use Rattle.std.specs.Prelude.{◌≡◌, ◌||◌, is_ok, if◌then◌else◌, Ok, Err, MatchResult};
ghost use Rattle.puzzle.specs.Reading.{blank_board, with_item, ends_list, item_answer, read_from, opened, read_list};
ghost use Rattle.puzzle.specs.Steps.{puzzle_held, state_held, tables_held, verdict_of, verdict_with, side_told, SameTables};

use crate::enter::{end_list, enter};
use crate::position::Position;
use crate::registers::Registers;
use cnf::Fault;
use futoshiki::Side;
use words::{FUTOSHIKI, Item, decode};

// Whether the end word has come, by an item that is taken.
fn ends(ended: bool, item: Item) -> bool
    ensures { result ≡ (ended || ends_list item) }
{
    match item {
        Item::End => true,
        _ => ended,
    }
}

// The side that a first word gives, if it is a board's.
fn board_side(item: Item) -> Result<Side, Fault>
    ensures { MatchResult result (λ s. side_told item ≡ Ok s.n) (λ f. side_told item ≡ Err f) }
{
    let side = match item {
        Item::Board(FUTOSHIKI, side) => Side::new(u32::from(side)),
        _ => None,
    };
    side.ok_or(Fault::BoardWord(1))
}

impl Registers<'_, '_, '_, '_, '_, '_> {
    // Takes what a later word says.
    fn take(&mut self, at: Position, item: Item) -> Result<(), Fault>
        ensures answer { result ≡ item_answer (tables_held self.old) (state_held at.side.n at.ended self.old) at.place item }
        ensures puzzle { puzzle_held at.side.n self.new ≡ (if is_ok result then with_item (puzzle_held at.side.n self.old) item else puzzle_held at.side.n self.old) }
        ensures tables { SameTables self.old self.new }
    {
        match item {
            Item::Board(_, _) => Err(Fault::BoardWord(at.place)),
            Item::Given(e) => enter(at, e, self.givens),
            Item::Claim(e) => enter(at, e, self.claims),
            Item::Less(s) => enter(at, s, self.signs),
            Item::End => end_list(at, self.claims),
        }
    }

    // Reads the words after the first, the board's.
    fn read_rest(&mut self, side: Side, words: &[u32]) -> Result<(), Fault>
        requires { puzzle_held side.n self.old ≡ blank_board side.n }
        ensures answer { verdict_of result (puzzle_held side.n self.new) ≡ read_from (tables_held self.old) (opened side.n) 2 words.now }
        ensures tables { SameTables self.old self.new }
    {
        let mut ended = false;
        for (i, word) in words.iter().enumerate() {
            let place = i as u32 + 2;
            let Some(item) = decode(*word) else {
                return Err(Fault::WordForm(place));
            };
            self.take(Position { side, ended, place }, item)?;
            ended = ends(ended, item);
        }
        if !ended {
            return Err(Fault::EndWord(words.len() as u32 + 2));
        }
        Ok(())
    }

    // Reads a list, and tells the board's side.
    pub(crate) fn read_list(&mut self, words: &[u32]) -> Result<Side, Fault>
        requires { puzzle_held 0 self.old ≡ blank_board 0 }
        ensures answer { verdict_with result self.new ≡ read_list (tables_held self.old) words.now }
        ensures tables { SameTables self.old self.new }
    {
        let Some((first, rest)) = words.split_first() else {
            return Err(Fault::EndWord(1));
        };
        let Some(item) = decode(*first) else {
            return Err(Fault::WordForm(1));
        };
        let side = board_side(item)?;
        self.read_rest(side, rest)?;
        Ok(side)
    }
}
