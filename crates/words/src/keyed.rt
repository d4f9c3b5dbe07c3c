ghost use Rattle.words.specs.Cells.{entry_key};

use crate::entry::Entry;
use register::Record;

impl Record for Entry {
    // its cell
    type Key = u16;

    ghost keyed = { entry_key };

    ghost empty = { record { cell = 0; value = 0 } };

    fn key(&self) -> u16 {
        self.cell
    }

    fn blank() -> Entry {
        Entry { cell: 0, value: 0 }
    }
}
