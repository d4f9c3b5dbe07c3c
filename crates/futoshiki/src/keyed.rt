ghost use Rattle.futoshiki.specs.Pairs.{pair_key};

use crate::sign::Sign;
use register::Record;

impl Record for Sign {
    // its two cells, in either order
    type Key = (u16, u16);

    ghost keyed = { pair_key };

    ghost empty = { record { lesser = 0; greater = 0 } };

    fn key(&self) -> (u16, u16) {
        let low = self.lesser.min(self.greater);
        let high = self.lesser.max(self.greater);
        (low, high)
    }

    fn blank() -> Sign {
        Sign {
            lesser: 0,
            greater: 0,
        }
    }
}
