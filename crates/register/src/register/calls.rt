ghost use Rattle.std.specs.Prelude.{◌≡◌, ◌+◌, cond, [], ◌∷◌, ◌++◌, length, replicate, is_ok, if◌then◌else◌, slice_set};
ghost use Rattle.register.specs.Keys.{has_key, NoKeyTwice};
ghost use Rattle.register.specs.Held.{records_in, slots_in, LaidOut, insert_answer};

use super::Register;
use crate::record::Record;
use crate::refusal::Refusal;

// Each call says that the slots stay the same loan: so a caller who lent them knows what its table holds at the end.
impl<'a, R: Record> Register<'a, R> {
    /// An empty register over a table; every slot becomes blank.
    pub fn new(slots: &'a mut [R]) -> Register<'a, R>
        ensures records { records_in result ≡ [] }
        ensures used { result.used ≡ 0 }
        ensures table { result.slots.now ≡ replicate (length slots.old) R.empty }
        ensures blank { result.blank ≡ R.empty }
        ensures same { result.slots.ghost_name ≡ slots.entry.ghost_name }
    {
        let blank = R::blank();
        for slot in slots.iter_mut() {
            *slot = blank;
        }
        Register {
            slots,
            used: 0,
            blank,
        }
    }

    /// The number of records.
    pub fn len(&self) -> usize
        ensures count { result ≡ length (records_in self.now) }
        ensures used { result ≡ self.now.used }
        ensures table { LaidOut self.now }
    {
        self.used
    }

    /// Whether a record with a key is there.
    pub fn contains(&self, key: R::Key) -> bool
        ensures { result ≡ has_key R.Key.eq R.keyed (records_in self.now) key }
    {
        self.slots[..self.used].iter().any(|r| r.key() == key)
    }

    /// Keeps a record after those that came before, unless one with its key is there or the table is full.
    pub fn insert(&mut self, r: R) -> Result<(), Refusal>
        ensures answer { result ≡ insert_answer (has_key R.Key.eq R.keyed (records_in self.old) (R.keyed r)) (length (records_in self.old)) (slots_in self.old) }
        ensures records { records_in self.new ≡ (if is_ok result then records_in self.old ++ r ∷ [] else records_in self.old) }
        ensures once { NoKeyTwice R.Key.eq R.keyed (records_in self.old) → NoKeyTwice R.Key.eq R.keyed (records_in self.new) }
        ensures count { length (records_in self.old) ≡ self.old.used }
        ensures used { self.new.used ≡ cond (is_ok result) (self.old.used + 1) self.old.used }
        ensures table { self.new.slots.now ≡ (if is_ok result then slice_set self.old.slots.now self.old.used r else self.old.slots.now) }
        ensures slots { slots_in self.new ≡ slots_in self.old }
        ensures blank { self.new.blank ≡ self.old.blank }
        ensures same { self.new.slots.ghost_name ≡ self.old.slots.ghost_name }
    {
        if self.contains(r.key()) {
            return Err(Refusal::Present);
        }
        if self.used == self.slots.len() {
            return Err(Refusal::Full);
        }
        self.slots[self.used] = r;
        self.used += 1;
        Ok(())
    }

    /// Takes all records out: every slot becomes blank again.
    pub fn clear(&mut self)
        ensures records { records_in self.new ≡ [] }
        ensures used { self.new.used ≡ 0 }
        ensures table { self.new.slots.now ≡ replicate (slots_in self.old) self.old.blank }
        ensures blank { self.new.blank ≡ self.old.blank }
        ensures same { self.new.slots.ghost_name ≡ self.old.slots.ghost_name }
    {
        let empty = self.blank;
        for slot in self.slots[..self.used].iter_mut() {
            *slot = empty;
        }
        self.used = 0;
    }
}
