use cnf::{ClauseId, Fault, Literal};
use pages::PagedStore;
use std::array;
use std::process::Abort;
use std::test::Fail;
use store::{FlatStore, Store};

// The lengths of the clauses that are put.
static LENGTHS: [u32; 8] = [0, 1, 8, 9, 32, 33, 1024, 1025];

// The next of a row of numbers without order.
fn draw(seed: u32) -> u32 {
    let x = seed ^ (seed << 13);
    let y = x ^ (x >> 17);
    y ^ (y << 5)
}

fn length_drawn(seed: u32) -> u32 {
    LENGTHS[(seed / 256 % 8) as usize]
}

// Literal j, counted from 1, of the clause with a mark.
fn literal(mark: u32, j: u32) -> Literal {
    let v = (mark.wrapping_mul(7).wrapping_add(j) % 900) as i32 + 1;
    if j % 3 == 0 { Literal(-v) } else { Literal(v) }
}

// The first literals of the clause with a mark.
fn clause(mark: u32) -> [Literal; 1025] {
    array::from_fn(|j| literal(mark, j as u32 + 1))
}

// A plain model: the mark and the length of the clause under each of forty ids, and the numbers of the kind.
#[derive(Drop)]
struct Plain {
    held: [Option<(u32, u32)>; 40],
    used: u32,
    unit: u32,
    units: u32,
    longest: u32,
}

impl Plain {
    fn new(unit: u32, units: u32, longest: u32) -> Plain {
        Plain {
            held: [None; 40],
            used: 0,
            unit,
            units,
            longest,
        }
    }

    fn cost(&self, length: u32) -> u32 {
        if length <= self.unit || self.unit == 0 {
            return 1;
        }
        length / self.unit + if length % self.unit == 0 { 0 } else { 1 }
    }

    fn put(&mut self, id: u32, mark: u32, length: u32) -> Option<Fault> {
        let i = (id % 40) as usize;
        if self.held[i].is_some() {
            return Some(Fault::IdHeld);
        }
        if length > self.longest {
            return Some(Fault::TooLong);
        }
        let used = self.used.saturating_add(self.cost(length));
        if used > self.units {
            return Some(Fault::NoRoom);
        }
        self.used = used;
        self.held[i] = Some((mark, length));
        None
    }

    fn remove(&mut self, id: u32) -> Option<Fault> {
        let i = (id % 40) as usize;
        match self.held[i] {
            None => Some(Fault::NotHeld),
            Some((_, length)) => {
                self.used = self.used.saturating_sub(self.cost(length));
                self.held[i] = None;
                None
            }
        }
    }

    fn count(&self) -> u32 {
        self.held.iter().filter(|held| held.is_some()).count() as u32
    }
}

// What a store answers of an id, against the model.
fn compare<T: Store>(rt: &impl Abort, store: &T, plain: &Plain, id: u32) -> Result<(), Fail> {
    let mut literals = [Literal(0); 1024];
    let read = store.read(ClauseId(id), &mut literals);
    assert_eq!(rt; read, store.length(ClauseId(id)));
    match plain.held[(id % 40) as usize] {
        None => {
            assert_eq!(rt; read, None);
            assert_eq!(rt; store.literal(ClauseId(id), 1).0, 0);
            Ok(())
        }
        Some((mark, length)) => {
            assert_eq!(rt; read, Some(length));
            assert_eq!(rt; store.literal(ClauseId(id), 0).0, 0);
            assert_eq!(rt; store.literal(ClauseId(id), length.saturating_add(1)).0, 0);
            for (j, l) in literals.iter().take(length as usize).enumerate() {
                assert_eq!(rt; l.0, literal(mark, (j % 1024) as u32 + 1).0);
            }
            assert_eq!(rt;
                store.literal(ClauseId(id), length).0,
                if length == 0 {
                    0
                } else {
                    literal(mark, length).0
                }
            );
            Ok(())
        }
    }
}

// Puts and removes in a mixed order, and compares every answer and what is held.
fn drive<T: Store>(
    rt: &impl Abort,
    store: &mut T,
    plain: &mut Plain,
    turns: u32,
) -> Result<(), Fail> {
    let mut seed = 2463534242u32;
    for turn in 0..turns {
        seed = draw(seed);
        let id = seed % 40;
        let length = length_drawn(seed);
        if seed / 65536 % 4 == 0 {
            assert_eq!(rt; store.remove(ClauseId(id)).err(), plain.remove(id));
        } else {
            let literals = clause(turn);
            let end = length.min(1025) as usize;
            assert_eq!(rt;
                store.put(ClauseId(id), &literals[0..end]).err(),
                plain.put(id, turn, length)
            );
        }
        assert_eq!(rt; store.held(), plain.count());
        assert_eq!(rt; store.free(), plain.units.saturating_sub(plain.used));
        compare(rt, store, plain, id)?;
        compare(rt, store, plain, turn % 40)?;
    }
    for id in 0..40u32 {
        compare(rt, store, plain, id)?;
    }
    Ok(())
}

#[test]
fn a_flat_store_against_a_plain_model(rt: HostRuntime) -> Result<(), Fail> {
    let mut store = FlatStore::new(rt.alloc())?;
    let mut plain = Plain::new(32, 64, 32);
    drive(&rt, &mut store, &mut plain, 400)
}

#[test]
fn a_paged_store_against_a_plain_model(rt: HostRuntime) -> Result<(), Fail> {
    let mut store = PagedStore::new(rt.alloc())?;
    let mut plain = Plain::new(8, 1024, 1024);
    drive(&rt, &mut store, &mut plain, 400)
}

// Fills a store to its last unit with clauses of one length, empties it from the other end, and fills it again.
fn fill<T: Store>(rt: &impl Abort, store: &mut T, length: u32, most: u32) {
    let literals = clause(length);
    let end = length.min(1025) as usize;
    for round in 0..2u32 {
        for id in 0..most {
            assert_eq!(rt; store.put(ClauseId(id), &literals[0..end]), Ok(()));
        }
        assert_eq!(rt;
            (store.held(), store.put(ClauseId(most), &literals[0..end])),
            (most, Err(Fault::NoRoom))
        );
        for id in (0..most).rev() {
            assert_eq!(rt; store.remove(ClauseId(id)), Ok(()));
        }
        assert_eq!(rt; store.held(), 0);
    }
}

#[test]
fn a_flat_store_to_its_last_unit(rt: HostRuntime) -> Result<(), Fail> {
    let mut store = FlatStore::new(rt.alloc())?;
    for length in [0, 1, 8, 32] {
        fill(&rt, &mut store, length, 64);
    }
    assert_eq!(rt; store.free(), 64);
    Ok(())
}

#[test]
fn a_paged_store_to_its_last_page(rt: HostRuntime) -> Result<(), Fail> {
    let mut store = PagedStore::new(rt.alloc())?;
    for (length, most) in [(0, 1024), (1, 1024), (8, 1024), (9, 512), (1024, 8)] {
        fill(&rt, &mut store, length, most);
    }
    assert_eq!(rt; store.free(), 1024);
    fill(&rt, &mut store, 1017, 8);
    store.clear();
    assert_eq!(rt; (store.held(), store.free()), (0, 1024));
    Ok(())
}
