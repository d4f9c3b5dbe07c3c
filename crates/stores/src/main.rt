// Fills a paged store to its last page, makes room, fills it again, and prints what it holds.
#![tactic(auto)]

use cnf::{ClauseId, Fault, Literal};
use pages::PagedStore;
use std::array;
use store::Store;

// The clause that is put under an id: nine literals, so two pages.
fn clause(id: u32) -> [Literal; 9] {
    array::from_fn(|j| {
        let v = (id % 1000) as i32 + j as i32 + 1;
        Literal(if j % 2 == 0 { v } else { -v })
    })
}

fn show<T: Store>(rt: &HostRuntime, store: &T) -> anyhow::Result<()> {
    println!(rt; "held {} free {}", store.held(), store.free())?;
    Ok(())
}

fn show_answer(
    rt: &HostRuntime,
    what: &str,
    id: u32,
    answer: Result<(), Fault>,
) -> anyhow::Result<()> {
    match answer {
        Ok(()) => println!(rt; "{what} {id}")?,
        Err(fault) => println!(rt; "{what} {id} {fault}")?,
    }
    Ok(())
}

// Puts clauses under the ids from 1 on until one is refused, and prints that.
fn fill<T: Store>(rt: &HostRuntime, store: &mut T) -> anyhow::Result<()> {
    for id in 1..2000u32 {
        let answer = store.put(ClauseId(id), &clause(id));
        if answer.is_err() {
            return show_answer(rt, "put", id, answer);
        }
    }
    Ok(())
}

fn show_clause<T: Store>(rt: &HostRuntime, store: &T, id: u32) -> anyhow::Result<()> {
    let mut literals = [Literal(0); 1024];
    match store.read(ClauseId(id), &mut literals) {
        None => println!(rt; "clause {id} is not held")?,
        Some(length) => {
            print!(rt; "clause {id}:")?;
            for l in literals.iter().take(length as usize) {
                print!(rt; " {}", l.0)?;
            }
            println!(rt; "")?;
        }
    }
    Ok(())
}

fn main(rt: HostRuntime) -> anyhow::Result<()> {
    let mut store = PagedStore::new(rt.alloc())?;
    show(&rt, &store)?;
    fill(&rt, &mut store)?;
    show(&rt, &store)?;
    for id in [7, 300, 7] {
        let answer = store.remove(ClauseId(id));
        show_answer(&rt, "remove", id, answer)?;
    }
    show(&rt, &store)?;
    for id in [1000, 8, 1001, 1002] {
        let answer = store.put(ClauseId(id), &clause(id));
        show_answer(&rt, "put", id, answer)?;
    }
    show(&rt, &store)?;
    for id in [1, 7, 512, 1001] {
        show_clause(&rt, &store, id)?;
    }
    Ok(())
}
