// With no argument: makes puzzle.w32 of the board that is drawn in board.txt, and prints the board that its words give. With
// the path of a puzzle file: prints the board that its words give.
#![tactic(auto)]

use anyhow::anyhow;
use drawing::{Undrawn, drawing_of, words_of_drawing};
use files::empty_if_missing;
use futoshiki::Sign;
use puzzle::read;
use std::io::Write;
use std::{env, fs};
use words::{Entry, bytes_of, words_of};

// The givens that the claim does not keep: a drawing shows the claimed values alone.
fn show_disagreements(rt: &HostRuntime, givens: &[Entry], claims: &[Entry]) -> anyhow::Result<()> {
    for given in givens {
        for claim in claims {
            if given.cell == claim.cell && given.value != claim.value {
                let (cell, first, second) = (given.cell, given.value, claim.value);
                println!(rt; "cell {cell} is given {first} and claimed {second}")?;
            }
        }
    }
    Ok(())
}

// The board that a list of words gives, as a drawing.
fn show_words(rt: &HostRuntime, words: &[u32]) -> anyhow::Result<()> {
    // tables that are never full
    let mut givens = [Entry { cell: 0, value: 0 }; 81];
    let mut claims = givens;
    let mut signs = [Sign {
        lesser: 0,
        greater: 0,
    }; 162];
    match read(words, &mut givens, &mut claims, &mut signs) {
        Ok(taken) => {
            let board = taken.records(&givens, &claims, &signs);
            let text = drawing_of(rt.alloc(), board)?;
            rt.stdout().write_all(text.as_slice())?;
            show_disagreements(rt, board.givens, board.claims)
        }
        Err(fault) => {
            println!(rt; "{fault}")?;
            Ok(())
        }
    }
}

// The board in a puzzle file.
fn show_file(rt: &HostRuntime, path: &str) -> anyhow::Result<()> {
    let bytes = empty_if_missing(rt.alloc(), fs::read(rt, path))?;
    let words = words_of(rt.alloc(), bytes.as_slice())?;
    show_words(rt, words.as_slice())
}

// The drawn board as words, in a file and again as a drawing.
fn take_drawing(rt: &HostRuntime) -> anyhow::Result<()> {
    let text = empty_if_missing(rt.alloc(), fs::read(rt, "board.txt"))?;
    match words_of_drawing(rt.alloc(), text.as_slice()) {
        Ok(words) => {
            let bytes = bytes_of(rt.alloc(), words.as_slice())?;
            fs::write(rt, "puzzle.w32", bytes.as_slice())?;
            let count = words.len();
            println!(rt; "puzzle.w32 has {count} words:")?;
            show_file(rt, "puzzle.w32")
        }
        Err(Undrawn::Memory) => Err(anyhow!("no memory")),
        Err(undrawn) => {
            println!(rt; "board.txt {undrawn}")?;
            Ok(())
        }
    }
}

fn run(rt: &HostRuntime) -> anyhow::Result<()> {
    match env::args(rt)?.nth(1) {
        Some(path) => show_file(rt, path.as_str()),
        None => take_drawing(rt),
    }
}

fn main(rt: HostRuntime) -> anyhow::Result<()> {
    run(&rt)
}
