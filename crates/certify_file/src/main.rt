// Certifies the puzzle in the file puzzle.w32 of the current folder, and prints the report on it.
#![tactic(auto)]

use files::empty_if_missing;
use report::judge;
use std::fs;

fn certify(rt: &HostRuntime) -> anyhow::Result<()> {
    let puzzle = empty_if_missing(rt.alloc(), fs::read(rt, "puzzle.w32"))?;
    rt.println(judge(rt.alloc(), puzzle.as_slice())?)?;
    Ok(())
}

fn main(rt: HostRuntime) -> anyhow::Result<()> {
    certify(&rt)
}
