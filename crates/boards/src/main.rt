// Certifies the puzzles of several folders, one after another: for each it prints the folder's name and the report on the
// file puzzle.w32 in it.
#![tactic(auto)]

use files::empty_if_missing;
use report::judge;
use std::{env, fs};

fn certify(rt: &HostRuntime, folder: &str) -> anyhow::Result<()> {
    let path = format!(in rt.alloc(); "{folder}/puzzle.w32")?;
    let puzzle = empty_if_missing(rt.alloc(), fs::read(rt, path.as_str()))?;
    let report = judge(rt.alloc(), puzzle.as_slice())?;
    println!(rt; "{folder}: {report}")?;
    Ok(())
}

fn certify_all(rt: &HostRuntime) -> anyhow::Result<()> {
    for folder in env::args(rt)?.skip(1) {
        certify(rt, folder.as_str())?;
    }
    Ok(())
}

fn main(rt: HostRuntime) -> anyhow::Result<()> {
    certify_all(&rt)
}
