// Takes a set of side rules with a fixed literal, and two claims, through the checks, and prints what it did.
#![tactic(auto)]

use cnf::{ClauseId, ClauseTable, Fault, Literal, Source, check_claim, check_lawful};
use layers::{Block, Fix};

// The rules of a board of two by two cells whose first cell is less than its second, as clauses over eight variables:
// value v in cell i, counted in reading order, is variable 2 (i - 1) + v.
static RULES: [Literal; 38] = [
    // each cell holds some value
    Literal(1),
    Literal(2),
    Literal(3),
    Literal(4),
    Literal(5),
    Literal(6),
    Literal(7),
    Literal(8),
    // no cell holds both
    Literal(-1),
    Literal(-2),
    Literal(-3),
    Literal(-4),
    Literal(-5),
    Literal(-6),
    Literal(-7),
    Literal(-8),
    // no row holds a value twice
    Literal(-1),
    Literal(-3),
    Literal(-2),
    Literal(-4),
    Literal(-5),
    Literal(-7),
    Literal(-6),
    Literal(-8),
    // no column holds a value twice
    Literal(-1),
    Literal(-5),
    Literal(-2),
    Literal(-6),
    Literal(-3),
    Literal(-7),
    Literal(-4),
    Literal(-8),
    // cell 1 is less than cell 2
    Literal(-1),
    Literal(-3),
    Literal(-2),
    Literal(-3),
    Literal(-2),
    Literal(-4),
];

// Each clause has two literals.
static STARTS: [u32; 20] = [
    0, 2, 4, 6, 8, 10, 12, 14, 16, 18, 20, 22, 24, 26, 28, 30, 32, 34, 36, 38,
];

// The first cell holds 1.
static FIXED: [Literal; 1] = [Literal(1)];

// The board 1 2 over 2 1, and the board 2 1 over 1 2.
static CLAIMS: [[u8; 8]; 2] = [[1, 0, 0, 1, 0, 1, 1, 0], [0, 1, 1, 0, 1, 0, 0, 1]];

// A clause and its literals.
fn show_clause<S: Source>(rt: &HostRuntime, source: &S, k: ClauseId) -> anyhow::Result<()> {
    print!(rt; "clause {}:", k.0)?;
    for j in 1..=source.length(k) {
        print!(rt; " {}", source.literal(k, j).0)?;
    }
    println!(rt; "")?;
    Ok(())
}

fn show_claim(rt: &HostRuntime, claim: &[u8]) -> anyhow::Result<()> {
    print!(rt; "claim")?;
    for value in claim {
        print!(rt; " {value}")?;
    }
    println!(rt; "")?;
    Ok(())
}

// What blocking a claim adds to a source.
fn show_block<S: Source + Drop>(rt: &HostRuntime, source: S, claim: &[u8]) -> anyhow::Result<()> {
    let block = ClauseId(source.clauses() + 1);
    match Block::new(source, claim) {
        Ok(blocked) => {
            print!(rt; "blocked by ")?;
            show_clause(rt, &blocked, block)?;
        }
        Err(unmade) => println!(rt; "{}", unmade.fault)?,
    }
    Ok(())
}

// The rules, and the literal that is fixed over them.
fn rules() -> Result<Fix<ClauseTable<'static, 'static>>, Fault> {
    let table = ClauseTable {
        variables: 8,
        literals: &RULES,
        starts: &STARTS,
    };
    Fix::new(table, &FIXED).map_err(|unmade| unmade.fault)
}

// A source's numbers as it tells them, and whether it is lawful.
fn show_source<S: Source>(rt: &HostRuntime, source: &S) -> anyhow::Result<()> {
    println!(rt; "source {} {}", source.variables(), source.clauses())?;
    match check_lawful(source) {
        Ok(()) => println!(rt; "lawful")?,
        Err(fault) => println!(rt; "{fault}")?,
    }
    Ok(())
}

// One claim over a source, from its check to its block.
fn judge<S: Source + Drop>(rt: &HostRuntime, source: S, claim: &[u8]) -> anyhow::Result<()> {
    show_claim(rt, claim)?;
    match check_claim(&source, claim) {
        Ok(()) => {
            println!(rt; "every clause holds")?;
            show_block(rt, source, claim)?;
        }
        Err(fault) => println!(rt; "{fault}")?,
    }
    Ok(())
}

fn main(rt: HostRuntime) -> anyhow::Result<()> {
    match rules() {
        Ok(source) => show_source(&rt, &source)?,
        Err(fault) => println!(rt; "{fault}")?,
    }
    for claim in &CLAIMS {
        match rules() {
            Ok(source) => judge(&rt, source, claim)?,
            Err(fault) => println!(rt; "{fault}")?,
        }
    }
    Ok(())
}
