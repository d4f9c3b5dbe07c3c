use crate::asked::asked;
use cnf::{ClauseTable, Fault, Literal, Source};
use layers::{Block, Fix, Join};
use std::test::Fail;

static TWO: [Literal; 2] = [Literal(7), Literal(-8)];

// Clauses cut out of two literals.
fn listed(variables: u32, starts: &[u32]) -> ClauseTable<'static, '_> {
    ClauseTable {
        variables,
        literals: &TWO,
        starts,
    }
}

#[test]
fn a_join_of_two_full_sources(rt: HostRuntime) -> Result<(), Fail> {
    // 65,535 clauses each: the second's clause 1 is told, its clause 2 lies past the last that is
    let empty = vec![in rt.alloc(); 0u32; 65536]?;
    let mut full = vec![in rt.alloc(); 2u32; 65536]?;
    if full.len() > 1 {
        full[0] = 0;
        full[1] = 1;
    }
    asked(
        &rt,
        &Join::new(listed(3, empty.as_slice()), listed(8, full.as_slice())),
        (8, 65537),
        &[(65535, 0), (65536, 1), (65537, 0)],
        &[(65536, 1, 7), (65537, 1, 0)],
    )?;
    asked(
        &rt,
        &listed(8, full.as_slice()),
        (8, 65535),
        &[(2, 1)],
        &[(2, 1, -8)],
    )
}

#[test]
fn a_join_lists_the_first_then_the_second(rt: HostRuntime) -> Result<(), Fail> {
    asked(
        &rt,
        &Join::new(listed(2000, &[0, 1]), listed(5, &[0, 2, 0, 1])),
        (1025, 4),
        &[(0, 0), (1, 1), (2, 2), (3, 0), (4, 1), (5, 0)],
        &[(1, 1, 7), (2, 2, -8), (4, 1, 7), (4, 2, 0)],
    )
}

#[test]
fn fixed_literals_keep_their_order(rt: HostRuntime) -> Result<(), Fail> {
    let fixed = Fix::new(listed(8, &[0, 2]), &[Literal(5), Literal(-1), Literal(0)])
        .ok()
        .ok_or("three literals were refused")?;
    asked(
        &rt,
        &fixed,
        (8, 4),
        &[(1, 2), (2, 1), (3, 1), (4, 1), (5, 0)],
        &[
            (1, 2, -8),
            (2, 1, 5),
            (3, 1, -1),
            (3, 0, 0),
            (3, 2, 0),
            (4, 1, 0),
        ],
    )?;
    assert_eq!(rt; fixed.into_below().clauses(), 1);
    Ok(())
}

#[test]
fn up_to_128_literals_are_fixed(rt: HostRuntime) -> Result<(), Fail> {
    let many = [Literal(3); 129];
    let fixed = Fix::new(listed(8, &[0, 2]), &many[0..128])
        .ok()
        .ok_or("128 literals were refused")?;
    asked(&rt, &fixed, (8, 129), &[(129, 1), (130, 0)], &[(129, 1, 3)])?;
    let unmade = Fix::new(listed(8, &[0, 2]), &many)
        .err()
        .ok_or("129 literals were fixed")?;
    assert_eq!(rt; (unmade.fault, unmade.below.clauses()), (Fault::FixFull, 1));
    Ok(())
}

// What blocking the first bytes of a list over n variables is refused with.
static FORMS: [(u32, usize, Option<Fault>); 7] = [
    (3, 3, None),
    (3, 2, Some(Fault::ClaimForm(0))),
    (4, 4, Some(Fault::ClaimForm(4))),
    (5, 4, Some(Fault::ClaimForm(0))),
    (0, 0, None),
    (1025, 1025, Some(Fault::ClaimForm(0))),
    (1030, 1025, Some(Fault::ClaimForm(0))),
];

#[test]
fn a_block_asks_for_the_claims_form(rt: HostRuntime) -> Result<(), Fail> {
    let mut claim = [0u8; 1025];
    claim[3] = 2;
    for (n, size, fault) in &FORMS {
        if *size > 1025 {
            return Err(Fail::new("a claim is too long"));
        }
        match Block::new(listed(*n, &[0, 2]), &claim[0..*size]) {
            Ok(_) => assert_eq!(rt; None, *fault),
            Err(unmade) => assert_eq!(rt; Some(unmade.fault), *fault),
        }
    }
    Ok(())
}

#[test]
fn a_block_denies_every_value(rt: HostRuntime) -> Result<(), Fail> {
    let blocked = Block::new(listed(3, &[0, 2]), &[1, 0, 1])
        .ok()
        .ok_or("a claim in form was refused")?;
    asked(
        &rt,
        &blocked,
        (3, 2),
        &[(1, 2), (2, 3), (3, 0)],
        &[
            (1, 1, 7),
            (2, 1, -1),
            (2, 2, 2),
            (2, 3, -3),
            (2, 4, 0),
            (2, 0, 0),
        ],
    )?;
    assert_eq!(rt; blocked.into_below().clauses(), 1);
    Ok(())
}

#[test]
fn the_largest_block(rt: HostRuntime) -> Result<(), Fail> {
    let blocked = Block::new(listed(1024, &[0, 2]), &[1; 1024])
        .ok()
        .ok_or("a claim in form was refused")?;
    asked(
        &rt,
        &blocked,
        (1024, 2),
        &[(2, 1024)],
        &[(2, 1, -1), (2, 1024, -1024), (2, 1025, 0)],
    )
}
