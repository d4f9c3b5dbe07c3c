use crate::asked::asked;
use cnf::{ClauseTable, Fault, Literal, check_claim, check_lawful};
use std::test::Fail;

static FOUR: [Literal; 4] = [Literal(1), Literal(-2), Literal(3), Literal(-4)];

fn table<'l, 's>(
    variables: u32,
    literals: &'l [Literal],
    starts: &'s [u32],
) -> ClauseTable<'l, 's> {
    ClauseTable {
        variables,
        literals,
        starts,
    }
}

#[test]
fn a_table_without_starts_lists_nothing(rt: HostRuntime) -> Result<(), Fail> {
    asked(
        &rt,
        &table(4, &FOUR, &[]),
        (4, 0),
        &[(0, 0), (1, 0)],
        &[(0, 1, 0), (1, 1, 0)],
    )?;
    asked(
        &rt,
        &table(4, &FOUR, &[0]),
        (4, 0),
        &[(0, 0), (1, 0)],
        &[(1, 1, 0)],
    )
}

#[test]
fn clauses_run_up_to_the_next_start(rt: HostRuntime) -> Result<(), Fail> {
    // clause 1 has two literals, 2 falls, 3 has three, 4 leaves the literals, 5 is empty outside them, 6 falls
    asked(
        &rt,
        &table(1025, &FOUR, &[0, 2, 1, 4, 5, 5, 3]),
        (1025, 6),
        &[
            (0, 0),
            (1, 2),
            (2, 0),
            (3, 3),
            (4, 0),
            (5, 0),
            (6, 0),
            (7, 0),
        ],
        &[
            (1, 0, 0),
            (1, 1, 1),
            (1, 2, -2),
            (1, 3, 0),
            (3, 1, -2),
            (3, 3, -4),
            (3, 4, 0),
            (0, 1, 0),
        ],
    )
}

#[test]
fn a_long_clause_is_told_up_to_its_cap(rt: HostRuntime) -> Result<(), Fail> {
    let long = vec![in rt.alloc(); Literal(5); 1030]?;
    asked(
        &rt,
        &table(4294967295, long.as_slice(), &[0, 1024, 2, 1030, 1027]),
        (1025, 4),
        &[(1, 1024), (2, 0), (3, 1025), (4, 0)],
        &[(1, 1024, 5), (1, 1025, 0), (3, 1024, 5), (3, 1025, 0)],
    )
}

#[test]
fn a_long_listing_is_told_up_to_its_cap(rt: HostRuntime) -> Result<(), Fail> {
    // clauses 65,536 and 65,537 both have literals; only the first of them is told
    let mut starts = vec![in rt.alloc(); 0u32; 65536]?;
    starts.push(2)?;
    starts.push(4)?;
    asked(
        &rt,
        &table(1024, &FOUR, starts.as_slice()),
        (1024, 65537),
        &[(65535, 0), (65536, 2), (65537, 0), (65538, 0)],
        &[(65536, 2, -2), (65537, 1, 0)],
    )
}

// Six literals; the number of variables, four starts, and the first bad clause.
static LITERALS: [Literal; 6] = [
    Literal(1),
    Literal(-2),
    Literal(-1),
    Literal(2),
    Literal(2),
    Literal(-2),
];

static LAWS: [(u32, [u32; 4], Option<Fault>); 8] = [
    (2, [0, 2, 4, 4], None),
    (2, [0, 2, 4, 6], Some(Fault::Unlawful(3))),
    (2, [0, 3, 5, 6], Some(Fault::Unlawful(1))),
    (1, [0, 1, 2, 3], Some(Fault::Unlawful(2))),
    (1, [0, 1, 1, 0], None),
    (0, [0, 0, 0, 0], Some(Fault::Unlawful(0))),
    (1024, [0, 2, 4, 5], None),
    (1025, [0, 2, 4, 5], Some(Fault::Unlawful(0))),
];

#[test]
fn lawful_or_the_first_bad_clause(rt: HostRuntime) {
    for (variables, starts, fault) in &LAWS {
        assert_eq!(rt;
            check_lawful(&table(*variables, &LITERALS, starts)).err(),
            *fault
        );
    }
}

#[test]
fn literals_of_no_variable_are_not_lawful(rt: HostRuntime) {
    assert_eq!(rt;
        check_lawful(&table(9, &[Literal(0)], &[0, 0, 1])),
        Err(Fault::Unlawful(2))
    );
    assert_eq!(rt;
        check_lawful(&table(9, &[Literal(i32::MIN)], &[0, 1])),
        Err(Fault::Unlawful(1))
    );
}

#[test]
fn as_many_clauses_as_are_lawful(rt: HostRuntime) -> Result<(), Fail> {
    let most = vec![in rt.alloc(); 0u32; 65536]?;
    assert_eq!(rt; check_lawful(&table(1, &FOUR, most.as_slice())), Ok(()));
    let more = vec![in rt.alloc(); 0u32; 65537]?;
    assert_eq!(rt;
        check_lawful(&table(1, &FOUR, more.as_slice())),
        Err(Fault::Unlawful(0))
    );
    Ok(())
}

// 1 or 2, and 3 where 1; the number of variables, the third start, the claim's bytes, and the fault.
static RULES: [Literal; 4] = [Literal(1), Literal(2), Literal(-1), Literal(3)];

static CLAIMS: [(u32, u32, [u8; 3], Option<Fault>); 8] = [
    (3, 4, [1, 0, 1], None),
    (3, 4, [0, 1, 0], None),
    (2, 4, [7, 7, 7], Some(Fault::Unlawful(2))),
    (4, 4, [0, 2, 0], Some(Fault::ClaimForm(0))),
    (3, 4, [0, 2, 255], Some(Fault::ClaimForm(2))),
    (3, 4, [0, 0, 0], Some(Fault::ClaimFalse(1))),
    (3, 4, [1, 1, 0], Some(Fault::ClaimFalse(2))),
    (3, 2, [1, 0, 1], Some(Fault::ClaimFalse(2))),
];

#[test]
fn a_claim_is_checked_in_order(rt: HostRuntime) {
    for (variables, end, claim, fault) in &CLAIMS {
        let starts = [0, 2, *end];
        assert_eq!(rt;
            check_claim(&table(*variables, &RULES, &starts), claim).err(),
            *fault
        );
    }
}
