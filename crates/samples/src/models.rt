use cnf::{ClauseTable, Literal, Source, check_claim};
use layers::{Block, Fix, Join};
use std::test::Fail;

// Clauses over four variables, three literals each.
static RULES: [Literal; 12] = [
    Literal(1),
    Literal(-2),
    Literal(3),
    Literal(-1),
    Literal(2),
    Literal(4),
    Literal(-3),
    Literal(-4),
    Literal(2),
    Literal(1),
    Literal(-3),
    Literal(4),
];

fn rules() -> ClauseTable<'static, 'static> {
    ClauseTable {
        variables: 4,
        literals: &RULES,
        starts: &[0, 3, 6, 9, 12],
    }
}

// The bytes of assignment x, variable v in bit v - 1.
fn bytes(x: u8) -> [u8; 4] {
    [x & 1, x >> 1 & 1, x >> 2 & 1, x >> 3 & 1]
}

// Whether x keeps the rules, evaluated as they stand.
fn keeps(x: u8) -> bool {
    let [a, b, c, d] = bytes(x);
    let (a, b, c, d) = (a == 1, b == 1, c == 1, d == 1);
    (a || !b || c) && (!a || b || d) && (!c || !d || b) && (a || !c || d)
}

fn is_model<S: Source>(source: &S, x: u8) -> bool {
    check_claim(source, &bytes(x)).is_ok()
}

#[test]
fn the_models_are_those_that_keep_the_rules(rt: HostRuntime) {
    for x in 0..16u8 {
        assert_eq!(rt; is_model(&rules(), x), keeps(x));
    }
}

#[test]
fn fixing_keeps_the_models_that_make_the_literals_true(rt: HostRuntime) -> Result<(), Fail> {
    let fixed = Fix::new(rules(), &[Literal(-2), Literal(4)])
        .ok()
        .ok_or("two literals were refused")?;
    for x in 0..16u8 {
        assert_eq!(rt; is_model(&fixed, x), keeps(x) && x & 2 == 0 && x & 8 == 8);
    }
    Ok(())
}

#[test]
fn blocking_takes_one_model_away(rt: HostRuntime) -> Result<(), Fail> {
    for gone in 0..16u8 {
        let blocked = Block::new(rules(), &bytes(gone))
            .ok()
            .ok_or("a claim in form was refused")?;
        for x in 0..16u8 {
            assert_eq!(rt; is_model(&blocked, x), keeps(x) && x != gone);
        }
    }
    Ok(())
}

#[test]
fn a_join_has_the_models_of_both(rt: HostRuntime) {
    // over two variables: 1 or 2, and not both
    let second = ClauseTable {
        variables: 2,
        literals: &[Literal(1), Literal(2), Literal(-1), Literal(-2)],
        starts: &[0, 2, 4],
    };
    let join = Join::new(second, rules());
    for x in 0..16u8 {
        assert_eq!(rt; is_model(&join, x), keeps(x) && (x & 3 == 1 || x & 3 == 2));
    }
}
