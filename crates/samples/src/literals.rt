use cnf::{Fault, Literal};

// number, denies, size, names a variable from 1 to 1,024, negated
static CASES: [(i32, bool, u32, bool, Option<Literal>); 9] = [
    (1, false, 1, true, Some(Literal(-1))),
    (-1, true, 1, true, Some(Literal(1))),
    (1024, false, 1024, true, Some(Literal(-1024))),
    (-1024, true, 1024, true, Some(Literal(1024))),
    (1025, false, 1025, false, Some(Literal(-1025))),
    (-1025, true, 1025, false, Some(Literal(1025))),
    (0, false, 0, false, Some(Literal(0))),
    (
        i32::MAX,
        false,
        2147483647,
        false,
        Some(Literal(-2147483647)),
    ),
    (i32::MIN, true, 2147483648, false, None),
];

#[test]
fn literals_at_the_ends(rt: HostRuntime) {
    for (number, denies, size, names, negated) in &CASES {
        let l = Literal(*number);
        assert_eq!(rt; l.denies(), *denies);
        assert_eq!(rt; l.size(), *size);
        assert_eq!(rt; l.names(1024), *names);
        assert_eq!(rt; l.negated(), *negated);
    }
}

#[test]
fn faults_by_number_and_places(rt: HostRuntime) {
    assert_eq!(rt; Fault::FixFull.number(), 22);
    assert_eq!(rt; Fault::FixFull.places(), (129, 0));
    assert_eq!(rt; Fault::Unlawful(7).number(), 31);
    assert_eq!(rt; Fault::Unlawful(7).places(), (7, 0));
    assert_eq!(rt; Fault::ClaimForm(0).number(), 32);
    assert_eq!(rt; Fault::ClaimForm(3).places(), (3, 0));
    assert_eq!(rt; Fault::ClaimFalse(65535).number(), 33);
    assert_eq!(rt; Fault::ClaimFalse(65535).places(), (65535, 0));
}
