use cnf::Fault;

// Faults, each with its number and its places.
static FAULTS: [(Fault, u32, (u32, u32)); 17] = [
    (Fault::WordForm(9), 1, (9, 0)),
    (Fault::BoardWord(1), 2, (1, 0)),
    (Fault::OutOfRange(2), 3, (2, 0)),
    (Fault::KeyPresent(3), 4, (3, 0)),
    (Fault::NoSideShared(4), 5, (4, 0)),
    (Fault::EndWord(5), 6, (5, 0)),
    (Fault::ClaimMissing(6), 7, (6, 0)),
    (Fault::TableFull(7), 21, (7, 0)),
    (Fault::FixFull, 22, (129, 0)),
    (Fault::Unlawful(7), 31, (7, 0)),
    (Fault::ClaimForm(3), 32, (3, 0)),
    (Fault::ClaimFalse(65535), 33, (65535, 0)),
    (Fault::TooManyBytes, 53, (0, 0)),
    (Fault::IdHeld, 61, (0, 0)),
    (Fault::TooLong, 62, (0, 0)),
    (Fault::NoRoom, 63, (0, 0)),
    (Fault::NotHeld, 64, (0, 0)),
];

#[test]
fn every_fault_by_number_and_places(rt: HostRuntime) {
    for (fault, number, places) in &FAULTS {
        assert_eq!(rt; (fault.number(), fault.places()), (*number, *places));
    }
}
