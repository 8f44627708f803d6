//! The numbers that documents and programs' output give for faults and for memory that is refused.
use device::Fault;

#[test]
fn refusals_have_their_numbers(rt: HostRuntime) {
    for (fault, number) in [(Fault::Off, 1), (Fault::NoSector, 2), (Fault::Torn, 3)] {
        assert_eq!(rt; fault.number(), number);
    }
    assert_eq!(rt; media::MemoryError::NotWholeRows.number(), 18);
    assert_eq!(rt; device::MemoryError::NotWholeRows.number(), 18);
    assert_eq!(rt; device::MemoryError::FewPlaces.number(), 18);
}
