//! Settling a bench in every way, and what a bench is refused for.
use crate::cards::Row::{self, Marked, Readable, Torn};
use bench::{Bench, ROW, TEAR, WAITING};
use device::{BLANK, Device, Fault, MemoryError, PAYLOAD, PendingWrite};
use std::test::Fail;

// Three sectors before any write.
const OLD: [Row; 3] = [Readable(10), Readable(20), Readable(30)];

// Two writes to sector 0, one to sector 1 and none to sector 2: to this sector, sixty times this byte.
const WRITES: [(u32, u8); 3] = [(0, 11), (1, 21), (0, 12)];

// What each number then leaves in sector 0: 0 what is durable, 1 and 2 the writes, 9 it torn.
const FIRST: [(u8, Row); 11] = [
    (0, Readable(10)),
    (1, Readable(11)),
    (2, Readable(12)),
    (3, Readable(10)),
    (4, Readable(10)),
    (5, Readable(10)),
    (6, Readable(10)),
    (7, Readable(10)),
    (8, Readable(10)),
    (9, Torn(10)),
    (10, Readable(10)),
];

// What each number leaves in sector 1.
const SECOND: [(u8, Row); 11] = [
    (0, Readable(20)),
    (1, Readable(21)),
    (2, Readable(20)),
    (3, Readable(20)),
    (4, Readable(20)),
    (5, Readable(20)),
    (6, Readable(20)),
    (7, Readable(20)),
    (8, Readable(20)),
    (9, Torn(20)),
    (10, Readable(20)),
];

// More writes to sector 0 than may wait: the first becomes durable before the ninth.
const NINE: [(u32, u8); 9] = [
    (0, 1),
    (0, 2),
    (0, 3),
    (0, 4),
    (0, 5),
    (0, 6),
    (0, 7),
    (0, 8),
    (0, 9),
];

// Makes the writes on a bench of these three sectors, settles it, flushes it if told to, and tells whether its memory is then these rows.
// A closure in place of the flag would say nothing at three calls of four.
fn leaves(
    old: [Row; 3],
    writes: &[(u32, u8)],
    numbers: &[u8],
    flushed: bool,
    rows: [Row; 3],
) -> Result<bool, Fail> {
    let mut memory = old.map(Row::bytes);
    let mut slots = [BLANK; WAITING];
    let mut bench = Bench::new(memory.as_flattened_mut(), &mut slots)?;
    for (sector, fill) in writes {
        bench.write(*sector, &[*fill; PAYLOAD])?;
    }
    bench.settle(numbers);
    if flushed {
        bench.flush()?;
    }
    let (left, _) = bench.into_parts();
    Ok(*left == *rows.map(Row::bytes).as_flattened())
}

#[test]
fn every_choice_is_found(rt: HostRuntime) -> Result<(), Fail> {
    for (first, in_first) in FIRST {
        for (second, in_second) in SECOND {
            let rows = [in_first, in_second, OLD[2]];
            // no number tears the last sector, or finds a write there
            for numbers in [[first, second, first], [first, second, TEAR]] {
                assert!(rt; leaves(OLD, &WRITES, &numbers, false, rows)?);
                assert!(rt;
                    leaves(OLD, &WRITES, &numbers, true, rows)?,
                    "nothing waits any more"
                );
            }
        }
    }
    Ok(())
}

// The first and the last sector torn, with marks that settling does not make.
const MARKED: [Row; 3] = [Marked(10, 7), Readable(20), Marked(30, 255)];

// What numbers leave of these after the writes: without one, the mark too is the one that was there.
const OF_MARKED: [([u8; 3], [Row; 3]); 4] = [
    ([0, 0, 0], MARKED),
    ([1, 0, 9], [Readable(11), Readable(20), Marked(30, 255)]),
    ([9, 9, 1], [Torn(10), Torn(20), Marked(30, 255)]),
    ([3, 1, 5], [Marked(10, 7), Readable(21), Marked(30, 255)]),
];

#[test]
fn torn_rows_stay_as_they_are(rt: HostRuntime) -> Result<(), Fail> {
    for (numbers, rows) in OF_MARKED {
        assert!(rt; leaves(MARKED, &WRITES, &numbers, false, rows)?);
    }
    Ok(())
}

#[test]
fn any_mark_but_0_is_torn(rt: HostRuntime) -> Result<(), Fail> {
    for mark in 1..=255 {
        let mut memory = Marked(10, mark).bytes();
        let mut slots = [BLANK; WAITING];
        let mut bench = Bench::new(&mut memory, &mut slots)?;
        let mut bytes = [3; PAYLOAD];
        assert_eq!(rt; bench.read(0, &mut bytes), Err(Fault::Torn));
        assert_eq!(rt; bytes, [3; PAYLOAD]);
    }
    Ok(())
}

// Fewer and more numbers than sectors, and what they leave. A missing one counts as 0.
const COUNTS: [(&[u8], [Row; 3]); 5] = [
    (&[], [Readable(10), Readable(20), Readable(30)]),
    (&[2], [Readable(12), Readable(20), Readable(30)]),
    (&[9], [Torn(10), Readable(20), Readable(30)]),
    (&[0, 1], [Readable(10), Readable(21), Readable(30)]),
    (
        &[255, 1, 9, 9, 1],
        [Readable(10), Readable(21), Readable(30)],
    ),
];

#[test]
fn numbers_may_be_missing(rt: HostRuntime) -> Result<(), Fail> {
    for (numbers, rows) in COUNTS {
        assert!(rt; leaves(OLD, &WRITES, numbers, false, rows)?);
    }
    Ok(())
}

// What each number leaves in sector 0 after the first eight of the nine writes, and after all of them.
const OF_EIGHT: [(u8, Row); 4] = [
    (0, Readable(10)),
    (1, Readable(1)),
    (8, Readable(8)),
    (9, Torn(10)),
];

const OF_NINE: [(u8, Row); 4] = [
    (0, Readable(1)),
    (1, Readable(2)),
    (8, Readable(9)),
    (9, Torn(1)),
];

#[test]
fn a_ninth_write_makes_the_first_durable(rt: HostRuntime) -> Result<(), Fail> {
    for (writes, cases) in [(&NINE[..8], OF_EIGHT), (&NINE[..], OF_NINE)] {
        for (number, row) in cases {
            let rows = [row, OLD[1], OLD[2]];
            assert!(rt; leaves(OLD, writes, &[number], false, rows)?);
        }
    }
    Ok(())
}

// Why memory and places are refused, if they are.
fn refusal(rows: &mut [u8], slots: &mut [PendingWrite]) -> Option<MemoryError> {
    match Bench::new(rows, slots) {
        Ok(_) => None,
        Err(refused) => Some(refused.reason),
    }
}

#[test]
fn memory_is_whole_rows_and_places_are_eight(rt: HostRuntime) {
    let few = Some(MemoryError::FewPlaces);
    let part = Some(MemoryError::NotWholeRows);
    assert_eq!(rt; refusal(&mut [], &mut [BLANK; 8]), None);
    assert_eq!(rt; refusal(&mut [], &mut [BLANK; 7]), few);
    assert_eq!(rt; refusal(&mut [0; ROW - 1], &mut [BLANK; 8]), part);
    assert_eq!(rt; refusal(&mut [0; ROW], &mut [BLANK; 8]), None);
    assert_eq!(rt; refusal(&mut [0; ROW], &mut [BLANK; 7]), few);
    assert_eq!(rt; refusal(&mut [0; ROW], &mut [BLANK; 9]), None);
    assert_eq!(rt; refusal(&mut [0; ROW + 1], &mut [BLANK; 8]), part);
    assert_eq!(rt; refusal(&mut [0; ROW + 1], &mut [BLANK; 7]), part);
}
