//! Caches and switches over a bench: what is found on the bench when the power is cut above it.
use crate::calls::Call::{self, Flush, Read, Write};
use crate::calls::{Content, are_found, gives, is_dead};
use bench::{Bench, ROW, WAITING};
use cache::Cache;
use device::{BLANK, Device, Fault};
use std::test::Fail;
use switch::{LastWrite, Switch};

pub(crate) const SECTORS: usize = 9;

// Nine sectors before any write.
const OLD: [Content; SECTORS] = [Ok(0); SECTORS];

// What the first flush of the script leaves.
const WRITTEN: [Content; SECTORS] = [
    Ok(50),
    Ok(2),
    Ok(3),
    Ok(4),
    Ok(5),
    Ok(6),
    Ok(7),
    Ok(8),
    Ok(9),
];

// What the second flush leaves.
const AGAIN: [Content; SECTORS] = [
    Ok(21),
    Ok(2),
    Ok(3),
    Ok(4),
    Ok(25),
    Ok(6),
    Ok(7),
    Ok(8),
    Ok(9),
];

// Eight sectors, the first of them once more, a ninth, a flush, and then two of the sectors again.
pub(crate) const SCRIPT: [Call; 15] = [
    Write(0, 1),
    Write(1, 2),
    Write(2, 3),
    Write(3, 4),
    Write(4, 5),
    Write(5, 6),
    Write(6, 7),
    Write(7, 8),
    Write(0, 50),
    Write(8, 9),
    Flush,
    Write(0, 21),
    Write(4, 25),
    Read(4),
    Flush,
];

// What the sectors are settled by: what is durable, the first and the second write that waits, and torn.
pub(crate) const NUMBERS: [u8; 4] = [0, 1, 2, 9];

// What the number leaves on a bench below a cache that so many calls of the script reached. The tenth, a ninth sector, sends sector 0
// on to the bench, where it waits; the next makes all last; and what is then written stays in the cache until the last.
fn left_below(calls: u32, number: u8) -> [Content; SECTORS] {
    match calls {
        0..=9 => OLD,
        10 => first_waits(number),
        11..=14 => WRITTEN,
        _ => AGAIN,
    }
}

// What the number leaves where the only write that waits is the one to sector 0.
fn first_waits(number: u8) -> [Content; SECTORS] {
    let mut contents = OLD;
    contents[0] = match number {
        1 => Ok(50),
        9 => Err(Fault::Torn),
        _ => Ok(0),
    };
    contents
}

// Makes the first calls of the script on a cache over the device, and gives the device back if all were accepted.
fn cached<D: Device + Drop>(below: D, calls: u32) -> Option<D> {
    let mut cache = Cache::new(below);
    for call in SCRIPT.iter().take(calls as usize) {
        call.on(&mut cache).ok()?;
    }
    Some(cache.into_below())
}

// Runs the script on a cache over the device, under a switch that turns off within the call after so many. Gives the device back if
// each call was answered as it must be, and a write that was cut is in the cache just if it was to reach it.
fn cut_after<D: Device + Drop>(below: D, calls: u32, last: LastWrite) -> Option<D> {
    let mut stack = Switch::new(Cache::new(below), calls.saturating_add(1), last);
    for (at, call) in SCRIPT.iter().enumerate() {
        let wanted = if at < calls as usize {
            Ok(())
        } else {
            Err(Fault::Off)
        };
        if call.on(&mut stack) != wanted {
            return None;
        }
    }
    if !is_dead(&mut stack) || stack.is_switched_on() {
        return None;
    }
    let mut cache = stack.into_below();
    if let Some(Write(sector, fill)) = SCRIPT.get(calls as usize) {
        if gives(&mut cache, *sector, Ok(*fill)) != (last == LastWrite::Reached) {
            return None;
        }
    }
    Some(cache.into_below())
}

// How many calls reach the cache, with the one that is cut.
fn reached(calls: u32, cut: Option<LastWrite>) -> u32 {
    match (SCRIPT.get(calls as usize), cut) {
        (Some(Write(_, _)), Some(LastWrite::Reached)) => calls.saturating_add(1),
        _ => calls,
    }
}

// Runs the first calls of the script over a bench, on a cache alone or under a switch that then cuts the next one. Tells whether they were
// answered as they must be, and the number then leaves what it must. Which of the two is data of the tests, so it is matched here.
fn is_left(calls: u32, cut: Option<LastWrite>, number: u8) -> Result<bool, Fail> {
    let mut memory = [0; SECTORS * ROW];
    let mut slots = [BLANK; WAITING];
    let bench = Bench::new(&mut memory, &mut slots)?;
    let answered = match cut {
        None => cached(bench, calls),
        Some(last) => cut_after(bench, calls, last),
    };
    let Some(mut bench) = answered else {
        return Ok(false);
    };
    bench.settle(&[number; SECTORS]);
    Ok(are_found(&mut bench, &left_below(reached(calls, cut), number)))
}

#[test]
fn caches_pass_on_what_they_must(rt: HostRuntime) -> Result<(), Fail> {
    for calls in 0..16 {
        for number in NUMBERS {
            assert!(rt; is_left(calls, None, number)?);
        }
    }
    Ok(())
}

#[test]
fn every_cut_leaves_what_it_may(rt: HostRuntime) -> Result<(), Fail> {
    for calls in 0..15 {
        for number in NUMBERS {
            assert!(rt; is_left(calls, Some(LastWrite::Lost), number)?);
            assert!(rt; is_left(calls, Some(LastWrite::Reached), number)?);
        }
    }
    Ok(())
}

// The switch turns off within its first call, which comes with the cache's flush.
#[test]
fn a_cache_is_off_with_the_device_below(rt: HostRuntime) -> Result<(), Fail> {
    let mut memory = [0; SECTORS * ROW];
    let mut slots = [BLANK; WAITING];
    let bench = Bench::new(&mut memory, &mut slots)?;
    let mut cache = Cache::new(Switch::new(bench, 1, LastWrite::Lost));
    assert_eq!(rt; Write(9, 1).on(&mut cache), Err(Fault::NoSector));
    assert_eq!(rt; Write(0, 1).on(&mut cache), Ok(()));
    assert!(rt; gives(&mut cache, 0, Ok(1)));
    assert_eq!(rt; Flush.on(&mut cache), Err(Fault::Off));
    assert!(rt; is_dead(&mut cache), "though it holds a write");
    Ok(())
}
