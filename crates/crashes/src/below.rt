//! A cache over a switch over a bench: the power is cut in the middle of what the cache passes on.
use crate::calls::{Content, are_found, is_dead};
use crate::stacks::{NUMBERS, SCRIPT, SECTORS};
use bench::{Bench, ROW, WAITING};
use cache::Cache;
use device::{BLANK, Fault};
use std::test::Fail;
use switch::{LastWrite, Switch};

// By how many calls have reached the bench: the call of the script, counted from 0, within which the next one comes, and what the numbers
// 0 and 1 then leave in the sectors, sixty times each byte. They differ where a write waits. Call 9 sends sector 0 on; the first
// flush the eight others in the order in which they were written, of which the last makes sector 0 durable, and a flush; and the
// second one sectors 0 and 4 and a flush.
const BELOW: [(usize, [u8; SECTORS], [u8; SECTORS]); 14] = [
    (9, [0; SECTORS], [0; SECTORS]),
    (10, [0; SECTORS], [50, 0, 0, 0, 0, 0, 0, 0, 0]),
    (10, [0; SECTORS], [50, 2, 0, 0, 0, 0, 0, 0, 0]),
    (10, [0; SECTORS], [50, 2, 3, 0, 0, 0, 0, 0, 0]),
    (10, [0; SECTORS], [50, 2, 3, 4, 0, 0, 0, 0, 0]),
    (10, [0; SECTORS], [50, 2, 3, 4, 5, 0, 0, 0, 0]),
    (10, [0; SECTORS], [50, 2, 3, 4, 5, 6, 0, 0, 0]),
    (10, [0; SECTORS], [50, 2, 3, 4, 5, 6, 7, 0, 0]),
    (10, [0; SECTORS], [50, 2, 3, 4, 5, 6, 7, 8, 0]),
    (
        10,
        [50, 0, 0, 0, 0, 0, 0, 0, 0],
        [50, 2, 3, 4, 5, 6, 7, 8, 9],
    ),
    (
        14,
        [50, 2, 3, 4, 5, 6, 7, 8, 9],
        [50, 2, 3, 4, 5, 6, 7, 8, 9],
    ),
    (
        14,
        [50, 2, 3, 4, 5, 6, 7, 8, 9],
        [21, 2, 3, 4, 5, 6, 7, 8, 9],
    ),
    (
        14,
        [50, 2, 3, 4, 5, 6, 7, 8, 9],
        [21, 2, 3, 4, 25, 6, 7, 8, 9],
    ),
    (
        15,
        [21, 2, 3, 4, 25, 6, 7, 8, 9],
        [21, 2, 3, 4, 25, 6, 7, 8, 9],
    ),
];

// The calls below that are flushes, counted from 1: cut, they do not reach the bench.
const FLUSHES: [u32; 2] = [10, 13];

// What the number leaves in a sector, where at most one write waits.
fn left(durable: u8, first: u8, number: u8) -> Content {
    match number {
        1 => Ok(first),
        9 if durable != first => Err(Fault::Torn),
        _ => Ok(durable),
    }
}

// Runs the script on a cache over a switch that turns off within this call, and tells whether each call is answered as it must be, and the
// number then leaves on the bench what it must.
fn is_left(call: u32, last: LastWrite, number: u8) -> Result<bool, Fail> {
    let mut memory = [0; SECTORS * ROW];
    let mut slots = [BLANK; WAITING];
    let bench = Bench::new(&mut memory, &mut slots)?;
    let mut cache = Cache::new(Switch::new(bench, call, last));
    let before = call.saturating_sub(1) as usize;
    let Some(within) = BELOW.get(before).map(|row| row.0) else {
        return Ok(false);
    };
    for (at, step) in SCRIPT.iter().enumerate() {
        let wanted = if at < within { Ok(()) } else { Err(Fault::Off) };
        if step.on(&mut cache) != wanted {
            return Ok(false);
        }
    }
    if within < SCRIPT.len() && !is_dead(&mut cache) {
        return Ok(false);
    }
    let mut bench = cache.into_below().into_below();
    bench.settle(&[number; SECTORS]);
    let goes_on = last == LastWrite::Reached && within < SCRIPT.len() && !FLUSHES.contains(&call);
    let reached = if goes_on { before + 1 } else { before };
    let Some(row) = BELOW.get(reached) else {
        return Ok(false);
    };
    let contents: [Content; SECTORS] = std::array::from_fn(|at| left(row.1[at], row.2[at], number));
    Ok(are_found(&mut bench, &contents))
}

#[test]
fn what_was_passed_on_before_the_cut_is_below(rt: HostRuntime) -> Result<(), Fail> {
    for call in 1..15 {
        for number in NUMBERS {
            assert!(rt; is_left(call, LastWrite::Lost, number)?);
            assert!(rt; is_left(call, LastWrite::Reached, number)?);
        }
    }
    Ok(())
}
