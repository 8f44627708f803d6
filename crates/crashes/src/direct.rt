//! A switch straight over a bench, cut within every call of a script.
use crate::calls::Call::{self, Flush, Read, Write};
use crate::calls::{Content, are_found, is_dead};
use crate::stacks::NUMBERS;
use bench::{Bench, ROW, WAITING};
use device::{BLANK, Device, Fault};
use std::test::Fail;
use switch::{LastWrite, Switch};

// A sector twice and another, a flush, and the other again.
const SCRIPT: [Call; 6] = [
    Write(0, 1),
    Write(1, 2),
    Write(0, 3),
    Flush,
    Write(1, 4),
    Read(1),
];

const TORN: Content = Err(Fault::Torn);

// What the numbers 0, 1, 2 and 9 leave in the two sectors, by how many calls have reached the bench.
const LEFT: [[[Content; 2]; 4]; 7] = [
    [
        [Ok(0), Ok(0)],
        [Ok(0), Ok(0)],
        [Ok(0), Ok(0)],
        [Ok(0), Ok(0)],
    ],
    [
        [Ok(0), Ok(0)],
        [Ok(1), Ok(0)],
        [Ok(0), Ok(0)],
        [TORN, Ok(0)],
    ],
    [[Ok(0), Ok(0)], [Ok(1), Ok(2)], [Ok(0), Ok(0)], [TORN, TORN]],
    [[Ok(0), Ok(0)], [Ok(1), Ok(2)], [Ok(3), Ok(0)], [TORN, TORN]],
    [
        [Ok(3), Ok(2)],
        [Ok(3), Ok(2)],
        [Ok(3), Ok(2)],
        [Ok(3), Ok(2)],
    ],
    [
        [Ok(3), Ok(2)],
        [Ok(3), Ok(4)],
        [Ok(3), Ok(2)],
        [Ok(3), TORN],
    ],
    [
        [Ok(3), Ok(2)],
        [Ok(3), Ok(4)],
        [Ok(3), Ok(2)],
        [Ok(3), TORN],
    ],
];

// Runs the script under a switch that turns off within the call after so many, and tells whether each is answered as it must be, and the
// number then leaves this on the bench.
fn is_left(calls: u32, last: LastWrite, number: u8, wanted: &[Content]) -> Result<bool, Fail> {
    let mut memory = [0; 2 * ROW];
    let mut slots = [BLANK; WAITING];
    let bench = Bench::new(&mut memory, &mut slots)?;
    let mut switch = Switch::new(bench, calls.saturating_add(1), last);
    for (at, call) in SCRIPT.iter().enumerate() {
        let answer = if at < calls as usize {
            Ok(())
        } else {
            Err(Fault::Off)
        };
        if call.on(&mut switch) != answer {
            return Ok(false);
        }
    }
    if switch.is_on() != (calls as usize == SCRIPT.len())
        || (!switch.is_on() && !is_dead(&mut switch))
    {
        return Ok(false);
    }
    let mut bench = switch.into_below();
    bench.settle(&[number; 2]);
    Ok(are_found(&mut bench, wanted))
}

#[test]
fn a_switch_passes_on_what_comes_before_the_cut(rt: HostRuntime) -> Result<(), Fail> {
    for calls in 0..7 {
        let at = calls as usize;
        let goes_on = matches!(SCRIPT.get(at), Some(Write(_, _)));
        let reached = if goes_on { at + 1 } else { at };
        for (number, wanted) in NUMBERS.iter().zip(&LEFT[at]) {
            assert!(rt; is_left(calls, LastWrite::Lost, *number, wanted)?);
        }
        for (number, wanted) in NUMBERS.iter().zip(&LEFT[reached]) {
            assert!(rt; is_left(calls, LastWrite::Reached, *number, wanted)?);
        }
    }
    Ok(())
}
