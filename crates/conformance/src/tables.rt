//! One table of calls and what they have to answer, run over every device.
use Step::{Flush, Read, Write};
use bench::{Bench, WAITING};
use cache::Cache;
use device::Fault::{self, NoSector, Torn};
use device::{BLANK, Device, PAYLOAD};
use media::RowImage;
use std::test::Fail;
use switch::{LastWrite, Switch};

// A call and its answer, as a value: one table of them is run over devices of many types. The tests of power cuts have calls without
// answers; a crate of tests exports nothing, so neither has the other's.
#[derive(Clone, Copy)]
enum Step {
    // of this sector, which gives sixty times the byte
    Read(u32, Result<u8, Fault>),
    // to this sector, sixty times this byte
    Write(u32, u8, Result<(), Fault>),
    // which is accepted
    Flush,
}

// What the caller's bytes are before each read: a read that is refused leaves them so.
const LEFT: u8 = 0xee;

// For a device of twelve sectors, each torn, with nothing waiting. After the flush 8 is the ninth sector that is written and 9 the
// tenth; then 3, the first of them, is written again.
const STEPS: [Step; 66] = [
    Read(0, Err(Torn)),
    Read(11, Err(Torn)),
    Read(12, Err(NoSector)),
    Read(u32::MAX, Err(NoSector)),
    Write(12, 1, Err(NoSector)),
    Write(u32::MAX, 1, Err(NoSector)),
    Flush,
    Read(3, Err(Torn)),
    Write(3, 10, Ok(())),
    Read(3, Ok(10)),
    Write(3, 11, Ok(())),
    Read(3, Ok(11)),
    Write(4, 12, Ok(())),
    Write(3, 13, Ok(())),
    Read(3, Ok(13)),
    Read(4, Ok(12)),
    Read(5, Err(Torn)),
    Write(0, 20, Ok(())),
    Write(1, 21, Ok(())),
    Write(2, 22, Ok(())),
    Write(5, 25, Ok(())),
    Write(6, 26, Ok(())),
    Write(7, 27, Ok(())),
    Write(8, 28, Ok(())),
    Read(3, Ok(13)),
    Write(9, 29, Ok(())),
    Write(3, 33, Ok(())),
    Write(7, 37, Ok(())),
    Write(12, 1, Err(NoSector)),
    Write(10, 30, Ok(())),
    Read(0, Ok(20)),
    Read(1, Ok(21)),
    Read(2, Ok(22)),
    Read(3, Ok(33)),
    Read(4, Ok(12)),
    Read(5, Ok(25)),
    Read(6, Ok(26)),
    Read(7, Ok(37)),
    Read(8, Ok(28)),
    Read(9, Ok(29)),
    Read(10, Ok(30)),
    Read(11, Err(Torn)),
    Read(12, Err(NoSector)),
    Flush,
    Read(0, Ok(20)),
    Read(1, Ok(21)),
    Read(2, Ok(22)),
    Read(3, Ok(33)),
    Read(4, Ok(12)),
    Read(5, Ok(25)),
    Read(6, Ok(26)),
    Read(7, Ok(37)),
    Read(8, Ok(28)),
    Read(9, Ok(29)),
    Read(10, Ok(30)),
    Read(11, Err(Torn)),
    Write(11, 41, Ok(())),
    Write(0, 40, Ok(())),
    Write(12, 1, Err(NoSector)),
    Read(11, Ok(41)),
    Flush,
    Flush,
    Read(0, Ok(40)),
    Read(1, Ok(21)),
    Read(11, Ok(41)),
    Read(12, Err(NoSector)),
];

impl Step {
    // Whether the device answers the call so.
    fn is_met<D: Device>(self, device: &mut D) -> bool {
        match self {
            Read(sector, wanted) => {
                let mut bytes = [LEFT; PAYLOAD];
                device.read(sector, &mut bytes).err() == wanted.err()
                    && bytes == [wanted.unwrap_or(LEFT); PAYLOAD]
            }
            Write(sector, fill, wanted) => device.write(sector, &[fill; PAYLOAD]) == wanted,
            Flush => device.flush() == Ok(()),
        }
    }
}

// The index of the first step that is answered otherwise. No switch that is made here turns off.
fn first_wrong<D: Device + Drop>(mut device: D) -> Option<usize> {
    STEPS.iter().position(|step| !step.is_met(&mut device))
}

// The bytes of a row image of twelve sectors, torn while they are zero.
const IMAGE: usize = 12 * media::ROW;

// The bytes of a bench of twelve sectors, torn while they are 1.
const BENCH: usize = 12 * bench::ROW;

#[test]
fn row_images_meet_the_table(rt: HostRuntime) -> Result<(), Fail> {
    let mut memory = [0; IMAGE];
    let image = RowImage::new(&mut memory)?;
    assert!(rt; image.is_on() && image.count() == 12);
    let wrong = [
        first_wrong(image),
        first_wrong(Cache::new(RowImage::new(&mut [0; IMAGE])?)),
        first_wrong(Switch::new(RowImage::new(&mut [0; IMAGE])?, 0, LastWrite::Lost)),
        first_wrong(Switch::new(
            Cache::new(RowImage::new(&mut [0; IMAGE])?),
            0,
            LastWrite::Reached,
        )),
    ];
    assert_eq!(rt; wrong, [None; 4]);
    Ok(())
}

#[test]
fn benches_meet_the_table(rt: HostRuntime) -> Result<(), Fail> {
    let mut memory = [1; BENCH];
    let mut slots = [BLANK; WAITING];
    let bench = Bench::new(&mut memory, &mut slots)?;
    assert!(rt; bench.is_on() && bench.count() == 12);
    let wrong = [
        first_wrong(bench),
        first_wrong(Cache::new(Bench::new(&mut [1; BENCH], &mut [BLANK; WAITING])?)),
        first_wrong(Switch::new(
            Bench::new(&mut [1; BENCH], &mut [BLANK; WAITING])?,
            0,
            LastWrite::Lost,
        )),
        first_wrong(Switch::new(
            Cache::new(Bench::new(&mut [1; BENCH], &mut [BLANK; WAITING])?),
            0,
            LastWrite::Reached,
        )),
    ];
    assert_eq!(rt; wrong, [None; 4]);
    Ok(())
}
