//! Calls on a device, as values, and what is found on it.
use Call::{Flush, Read, Write};
use device::{Device, Fault, PAYLOAD};

// What a read of a sector gives: sixty times this byte, or why there are none.
pub(crate) type Content = Result<u8, Fault>;

// What the caller's bytes are before each read.
const LEFT: u8 = 0xee;

// A call, as a value: the script is cut within each, and what a cut leaves depends on which it was.
#[derive(Clone, Copy)]
pub(crate) enum Call {
    Read(u32),
    // to this sector, sixty times this byte
    Write(u32, u8),
    Flush,
}

impl Call {
    pub(crate) fn on<D: Device>(self, device: &mut D) -> Result<(), Fault> {
        match self {
            Read(sector) => device.read(sector, &mut [0; PAYLOAD]),
            Write(sector, fill) => device.write(sector, &[fill; PAYLOAD]),
            Flush => device.flush(),
        }
    }
}

// Whether a read of the sector gives this. A read that is refused leaves the caller's bytes.
pub(crate) fn gives<D: Device>(device: &mut D, sector: u32, content: Content) -> bool {
    let mut bytes = [LEFT; PAYLOAD];
    device.read(sector, &mut bytes).err() == content.err()
        && bytes == [content.unwrap_or(LEFT); PAYLOAD]
}

// Whether the sectors are found so.
pub(crate) fn are_found<D: Device>(device: &mut D, contents: &[Content]) -> bool {
    (0..)
        .zip(contents)
        .all(|(sector, content)| gives(device, sector, *content))
}

// Whether every call is refused since the device is off, also for a sector that is not there.
pub(crate) fn is_dead<D: Device>(device: &mut D) -> bool {
    gives(device, 0, Err(Fault::Off))
        && gives(device, 9, Err(Fault::Off))
        && Write(0, 1).on(device) == Err(Fault::Off)
        && Write(9, 1).on(device) == Err(Fault::Off)
        && Flush.on(device) == Err(Fault::Off)
        && !device.is_on()
}
