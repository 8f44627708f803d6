//! The rows of a bench's memory.
use Row::{Marked, Readable, Torn};
use bench::ROW;
use device::PAYLOAD;

// A sector's row: its payload is sixty times this byte, and then comes the mark, 0 if the row can be read. Settling tears rows with the
// mark 1, and any other one but 0 says the same.
#[derive(Clone, Copy)]
pub(crate) enum Row {
    Readable(u8),
    Torn(u8),
    Marked(u8, u8),
}

impl Row {
    pub(crate) fn bytes(self) -> [u8; ROW] {
        let (fill, mark) = match self {
            Readable(fill) => (fill, 0),
            Torn(fill) => (fill, 1),
            Marked(fill, mark) => (fill, mark),
        };
        let mut bytes = [fill; ROW];
        bytes[PAYLOAD] = mark;
        bytes
    }
}
