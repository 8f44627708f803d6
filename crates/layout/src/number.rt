//! Numbers in the bytes of a sector.
ghost use Rattle.std.specs.Prelude.{◌≡◌, ◌+◌, ◌≤◌};
ghost use Rattle.layout.specs.Numbers.{two_at, four_at};

use crate::PAYLOAD;

// Byte 0 of a sector, which says of what kind it is.
pub(crate) const PAGE_RECORD: u8 = 1;

pub(crate) const COMMIT_RECORD: u8 = 2;

pub(crate) const HOME: u8 = 3;

pub(crate) const HEADER: u8 = 4;

// The number in the two bytes from a place on.
#[tactic(auto, unfolding(crate::specs::Numbers::two_at))]
pub(crate) fn two_at(bytes: &[u8; PAYLOAD], place: usize) -> u16
    requires { place + 2 ≤ PAYLOAD }
    ensures { result ≡ two_at bytes.now place }
{
    u16::from_le_bytes([bytes[place], bytes[place + 1]])
}

// The number in the four bytes from a place on.
#[tactic(auto, unfolding(crate::specs::Numbers::four_at))]
pub(crate) fn four_at(bytes: &[u8; PAYLOAD], place: usize) -> u32
    requires { place + 4 ≤ PAYLOAD }
    ensures { result ≡ four_at bytes.now place }
{
    u32::from_le_bytes([
        bytes[place],
        bytes[place + 1],
        bytes[place + 2],
        bytes[place + 3],
    ])
}
