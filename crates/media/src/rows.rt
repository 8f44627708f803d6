//! Rows of a row image: a sector's payload, then the checksum of the payload and the sector's number.
ghost use Rattle.std.specs.Prelude.{◌≡◌, ◌++◌, length, MatchResult};
ghost use Rattle.crc32c.specs.Crc.{crc};
ghost use Rattle.device.specs.Sector.{payload, torn};
ghost use Rattle.media.specs.Rows.{word_bytes, row_for, row_holds};

use crc32c::Crc32c;
use device::{Fault, PAYLOAD};

/// The bytes of memory that a sector takes.
pub const ROW: usize = 64;

// What stands behind a payload in its sector's row: the checksum, low byte first.
fn seal(sector: u32, bytes: &[u8]) -> [u8; 4]
    ensures { result ≡ word_bytes (crc (bytes.now ++ word_bytes sector)) }
{
    Crc32c::new()
        .with(bytes)
        .with(&sector.to_le_bytes())
        .value()
        .to_le_bytes()
}

// The payload of a sector's row.
pub(crate) fn payload_of(sector: u32, row: &[u8]) -> Result<&[u8], Fault>
    requires { length row.now ≡ 64 }
    ensures { MatchResult result
        (λ bytes. (row_holds sector row.now ≡ payload bytes.now) × (length bytes.now ≡ 60))
        (λ fault. (row_holds sector row.now ≡ torn) × (fault ≡ Fault.Torn)) }
{
    let (bytes, tail) = row.split_at(PAYLOAD);
    if tail == seal(sector, bytes).as_slice() {
        Ok(bytes)
    } else {
        Err(Fault::Torn)
    }
}

// The row that holds a payload in a sector.
pub(crate) fn row_for(sector: u32, bytes: &[u8; PAYLOAD]) -> [u8; ROW]
    ensures { result ≡ row_for sector bytes.now }
{
    let mut row = [0; ROW];
    row[..PAYLOAD].copy_from_slice(bytes);
    row[PAYLOAD..].copy_from_slice(&seal(sector, bytes));
    row
}
