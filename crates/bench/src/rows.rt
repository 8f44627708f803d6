//! Rows of a bench: a sector's payload, then a mark that says whether it can be read.
ghost use Rattle.std.specs.Prelude.{◌≡◌, [], ◌∷◌, ◌++◌, length, MatchResult};
ghost use Rattle.device.specs.Sector.{payload, torn};
ghost use Rattle.bench.specs.Rows.{row_holds};

use device::{Fault, PAYLOAD};

/// The bytes of memory that a sector takes.
pub const ROW: usize = 61;

// The mark of a row that can be read. Every other value marks a torn one.
pub(crate) const READABLE: u8 = 0;

// The mark that a row is torn with.
pub(crate) const TORN: u8 = 1;

// The payload of a row, if its mark says that it can be read.
// The row image has the like; the test in it is all that either says, so one function with the test passed in would be no plainer.
pub(crate) fn payload_of(row: &[u8]) -> Result<&[u8], Fault>
    requires { length row.now ≡ 61 }
    ensures { MatchResult result
        (λ bytes. (row_holds row.now ≡ payload bytes.now) × (length bytes.now ≡ 60))
        (λ fault. (row_holds row.now ≡ torn) × (fault ≡ Fault.Torn)) }
{
    let (bytes, mark) = row.split_at(PAYLOAD);
    if mark[0] == READABLE {
        Ok(bytes)
    } else {
        Err(Fault::Torn)
    }
}

// The row of a payload and a mark.
pub(crate) fn marked(bytes: &[u8], mark: u8) -> [u8; ROW]
    requires { length bytes.now ≡ 60 }
    ensures { result ≡ bytes.now ++ mark ∷ [] }
{
    let mut row = [mark; ROW];
    row[..PAYLOAD].copy_from_slice(bytes);
    row
}
