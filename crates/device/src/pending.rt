//! A write that was accepted and is not in its place yet.
ghost use Rattle.std.specs.Prelude.{◌≡◌, MatchOption, replicate};
ghost use Rattle.device.specs.Sector.{IsPayload};
ghost use Rattle.device.specs.Waiting.{NoneFrom, YoungestAt};

use crate::PAYLOAD;

/// A sector and the bytes that are to be written there. It is a plain value: whoever keeps some decides what they mean.
#[derive(Clone, Copy, Debug, PartialEq, Eq)]
pub struct PendingWrite {
    pub sector: u32,
    pub bytes: [u8; PAYLOAD],
}

impl PendingWrite {
    /// Copies the bytes out.
    // An assignment would do; the call tells its caller too that what waits is a payload.
    pub fn copy_to(self, into: &mut [u8; PAYLOAD])
        ensures copied { into.new ≡ self.bytes }
        ensures payload { IsPayload self.bytes }
    {
        let bytes = self.bytes;
        *into = bytes;
    }
}

/// A write of zeros to sector 0, for places where none stands yet: a constant, so that an array can be made of it.
pub const BLANK: PendingWrite = PendingWrite {
    sector: 0,
    bytes: [0; PAYLOAD],
};

// By hand, so that a clause says which value the constant has.
impl Default for PendingWrite {
    ghost is_default = { λ write. (write.sector ≡ 0) × (write.bytes ≡ replicate 60 0) };

    fn default() -> PendingWrite
        ensures blank { result ≡ BLANK }
        ensures zeros { (result.sector ≡ 0) × (result.bytes ≡ replicate 60 0) }
    {
        BLANK
    }
}

/// Where the youngest of these writes, oldest first, stands that is to the sector.
pub fn youngest_to(writes: &[PendingWrite], sector: u32) -> Option<usize>
    ensures { MatchOption result (NoneFrom sector writes.now 0) (YoungestAt sector writes.now) }
{
    writes.iter().rposition(|write| write.sector == sector)
}
