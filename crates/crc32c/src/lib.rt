//! CRC-32C: the reflected polynomial 0x82F63B78, a register that starts as all ones and is complemented at the end, and
//! the bits of each byte taken lowest first.
#![tactic(auto)]

ghost use Rattle.std.specs.Prelude.{◌≡◌, ℕ, ◌/◌, true, List, [], ◌∷◌, ◌++◌, replicate, codes, bit_xor};
ghost use Rattle.crc32c.specs.Crc.{Stands, byte_in, crc, fed, shifted_by};
ghost use Rattle.crc32c.specs.Examples.{WorkedExamples};
ghost use Rattle.crc32c.specs.Remainder.{Division};

mod table;

use table::TABLE;

/// A checksum in the making. It takes one slice after another, so a message need not lie in one piece.
// The clauses name the bytes taken each time: a `Copy` type has no ghost field for them, and the register does not tell them.
#[derive(Clone, Copy)]
pub struct Crc32c {
    register: u32,
}

#[tactic(auto, unfolding(crate::specs::Crc::fed))]
impl Crc32c {
    /// A checksum that has taken no bytes.
    pub fn new() -> Self
        ensures { Stands result [] }
    {
        Crc32c { register: u32::MAX }
    }

    /// The checksum once it has taken `bytes` too.
    pub fn with(self, bytes: &[u8]) -> Self
        ensures { (xs : List ℕ) → Stands self xs → Stands result (xs ++ bytes.now) }
    {
        // By value: compiled over references, a call from C waits for the result of the call before it.
        let register = bytes.iter().copied().fold(self.register, step);
        Crc32c { register }
    }

    /// The CRC-32C of all bytes taken.
    pub fn value(self) -> u32
        ensures { (xs : List ℕ) → Stands self xs → result ≡ crc xs }
    {
        self.register ^ u32::MAX
    }
}

// The register after one byte.
fn step(register: u32, byte: u8) -> u32
    ensures { result ≡ byte_in register byte }
{
    let sum = register ^ u32::from(byte);
    (sum >> 8) ^ entry(sum)
}

// What eight shifts put onto the upper bits of `sum`: the low byte, which falls out, decides it alone.
fn entry(sum: u32) -> u32
    ensures { bit_xor (sum / 256) result ≡ shifted_by 8 sum }
{
    TABLE[(sum & 0xff) as usize]
}

/// The CRC-32C of `bytes`.
pub fn checksum(bytes: &[u8]) -> u32
    ensures { result ≡ crc bytes.now }
{
    Crc32c::new().with(bytes).value()
}

/// The published checksums of 32 zero bytes and of the digits 1 to 9. Its contract has these examples, and with them what
/// a checksum means of any bytes: it is the complement of the remainder that the generator leaves.
#[tactic(auto, using(crate::proofs::Division::division, crate::proofs::Worked::worked))]
pub fn published() -> [u32; 2]
    ensures examples { WorkedExamples }
    ensures division { Division }
    ensures values { result ≡ crc (replicate 32 0) ∷ crc (codes "123456789") ∷ [] }
{
    [0x8A91_36AA, 0xE306_9283]
}

/// Whether this build gives the published values.
pub fn self_test() -> bool
    ensures { result ≡ true }
{
    let [zeros, digits] = published();
    checksum(&[0; 32]) == zeros && checksum(b"123456789") == digits
}

#[cfg(test)]
mod tests {
    use super::*;

    // A SCSI Read (10) command as iSCSI sends it.
    const READ: &[u8; 48] =
        b"\x01\xc0\0\0\0\0\0\0\0\0\0\0\0\0\0\0\x14\0\0\0\0\0\x04\0\0\0\0\x14\0\0\0\x18\x28\0\0\0\0\0\0\0\x02\0\0\0\0\0\0\0";

    #[test]
    fn published_values(rt: HostRuntime) {
        let cases: [(&[u8], u32); 5] = [
            (b"", 0),
            (b"123456789", 0xE306_9283),
            (&[0; 32], 0x8A91_36AA),
            (&[0xFF; 32], 0x62A8_AB43),
            (READ, 0xD996_3A56),
        ];
        for (bytes, value) in cases {
            assert_eq!(rt; checksum(bytes), value);
        }
    }

    #[test]
    fn byte_after_byte(rt: HostRuntime) {
        let ascending = (0..32).fold(Crc32c::new(), |crc, byte| crc.with(&[byte]));
        let descending = (0..32)
            .rev()
            .fold(Crc32c::new(), |crc, byte| crc.with(&[byte]));
        assert_eq!(rt; ascending.value(), 0x46DD_794E);
        assert_eq!(rt; descending.value(), 0x113F_DB5C);
    }

    #[test]
    fn slice_after_slice(rt: HostRuntime) {
        let whole = Crc32c::new().with(b"1234").with(b"").with(b"56789");
        assert_eq!(rt; whole.value(), checksum(b"123456789"));
    }
}
