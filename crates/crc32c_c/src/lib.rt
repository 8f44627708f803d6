//! The checksum for programs in C: a static library over `crc32c`.
#![tactic(auto)]

ghost use Rattle.std.specs.Prelude.{◌≡◌};
ghost use Rattle.crc32c.specs.Crc.{crc};

/// `checksum` for C: `uint32_t goarfleki_crc32c(const uint8_t *bytes, size_t length)`.
#[unsafe(no_mangle)]
pub extern "C" fn goarfleki_crc32c(bytes: &[u8]) -> u32
    ensures { result ≡ crc bytes.now }
{
    crc32c::checksum(bytes)
}
