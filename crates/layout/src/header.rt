//! The header of a card: its geometry, its epoch, and the count of transactions before its log.
ghost use Rattle.std.specs.Prelude.{◌≡◌, ◌≤◌, ◌<◌, ◌^◌, IsTrue, ◌↔◌, IfSome};

use crate::number::{HEADER, four_at, two_at};
use crate::{Geometry, PAYLOAD};

// The edition of the format.
const EDITION: u8 = 1;

/// A header within the limits of the format.
#[derive(Clone, Copy, Debug, PartialEq, Eq)]
pub struct Header {
    pub geometry: Geometry,
    pub epoch: u32,
    pub transactions: u32,
    ghost started: { 1 ≤ epoch },
    // that the numbers have 32 bits; a definition that names a header then need not say it
    ghost epoch_bits: { epoch < 2 ^ 32 },
    ghost transactions_bits: { transactions < 2 ^ 32 },
}

impl Header {
    ghost use Rattle.layout.specs.Headers.{header_bytes, IsValidIn};

    /// The header whose bytes these are, if they are a header's.
    pub fn decode(bytes: &[u8; PAYLOAD]) -> Option<Header>
        ensures found { IfSome result (λ h. header_bytes h ≡ bytes.now) }
        ensures only { (h : Header) → header_bytes h ≡ bytes.now → result ≡ Some h }
    {
        let header = Header::read(bytes)?;
        (header.encode() == *bytes).then_some(header)
    }

    // The header whose numbers stand in these bytes, whatever else does.
    #[tactic(auto, using(crate::proofs::Headers::header_numbers))]
    fn read(bytes: &[u8; PAYLOAD]) -> Option<Header>
        ensures { (h : Header) → header_bytes h ≡ bytes.now → result ≡ Some h }
    {
        let geometry = Geometry::new(four_at(bytes, 8), u32::from(two_at(bytes, 2)))?;
        let epoch = four_at(bytes, 4);
        let transactions = four_at(bytes, 12);
        if epoch == 0 {
            return None;
        }
        Some(Header {
            geometry,
            epoch,
            transactions,
        })
    }

    /// The header's bytes.
    #[tactic(auto, using(crate::proofs::Headers::one_header), unfolding(crate::specs::Headers::header_bytes))]
    pub fn encode(&self) -> [u8; PAYLOAD]
        ensures value { result ≡ header_bytes self.now }
        ensures only { (h : Header) → header_bytes h ≡ result → h ≡ self.now }
    {
        let mut bytes = [0; PAYLOAD];
        bytes[0] = HEADER;
        bytes[1] = EDITION;
        bytes[2..4].copy_from_slice(&self.geometry.log.to_le_bytes());
        bytes[4..8].copy_from_slice(&self.epoch.to_le_bytes());
        bytes[8..12].copy_from_slice(&self.geometry.sectors.to_le_bytes());
        bytes[12..16].copy_from_slice(&self.transactions.to_le_bytes());
        bytes
    }

    /// Whether the header is valid in a sector of a device with so many.
    pub fn is_valid_in(&self, sector: u32, sectors: u32) -> bool
        ensures { IsTrue result ↔ IsValidIn sector sectors self.now }
    {
        self.geometry.sectors == sectors && self.epoch % 2 == sector
    }
}
