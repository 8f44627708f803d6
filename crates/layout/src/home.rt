//! The home of a page.
ghost use Rattle.std.specs.Prelude.{◌≡◌, ℕ, ◌<◌, ◌^◌, List, drop, IfSome, IsSomeAnd};

use crate::body::body_of;
use crate::number::{HOME, four_at};
use crate::{BODY, PAYLOAD};

/// A home: the number of its own sector, and the body in it.
#[derive(Clone, Copy, Debug)]
pub struct Home<'a> {
    pub sector: u32,
    pub body: &'a [u8; BODY],
}

impl<'a> Home<'a> {
    ghost use Rattle.layout.specs.Homes.{home_bytes};

    /// The home whose bytes these are, if they are a home's. Its body is bytes 12 to 59.
    pub fn decode(bytes: &'a [u8; PAYLOAD]) -> Option<Home<'a>>
        ensures found { IfSome result (λ h. home_bytes h.sector h.body.now ≡ bytes.now) }
        ensures only { (s : ℕ) (body : List ℕ) → s < 2 ^ 32 → home_bytes s body ≡ bytes.now
            → IsSomeAnd result (λ h. (h.sector ≡ s) × (h.body.now ≡ body)) }
        ensures part { IfSome result (λ h. h.body.now ≡ drop 12 bytes.now) }
    {
        let home = Home {
            sector: four_at(bytes, 4),
            body: body_of(bytes),
        };
        (home.encode() == *bytes).then_some(home)
    }

    /// The home's bytes.
    pub fn encode(&self) -> [u8; PAYLOAD]
        ensures value { result ≡ home_bytes self.now.sector self.now.body.now }
        ensures only { (s : ℕ) (body : List ℕ) → s < 2 ^ 32 → home_bytes s body ≡ result
            → (s ≡ self.now.sector) × (body ≡ self.now.body.now) }
    {
        let Home { sector, body } = *self;
        let mut bytes = [0; PAYLOAD];
        bytes[0] = HOME;
        bytes[4..8].copy_from_slice(&sector.to_le_bytes());
        bytes[12..].copy_from_slice(body);
        bytes
    }
}
