//! The used slots of a page in one number.
ghost use Rattle.std.specs.Prelude.{◌≡◌, ◌<◌, ◌^◌, IsTrue, ◌↔◌};
ghost use Rattle.layout.specs.Bodies.{marks};
ghost use Rattle.layout.specs.Slots.{HasBit};

use crate::Page;
use crate::body::marks_of;

impl Page {
    /// One bit for each slot, that of slot 0 lowest: it is set if the slot holds an object.
    #[tactic(auto, using(crate::proofs::Bits::marks_fit))]
    pub fn marks(&self) -> u16
        ensures { result ≡ marks self.now.used 0 }
    {
        marks_of(&self.used, 0) as u16
    }
}

/// Whether the bit of a slot is set.
pub fn is_marked(marks: u16, slot: usize) -> bool
    ensures { IsTrue result ↔ HasBit marks slot }
{
    slot < 16 && (marks >> slot) % 2 == 1
}
