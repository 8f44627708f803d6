//! The handle of an object: where it is.
ghost use Rattle.std.specs.Prelude.{◌≡◌, ◌*◌, ◌<◌, ◌^◌, IsSome, IfSome, ◌↔◌};

/// How many handles a sector has, one for each slot that a page may have.
pub const HANDLES: u32 = 16;

/// Names an object by its page's sector times 16 plus its slot. Any number is a handle; whether it has an object is for a heap to tell.
#[derive(Clone, Copy, Debug, PartialEq, Eq)]
pub struct Handle(pub u32);

impl Handle {
    ghost use Rattle.layout.specs.Handles.{handles, handle_of, sector_of, slot_of};

    /// The handle of a slot of the page in this sector, if both numbers have room in it.
    pub fn new(sector: u32, slot: usize) -> Option<Handle>
        ensures room { IsSome result ↔ ((sector * handles < 2 ^ 32) × (slot < handles)) }
        ensures value { IfSome result (λ h. h ≡ handle_of sector slot) }
    {
        if slot >= HANDLES as usize {
            return None;
        }
        Some(Handle(sector.checked_mul(HANDLES)? + slot as u32))
    }

    /// The sector of the object's page.
    pub fn sector(self) -> u32
        ensures { result ≡ sector_of self }
    {
        self.0 / HANDLES
    }

    /// The object's slot.
    pub fn slot(self) -> usize
        ensures { result ≡ slot_of self }
    {
        (self.0 % HANDLES) as usize
    }
}
