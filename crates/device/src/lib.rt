//! A sector device: what every card, cache and test device promises, and what may be relied on above them.
#![tactic(auto)]

ghost use Rattle.std.specs.Prelude.{◌≡◌, ℕ, Bool};
ghost use Rattle.device.specs.Sector.{Image, Possible};
ghost use Rattle.device.specs.Rules.{means_by, Laws, ReadMade, WriteMade, FlushMade, ReadCall, WriteCall, FlushCall};

mod durable;
mod fault;
mod memory;
mod pending;
mod queue;
mod rows;

pub use durable::write_both;
pub use fault::Fault;
pub use memory::MemoryError;
pub use pending::{BLANK, PendingWrite, youngest_to};
pub use queue::Queue;
pub use rows::Rows;

/// The bytes of a sector that belong to the caller.
pub const PAYLOAD: usize = 60;

/// A device of numbered sectors. Its contract is the seven rules; `specs/Rules.antt` has each by name.
pub trait Device {
    // how many sectors it has
    ghost count: { Self → ℕ };

    // whether it is on
    ghost on: { Self → Bool };

    // what each sector holds
    ghost current: { Self → Image };

    // what a power cut may leave in each sector
    ghost possible: { Self → Possible };

    // what is so of every device at any moment; code over any device relies on it without a call
    ghost laws: { (d : Self) → Laws (means_by count on current possible d) };

    // What each call does in the device's own terms, beside the rules. Over any device these are opaque, so that nothing but a call of the
    // device's shows them. By them code that passes calls on says exactly which calls it makes.
    ghost reads: { ReadMade Self };

    ghost writes: { WriteMade Self };

    ghost flushes: { FlushMade Self };

    /// How many sectors there are. It never changes.
    fn count(&self) -> u32
        ensures { result ≡ count self.now };

    /// Whether the device is on.
    fn is_on(&self) -> bool
        ensures { result ≡ on self.now };

    /// Copies the sector's payload into the caller's bytes.
    fn read(&mut self, sector: u32, into: &mut [u8; PAYLOAD]) -> Result<(), Fault>
        ensures rules { ReadCall sector into.old into.new result
            (means_by count on current possible self.old)
            (means_by count on current possible self.new) }
        ensures made { reads self.old sector into.old into.new result self.new };

    /// Makes the bytes the sector's payload; a cut before the next flush may undo or tear it.
    fn write(&mut self, sector: u32, bytes: &[u8; PAYLOAD]) -> Result<(), Fault>
        ensures rules { WriteCall sector bytes.now result
            (means_by count on current possible self.old)
            (means_by count on current possible self.new) }
        ensures made { writes self.old sector bytes.now result self.new };

    /// Makes every accepted write last.
    fn flush(&mut self) -> Result<(), Fault>
        ensures rules { FlushCall result
            (means_by count on current possible self.old)
            (means_by count on current possible self.new) }
        ensures made { flushes self.old result self.new };
}
