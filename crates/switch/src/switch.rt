//! A power switch: a device over any device, which turns off within a chosen call.
ghost use Rattle.std.specs.Prelude.{◌≡◌, ℕ, true, ◌&&◌};
ghost use Rattle.device.specs.Means.{means};
ghost use Rattle.switch.specs.Fates.{AfterCalls, Planned, fuse_for, is_on};
ghost use Rattle.switch.specs.Below.{device_below, fuse_of, last_of, ReadsBelow, WritesBelow, FlushesBelow, switched_laws};

use crate::fuse::{Fate, Fuse, LastWrite};
use device::{Device, Fault, PAYLOAD};

/// A device over another, which turns off within its k-th read, write or flush, or never.
#[derive(Drop)]
pub struct Switch<D> {
    below: D,
    fuse: Fuse,
    last: LastWrite,
}

impl<D: Device> Switch<D> {
    /// A switch that is on. It turns off within this call, counted from 1; at 0 never, since no call has that number.
    pub fn new(below: D, call: u32, last: LastWrite) -> Switch<D>
        ensures below { device_below result ≡ below }
        ensures on { is_on (fuse_of result) ≡ true }
        ensures fuse { fuse_of result ≡ fuse_for call }
        ensures planned { (n : ℕ) (f : Fuse) → AfterCalls n (fuse_of result) f → Planned call n f }
        ensures last { last_of result ≡ last }
    {
        let fuse = call.checked_sub(1).map_or(Fuse::Lasting, Fuse::After);
        Switch { below, fuse, last }
    }

    /// Whether the switch itself is still on.
    pub fn is_switched_on(&self) -> bool
        ensures { result ≡ is_on (fuse_of self.now) }
    {
        self.fuse.is_on() // the device below may be off
    }

    /// The device below, as it stands.
    pub fn into_below(self) -> D
        ensures { result ≡ device_below self }
    {
        self.below // it may be on, though the switch is off
    }
}

impl<D: Device> Device for Switch<D> {
    // Together these are `switched` of what the device below means.
    ghost count = { λ d. D.count (device_below d) };

    ghost on = { λ d. is_on (fuse_of d) && D.on (device_below d) };

    ghost current = { λ d. D.current (device_below d) };

    ghost possible = { λ d. D.possible (device_below d) };

    ghost laws = { λ d. switched_laws (is_on (fuse_of d))
        (means ⟦<D as Device>⟧ (device_below d)) (D.laws (device_below d)) };

    ghost reads = { λ d s x y r d'. ReadsBelow ⟦<D as Device>⟧ s x y r d d' };

    ghost writes = { λ d s b r d'. WritesBelow ⟦<D as Device>⟧ s b r d d' };

    ghost flushes = { λ d r d'. FlushesBelow ⟦<D as Device>⟧ r d d' };

    fn count(&self) -> u32 {
        self.below.count()
    }

    fn is_on(&self) -> bool {
        self.fuse.is_on() && self.below.is_on()
    }

    // Each call matches on its fate: a cut write differs, and a closure for the call below would need more clauses than it spares.
    fn read(&mut self, sector: u32, into: &mut [u8; PAYLOAD]) -> Result<(), Fault> {
        match self.fuse.count_call() {
            Fate::Refused | Fate::Cut => Err(Fault::Off), // the caller's bytes stay
            Fate::Passed => self.below.read(sector, into),
        }
    }

    fn write(&mut self, sector: u32, bytes: &[u8; PAYLOAD]) -> Result<(), Fault> {
        match self.fuse.count_call() {
            Fate::Refused => Err(Fault::Off),
            Fate::Cut => {
                if self.last == LastWrite::Reached {
                    let _ = self.below.write(sector, bytes);
                }
                Err(Fault::Off)
            }
            Fate::Passed => self.below.write(sector, bytes),
        }
    }

    fn flush(&mut self) -> Result<(), Fault> {
        match self.fuse.count_call() {
            Fate::Refused | Fate::Cut => Err(Fault::Off),
            Fate::Passed => self.below.flush(),
        }
    }
}
