//! A write-back cache over any device: it holds up to eight written sectors and passes them on when it must.
#![tactic(auto)]

ghost use Rattle.std.specs.Prelude.{◌≡◌, ◌<◌, ◌≤◌, true, ◌⊎◌, [], length, IfNone, MatchOption, MatchResult, slice_index_or};
ghost use Rattle.device.specs.Rules.{WriteCall};
ghost use Rattle.device.specs.Means.{means};
ghost use Rattle.device.specs.Waiting.{shown, may, Absent, NoneFor, YoungestAt, laws_waiting};
ghost use Rattle.cache.specs.Held.{Distinct, Distinct-prop, Passed, MakesRoom, PassesAll, TurnsAway, HeldAfter};
ghost use Rattle.cache.specs.Below.{PassedOn, AllPassedOn};

use arrayvec::ArrayVec;
use device::{Device, Fault, PAYLOAD, PendingWrite, youngest_to};

/// How many written sectors a cache holds at most.
pub const HELD: usize = 8;

/// A device over another, which it holds by value. It never holds more than eight writes, nor two to one sector.
#[derive(Drop)]
pub struct Cache<D> {
    below: D,
    // the one held longest first
    held: ArrayVec<PendingWrite, HELD>,
    pub ghost few: { length held.items ≤ 8 },
    pub ghost apart: { Distinct held.items } by { Distinct-prop held.items },
}

impl<D: Device> Cache<D> {
    ghost use Rattle.cache.specs.Caches.{held_writes, device_below, cached};

    /// A cache that holds nothing yet.
    pub fn new(below: D) -> Cache<D>
        ensures below { device_below result ≡ below }
        ensures empty { held_writes result ≡ [] }
    {
        Cache {
            below,
            held: ArrayVec::new(),
        }
    }

    /// The device below. What is still held is lost: flush first.
    pub fn into_below(self) -> D
        ensures { result ≡ device_below self }
    {
        let Cache { below, held: _ } = self;
        below
    }

    // Turns a call away if the device below is off, or else does not have the sector.
    fn admit(&self, sector: u32) -> Result<(), Fault>
        ensures { MatchResult result
            (λ _. (D.on (device_below self.now) ≡ true)
            × (sector < D.count (device_below self.now)))
            (λ fault. TurnsAway sector (means ⟦<D as Device>⟧ (device_below self.now)) fault) }
    {
        if !self.below.is_on() {
            return Err(Fault::Off);
        }
        if sector >= self.below.count() {
            return Err(Fault::NoSector);
        }
        Ok(())
    }

    // The place of the youngest write to the sector.
    #[tactic(auto, using(device::proofs::Lists::none_absent, device::proofs::Lists::absent_waiting))]
    fn place_of(&self, sector: u32) -> Option<usize>
        ensures found { MatchOption result
            (Absent sector (held_writes self.now))
            (YoungestAt sector (held_writes self.now)) }
        ensures none { IfNone result (NoneFor sector (held_writes self.now)) }
    {
        youngest_to(&self.held, sector)
    }

    // Makes room for one more: if as many are held as may be, the one held longest is passed on.
    fn make_room(&mut self) -> Result<(), Fault>
        ensures free { length (held_writes self.old) < 8
            → device_below self.new ≡ device_below self.old }
        ensures evicts { length (held_writes self.old) ≡ 8 → (d : PendingWrite)
            → PassedOn ⟦<D as Device>⟧ (slice_index_or (held_writes self.old) 0 d) result
            (device_below self.old) (device_below self.new) }
        ensures room { MakesRoom result (held_writes self.old) (held_writes self.new)
            (means ⟦<D as Device>⟧ (device_below self.old))
            (means ⟦<D as Device>⟧ (device_below self.new)) }
    {
        if self.held.is_full() {
            pass_on(&mut self.below, self.held[0])?;
            self.held.remove(0);
        }
        Ok(())
    }

    // Takes a write in: in the place of an earlier one to its sector, or as the youngest.
    fn hold(&mut self, write: PendingWrite) -> Result<(), Fault>
        ensures rules { D.on (device_below self.old) ≡ true
            → write.sector < D.count (device_below self.old)
            → WriteCall write.sector write.bytes result
            (cached ⟦<D as Device>⟧ self.old) (cached ⟦<D as Device>⟧ self.new) }
        ensures held { HeldAfter write.sector write.bytes result
            (held_writes self.old) (held_writes self.new) }
        ensures free { (length (held_writes self.old) < 8)
            ⊎ (Absent write.sector (held_writes self.old) → ⊥)
            → device_below self.new ≡ device_below self.old }
        ensures evicts { length (held_writes self.old) ≡ 8
            → Absent write.sector (held_writes self.old) → (d : PendingWrite)
            → PassedOn ⟦<D as Device>⟧ (slice_index_or (held_writes self.old) 0 d) result
            (device_below self.old) (device_below self.new) }
    {
        if let Some(place) = self.place_of(write.sector) {
            self.held[place] = write;
            return Ok(());
        }
        self.make_room()?;
        self.held.push(write);
        Ok(())
    }
}

// Passes a write on to the device below; a write to a sector that this does not have is dropped.
fn pass_on<D: Device>(below: &mut D, write: PendingWrite) -> Result<(), Fault>
    ensures rules { Passed write result
        (means ⟦<D as Device>⟧ below.old) (means ⟦<D as Device>⟧ below.new) }
    ensures on { PassedOn ⟦<D as Device>⟧ write result below.old below.new }
{
    if write.sector >= below.count() {
        return Ok(());
    }
    below.write(write.sector, &write.bytes)
}

// Passes the writes on, the first one first.
fn pass_all_on<D: Device>(below: &mut D, writes: &[PendingWrite]) -> Result<(), Fault>
    ensures rules { PassesAll result writes.now
        (means ⟦<D as Device>⟧ below.old) (means ⟦<D as Device>⟧ below.new) }
    ensures on { AllPassedOn ⟦<D as Device>⟧ writes.now result below.old below.new }
{
    for write in writes {
        pass_on(below, *write)?;
    }
    Ok(())
}

impl<D: Device> Device for Cache<D> {
    ghost use Rattle.cache.specs.Caches.{held_writes, device_below, ReadsBelow, WritesBelow, FlushesBelow};

    // Together these are `cached`, of which the clauses above speak.
    ghost count = { λ c. D.count (device_below c) };

    ghost on = { λ c. D.on (device_below c) };

    ghost current = { λ c. shown (D.count (device_below c)) (held_writes c)
        (D.current (device_below c)) };

    ghost possible = { λ c. may (D.count (device_below c)) (held_writes c)
        (D.possible (device_below c)) };

    ghost laws = { λ c. laws_waiting (held_writes c) (means ⟦<D as Device>⟧ (device_below c))
        (D.laws (device_below c)) };

    ghost reads = { λ c s x y r c'. ReadsBelow ⟦<D as Device>⟧ s x y r c c' };

    ghost writes = { λ c s b r c'. WritesBelow ⟦<D as Device>⟧ s b r c c' };

    ghost flushes = { λ c r c'. FlushesBelow ⟦<D as Device>⟧ r c c' };

    fn count(&self) -> u32 {
        self.below.count()
    }

    fn is_on(&self) -> bool {
        self.below.is_on()
    }

    fn read(&mut self, sector: u32, into: &mut [u8; PAYLOAD]) -> Result<(), Fault> {
        self.admit(sector)?;
        match self.place_of(sector) {
            Some(place) => {
                self.held[place].copy_to(into);
                Ok(())
            }
            None => self.below.read(sector, into),
        }
    }

    fn write(&mut self, sector: u32, bytes: &[u8; PAYLOAD]) -> Result<(), Fault> {
        self.admit(sector)?;
        let bytes = *bytes;
        self.hold(PendingWrite { sector, bytes })
    }

    fn flush(&mut self) -> Result<(), Fault> {
        pass_all_on(&mut self.below, &self.held)?;
        self.below.flush()?;
        self.held.clear();
        Ok(())
    }
}
