//! The bench device: writes wait, at most eight, until they are made durable; it never turns off.
ghost use Rattle.std.specs.Prelude.{◌≡◌, ◌%◌, ◌<◌, ◌≤◌, true, [], ◌∷◌, ◌++◌, length, IfNone, IfSome, Ok, MatchOption, MatchResult};
ghost use Rattle.device.specs.Sector.{IsPayload};
ghost use Rattle.device.specs.Rules.{WriteCall, FlushCall};
ghost use Rattle.device.specs.Memory.{row_count, only};
ghost use Rattle.device.specs.Queues.{waiting, places};
ghost use Rattle.device.specs.Waiting.{shown, may, Absent, NoneFor, IsYoungest, Keeps, room_in, laws_waiting};
ghost use Rattle.bench.specs.Rows.{durable, rows_mean, rows_laws};
ghost use Rattle.bench.specs.Waits.{MakesDurable, room_made};

use crate::rows::{READABLE, ROW, marked, payload_of};
use device::{Device, Fault, MemoryError, PAYLOAD, PendingWrite, Queue, Rows, youngest_to};
use thiserror::Error;

/// How many writes wait at most.
pub const WAITING: usize = 8;

/// Memory and places that no bench can be made over, given back as they were.
#[derive(Debug, Drop, Error)]
#[error("{reason}")]
pub struct Refused<'a> {
    pub reason: MemoryError,
    pub rows: &'a mut [u8],
    pub slots: &'a mut [PendingWrite],
}

/// A device over rows of the caller's memory, with writes that wait in the caller's places: never more than eight, and there is
/// room for so many.
#[derive(Drop)]
pub struct Bench<'a> {
    pub(crate) rows: Rows<'a, ROW>,
    pub(crate) pending: Queue<'a, PendingWrite>,
    pub ghost few: { length (waiting pending) ≤ 8 },
    pub ghost room: { 8 ≤ places pending },
}

impl<'a> Bench<'a> {
    ghost use Rattle.bench.specs.Benches.{Made, Refuses, memory, memory_at, slots, slots_at};

    /// A device over this memory, as it stands, with nothing waiting. Refused, and all given back, if the memory is not whole
    /// rows, or if there are places for fewer than eight writes.
    pub fn new(rows: &'a mut [u8], slots: &'a mut [PendingWrite]) -> Result<Bench<'a>, Refused<'a>>
        ensures made { MatchResult result
            (λ d. (length rows.old % 61 ≡ 0) × (8 ≤ length slots.old) × Made rows.old slots.old d)
            (λ e. Refuses rows.old slots.old e) }
        ensures rows { MatchResult result
            (λ d. memory_at d ≡ rows.entry.ghost_name)
            (λ e. e.rows.ghost_name ≡ rows.entry.ghost_name) }
        ensures slots { MatchResult result
            (λ d. slots_at d ≡ slots.entry.ghost_name)
            (λ e. e.slots.ghost_name ≡ slots.entry.ghost_name) }
    {
        let rows = match Rows::new(rows) {
            Ok(rows) => rows,
            Err(rows) => {
                let reason = MemoryError::NotWholeRows;
                return Err(Refused {
                    reason,
                    rows,
                    slots,
                });
            }
        };
        if slots.len() < WAITING {
            let reason = MemoryError::FewPlaces;
            let rows = rows.into_bytes();
            return Err(Refused {
                reason,
                rows,
                slots,
            });
        }
        let pending = Queue::new(slots);
        Ok(Bench { rows, pending })
    }

    /// The memory and the places, as they stand now. What still waits is lost: flush or settle first.
    pub fn into_parts(self) -> (&'a mut [u8], &'a mut [PendingWrite])
        ensures rows { (result.0.now ≡ memory self.entry)
            × (result.0.ghost_name ≡ memory_at self.entry) }
        ensures slots { (result.1.now ≡ slots self.entry)
            × (result.1.ghost_name ≡ slots_at self.entry) }
    {
        let Bench { rows, pending } = self;
        (rows.into_bytes(), pending.into_slots())
    }
}

// What a call leaves where it was, as `same` and `pending` say, is about before and after: no type can tell it.
impl Bench<'_> {
    ghost use Rattle.bench.specs.Benches.{SameMemory, LetsWait, AfterFlush, benched, memory, memory_at, queued, slots};

    // Makes a write durable. A sector that is not there is passed over.
    fn put(&mut self, write: PendingWrite)
        ensures memory { MakesDurable write (memory self.old) (memory self.new) }
        ensures pending { self.new.pending ≡ self.old.pending }
        ensures same { memory_at self.new ≡ memory_at self.old }
    {
        let _ = self.rows.put(write.sector, &marked(&write.bytes, READABLE));
    }

    // Takes the oldest write that waits out of the queue.
    fn take_oldest(&mut self) -> Option<PendingWrite>
        ensures taken { MatchOption result
            (queued self.old ≡ [])
            (λ w. queued self.old ≡ w ∷ queued self.new) }
        ensures empty { IfNone result (queued self.new ≡ []) }
        ensures rows { self.new.rows ≡ self.old.rows }
        ensures slots { slots self.new ≡ slots self.old }
        ensures same { SameMemory self.old self.new }
    {
        self.pending.pop()
    }

    // Makes all writes that wait durable, oldest first.
    fn put_all(&mut self)
        ensures done { AfterFlush self.old self.new }
        ensures kept { Keeps (benched self.old) (benched self.new) }
        ensures rules { FlushCall (Ok tt) (benched self.old) (benched self.new) }
    {
        while let Some(oldest) = self.take_oldest() {
            self.put(oldest);
        }
    }

    // Makes room for one more to wait: with eight waiting, the oldest becomes durable.
    fn make_room(&mut self)
        ensures memory { memory self.new ≡ room_made (queued self.old) (memory self.old) }
        ensures kept { Keeps (benched self.old) (benched self.new) }
        ensures pending { queued self.new ≡ room_in (queued self.old) }
        ensures slots { slots self.new ≡ slots self.old }
        ensures same { SameMemory self.old self.new }
    {
        if self.pending.len() < WAITING {
            return;
        }
        if let Some(oldest) = self.take_oldest() {
            self.put(oldest);
        }
    }

    // Lets a write wait, behind all others.
    fn let_wait(&mut self, write: PendingWrite)
        ensures rules { IsPayload write.bytes → write.sector < row_count 61 (memory self.old)
            → WriteCall write.sector write.bytes (Ok tt) (benched self.old) (benched self.new) }
        ensures waits { LetsWait write self.old self.new }
    {
        self.make_room();
        self.pending.push(write).unwrap(); // a place is free
    }

    // The youngest write that waits for the sector.
    fn youngest(&self, sector: u32) -> Option<PendingWrite>
        ensures found { MatchOption result
            (NoneFor sector (queued self.now))
            (λ w. IsPayload w.bytes → IsYoungest sector w.bytes (queued self.now)) }
        ensures to { IfSome result (λ w. w.sector ≡ sector) }
    {
        let (older, younger) = self.pending.as_slices();
        // no `or_else`: what its closure answers was not to be had for the proof
        match last_to(younger, sector) {
            Some(write) => Some(write),
            None => last_to(older, sector),
        }
    }
}

// The youngest of these writes, oldest first, that is to the sector.
fn last_to(writes: &[PendingWrite], sector: u32) -> Option<PendingWrite>
    ensures found { MatchOption result
        (Absent sector writes.now)
        (λ w. IsPayload w.bytes → IsYoungest sector w.bytes writes.now) }
    ensures to { IfSome result (λ w. w.sector ≡ sector) }
{
    let at = youngest_to(writes, sector)?;
    Some(writes[at])
}

impl<'a> Device for Bench<'a> {
    ghost use Rattle.bench.specs.Benches.{AfterWrite, AfterFlush, memory, queued};

    // Together these are `benched`, of which the clauses above speak.
    ghost count = { λ d. row_count 61 (memory d) };

    ghost on = { λ _. true };

    ghost current = { λ d. shown (row_count 61 (memory d)) (queued d) (durable (memory d)) };

    ghost possible = { λ d. may (row_count 61 (memory d)) (queued d) (only (durable (memory d))) };

    ghost laws = { λ d. laws_waiting (queued d) (rows_mean (memory d)) (rows_laws (memory d)) };

    ghost reads = { λ d s x y r d'. d' ≡ d };

    ghost writes = { λ d s b r d'. AfterWrite s b r d d' };

    ghost flushes = { λ d r d'. AfterFlush d d' };

    fn count(&self) -> u32 {
        self.rows.count()
    }

    fn is_on(&self) -> bool {
        true
    }

    #[tactic(auto, unfolding(device::specs::Memory::held_by))]
    fn read(&mut self, sector: u32, into: &mut [u8; PAYLOAD]) -> Result<(), Fault> {
        let row = self.rows.get(sector)?;
        match self.youngest(sector) {
            Some(write) => write.copy_to(into),
            None => into.copy_from_slice(payload_of(row)?),
        }
        Ok(())
    }

    fn write(&mut self, sector: u32, bytes: &[u8; PAYLOAD]) -> Result<(), Fault> {
        self.rows.get(sector)?;
        let bytes = *bytes;
        self.let_wait(PendingWrite { sector, bytes });
        Ok(())
    }

    fn flush(&mut self) -> Result<(), Fault> {
        self.put_all();
        Ok(())
    }
}
