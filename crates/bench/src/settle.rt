//! Settling: what a power cut leaves of a bench, as the caller chooses.
ghost use Rattle.std.specs.Prelude.{◌≡◌, ℕ, ◌<◌, ◌≤◌, [], ◌++◌, length, filter, ◌==◌, slice_get, slice_index};
ghost use Rattle.device.specs.Sector.{Found};
ghost use Rattle.device.specs.Rules.{Settled};
ghost use Rattle.device.specs.Cuts.{IsFoundOf};
ghost use Rattle.device.specs.Memory.{row_count, row_in, with_row};
ghost use Rattle.device.specs.Waiting.{waiting_at};
ghost use Rattle.bench.specs.Rows.{durable, torn_row};
ghost use Rattle.bench.specs.Benches.{SameMemory, benched, memory, memory_at, queued, slots};
ghost use Rattle.bench.specs.Settling.{Settles, SettlesAt, SettlesFor, SettlesToEach, chosen};

use crate::bench::Bench;
use crate::rows::{READABLE, TORN, marked};
use device::{PAYLOAD, PendingWrite};

// The caller's bytes choose by these numbers. They are matched once, where an enum of choices would be made and used up at once.

/// The number that keeps what is durable.
pub const KEEP: u8 = 0;

/// The number that tears a sector for which a write waits.
pub const TEAR: u8 = 9;

// `same` and `pending`, here too, are about before and after: no type can tell them.
impl Bench<'_> {
    /// Stands for a power cut: a number for each sector chooses what is found there, and then nothing waits. 0 keeps the durable
    /// content, k takes the k-th oldest write that waits for the sector, 9 makes it torn if one waits; others count as 0.
    pub fn settle(&mut self, numbers: &[u8])
        ensures cut { IsFoundOf (benched self.old) (benched self.new) }
        ensures settles { Settles numbers.now (queued self.old)
            (memory self.old) (memory self.new) }
        ensures current { (s : ℕ) → (benched self.new).current s
            ≡ chosen (slice_index numbers.now s)
            (waiting_at (row_count 61 (memory self.old)) (queued self.old) s)
            (durable (memory self.old) s) }
        ensures only { Settled (benched self.new).current (benched self.new).possible }
        ensures found { Found (benched self.old).possible (benched self.new).current }
        ensures reaches { SettlesToEach (queued self.old) (memory self.old) }
        ensures pending { queued self.new ≡ [] }
        ensures slots { slots self.new ≡ slots self.old }
        ensures same { SameMemory self.old self.new }
    {
        // A sector for which nothing waits stays as it is, so at most eight are settled, however many there are.
        for k in 0..self.pending.len() {
            self.settle_for(k, numbers);
        }
        self.pending.clear();
    }

    // Settles the sector that the k-th oldest write, counted from 0, is to. It may be settled already: that changes nothing.
    fn settle_for(&mut self, k: usize, numbers: &[u8])
        ensures settled { SettlesFor k numbers.now (queued self.old)
            (memory self.old) (memory self.new) }
        ensures pending { self.new.pending ≡ self.old.pending }
        ensures same { memory_at self.new ≡ memory_at self.old }
    {
        if let Some(write) = self.pending.get(k) {
            let sector = write.sector;
            if sector < self.rows.count() {
                self.settle_sector(sector, number_for(numbers, sector));
            }
        }
    }

    // Leaves in a sector what the number chooses. Its write still waits.
    fn settle_sector(&mut self, sector: u32, number: u8)
        requires { sector < row_count 61 (memory self.old) }
        ensures settled { SettlesAt number sector (queued self.old)
            (memory self.old) (memory self.new) }
        ensures pending { self.new.pending ≡ self.old.pending }
        ensures same { memory_at self.new ≡ memory_at self.old }
    {
        match number {
            KEEP => {}
            TEAR => {
                if self.nth_for(sector, 0).is_some() {
                    self.tear(sector);
                }
            }
            k => {
                if let Some(write) = self.nth_for(sector, usize::from(k) - 1) {
                    let row = marked(&write.bytes, READABLE);
                    self.rows.put(sector, &row).unwrap();
                }
            }
        }
    }

    // The write for a sector before which k others wait for it.
    fn nth_for(&self, sector: u32, k: usize) -> Option<PendingWrite>
        ensures { result ≡ slice_get (filter (λ w. w.sector == sector) (queued self.now)) k }
    {
        let (older, younger) = self.pending.as_slices();
        nth_of(older, younger, sector, k)
    }

    // Tears a sector, and leaves every byte but the mark.
    fn tear(&mut self, sector: u32)
        requires { sector < row_count 61 (memory self.old) }
        ensures memory { memory self.new
            ≡ with_row 61 (memory self.old) sector (torn_row (row_in 61 (memory self.old) sector)) }
        ensures pending { self.new.pending ≡ self.old.pending }
        ensures same { memory_at self.new ≡ memory_at self.old }
    {
        let (bytes, _) = self.rows.get(sector).unwrap().split_at(PAYLOAD);
        let torn = marked(bytes, TORN);
        self.rows.put(sector, &torn).unwrap();
    }
}

// The write for a sector before which k others of these writes are for it.
fn nth_of(
    older: &[PendingWrite],
    younger: &[PendingWrite],
    sector: u32,
    k: usize,
) -> Option<PendingWrite>
    ensures { result ≡ slice_get (filter (λ w. w.sector == sector) (older.now ++ younger.now)) k }
{
    older
        .iter()
        .chain(younger)
        .filter(|write| write.sector == sector)
        .nth(k)
        .copied()
}

// The number for a sector; a missing one counts as 0.
fn number_for(numbers: &[u8], sector: u32) -> u8
    ensures { result ≡ slice_index numbers.now sector }
{
    numbers.get(sector as usize).copied().unwrap_or(KEEP)
}
