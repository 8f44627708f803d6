//! The row image: a device over the caller's memory, 64 bytes a sector. What is written lasts at once, and it never turns off.
ghost use Rattle.std.specs.Prelude.{◌≡◌, ◌%◌, true, length, MatchResult, ◌≢◌};
ghost use Rattle.device.specs.Memory.{row_count, only};
ghost use Rattle.media.specs.Rows.{held};
ghost use Rattle.media.specs.Lawful.{rows_laws};

use crate::memory::{MemoryError, Refused};
use crate::rows::{ROW, payload_of, row_for};
use device::{Device, Fault, PAYLOAD, Rows};

/// A device over rows of the caller's memory.
#[derive(Drop)]
pub struct RowImage<'a> {
    rows: Rows<'a, ROW>,
}

impl<'a> RowImage<'a> {
    ghost use Rattle.media.specs.Cards.{memory, memory_at};

    /// A device over this memory, as it stands; refused, and given back, if it is not whole rows.
    pub fn new(rows: &'a mut [u8]) -> Result<RowImage<'a>, Refused<'a>>
        ensures made { MatchResult result
            (λ d. (length rows.old % 64 ≡ 0) × (memory d ≡ rows.old))
            (λ e. (length rows.old % 64 ≢ 0)
            × (e.reason ≡ MemoryError.NotWholeRows) × (e.rows.now ≡ rows.old)) }
        ensures same { MatchResult result
            (λ d. memory_at d ≡ rows.entry.ghost_name)
            (λ e. e.rows.ghost_name ≡ rows.entry.ghost_name) }
    {
        match Rows::new(rows) {
            Ok(rows) => Ok(RowImage { rows }),
            Err(rows) => {
                let reason = MemoryError::NotWholeRows;
                Err(Refused { reason, rows })
            }
        }
    }

    /// The memory, as it stands now.
    pub fn into_rows(self) -> &'a mut [u8]
        ensures value { result.now ≡ memory self.entry }
        ensures same { result.ghost_name ≡ memory_at self.entry }
    {
        self.rows.into_bytes()
    }
}

impl<'a> Device for RowImage<'a> {
    ghost use Rattle.media.specs.Cards.{memory, PutsInRow};

    // Together these are `rows_mean` of its memory.
    ghost count = { λ d. row_count 64 (memory d) };

    ghost on = { λ _. true };

    ghost current = { λ d. held (memory d) };

    ghost possible = { λ d. only (held (memory d)) };

    ghost laws = { λ d. rows_laws (memory d) };

    ghost reads = { λ d s x y r d'. d' ≡ d };

    ghost writes = { λ d s b r d'. PutsInRow s b r d d' };

    ghost flushes = { λ d r d'. d' ≡ d };

    fn count(&self) -> u32 {
        self.rows.count()
    }

    fn is_on(&self) -> bool {
        true
    }

    #[tactic(auto, unfolding(device::specs::Memory::held_by))]
    fn read(&mut self, sector: u32, into: &mut [u8; PAYLOAD]) -> Result<(), Fault> {
        let row = self.rows.get(sector)?;
        let bytes = payload_of(sector, row)?;
        into.copy_from_slice(bytes);
        Ok(())
    }

    fn write(&mut self, sector: u32, bytes: &[u8; PAYLOAD]) -> Result<(), Fault> {
        self.rows.get(sector)?; // before a checksum is made for a row that is not there
        self.rows.put(sector, &row_for(sector, bytes))
    }

    fn flush(&mut self) -> Result<(), Fault> {
        Ok(()) // nothing waits
    }
}
