//! The caller's memory as rows of one length, a row for each sector.
ghost use Rattle.std.specs.Prelude.{◌≡◌, ◌≢◌, ◌+◌, ◌*◌, ◌%◌, ◌<◌, ◌≤◌, length, MatchResult};
ghost use Rattle.device.specs.Memory.{bytes_of, bytes_at, row_count, row_in, Lacks, PutsRow};

use crate::Fault;

/// Rows of `ROW` bytes in the caller's memory.
// That a call leaves it on the same memory is a clause, `same`: it is about before and after, which no type can tell.
#[derive(Drop)]
pub struct Rows<'a, const ROW: usize> {
    bytes: &'a mut [u8],
}

impl<'a, const ROW: usize> Rows<'a, ROW> {
    /// Rows in this memory, as it stands. If it does not end where a row ends, it is given back as it was.
    // A borrow ends by itself; it is given back so that the contract can say what it holds then.
    pub fn new(bytes: &'a mut [u8]) -> Result<Rows<'a, ROW>, &'a mut [u8]>
        ensures made { MatchResult result
            (λ r. (length bytes.old % ROW ≡ 0) × (bytes_of r ≡ bytes.old))
            (λ b. (length bytes.old % ROW ≢ 0) × (b.now ≡ bytes.old)) }
        ensures same { MatchResult result
            (λ r. bytes_at r ≡ bytes.entry.ghost_name)
            (λ b. b.ghost_name ≡ bytes.entry.ghost_name) }
    {
        if !bytes.len().is_multiple_of(ROW) {
            return Err(bytes);
        }
        Ok(Rows { bytes })
    }

    /// The memory, as it stands now.
    pub fn into_bytes(self) -> &'a mut [u8]
        ensures value { result.now ≡ bytes_of self.entry }
        ensures same { result.ghost_name ≡ bytes_at self.entry }
    {
        let Rows { bytes } = self;
        bytes
    }
}

impl<const ROW: usize> Rows<'_, ROW> {
    /// How many sectors there are.
    pub fn count(&self) -> u32
        ensures { result ≡ row_count ROW (bytes_of self.now) }
    {
        let rows = self.bytes.len().checked_div(ROW).unwrap_or(0);
        u32::try_from(rows).unwrap_or(u32::MAX)
    }

    /// The row of a sector, if there is one.
    pub fn get(&self, sector: u32) -> Result<&[u8], Fault>
        ensures { MatchResult result
            (λ row. (sector < row_count ROW (bytes_of self.now))
            × (row.now ≡ row_in ROW (bytes_of self.now) sector)
            × (length row.now ≡ ROW))
            (Lacks ROW (bytes_of self.now) sector) }
    {
        let at = self.place(sector)?;
        Ok(&self.bytes[at..at + ROW])
    }

    /// Puts a row in the place of a sector's, if there is one, and leaves every other byte.
    pub fn put(&mut self, sector: u32, row: &[u8; ROW]) -> Result<(), Fault>
        ensures put { PutsRow ROW (bytes_of self.old) sector row.now result (bytes_of self.new) }
        ensures same { bytes_at self.new ≡ bytes_at self.old }
    {
        let at = self.place(sector)?;
        self.bytes[at..at + ROW].copy_from_slice(row);
        Ok(())
    }

    // Where the row of a sector begins, if there is one.
    fn place(&self, sector: u32) -> Result<usize, Fault>
        ensures { MatchResult result
            (λ at. (sector < row_count ROW (bytes_of self.now))
            × (at ≡ sector * ROW)
            × (at + ROW ≤ length (bytes_of self.now)))
            (Lacks ROW (bytes_of self.now) sector) }
    {
        if sector >= self.count() {
            return Err(Fault::NoSector);
        }
        Ok(sector as usize * ROW)
    }
}
