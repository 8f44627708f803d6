//! The second stage of an opening: the log is read.
ghost use Rattle.std.specs.Prelude.{◌≡◌, ℕ, ◌+◌, ◌<◌, ◌≤◌, List, [], ◌∷◌, ◌++◌, IsTrue, ◌↔◌, MatchOption, slice_index_or, true, Some, None};
ghost use Rattle.std.specs.Bool.{MatchBool};
ghost use Rattle.device.specs.Sector.{Image};
ghost use Rattle.layout.specs.declared.header.Header.{Header as AHeader};
ghost use Rattle.image.specs.declared.entry.Entry.TheVariants.{Commit};
ghost use Rattle.image.specs.Headers.{IsHeaderOf, ShowsLater, log_sector, FindsNoneLater, FindsLater, TellsLater};
ghost use Rattle.device.specs.Calling.{each};
ghost use Rattle.image.specs.Looking.{Tells, TellsBy, FindsBy};
ghost use Rattle.image.specs.Phases.{Just, SomeOf, twice};
ghost use Rattle.image.specs.Entries.{IsEntryAt};

use crate::entry::{Entry, entry_at};
use crate::headers::HeadersRead;
use crate::reading::look;
use crate::{ImageRefusal, Off, StageError};
use device::Device;
use layout::{Header, LOG, MOST_LOG, MOST_SECTORS, shown_epoch};

/// The most positions that a log has.
const LONGEST_LOG: usize = MOST_LOG as usize;

/// The log of a card, as it was read.
#[derive(Debug, Drop)]
pub struct LogRead {
    header: Header,
    // of each position, the home of the page record there; none of a commit record
    homes: [Option<u32>; LONGEST_LOG],
    // of each sector, whether a position has its home: of most none has, and they need no search
    named: [bool; MOST_SECTORS],
    // the positions before this one are committed
    committed: u16,
    transactions: u32,
    ghost few: { committed ≤ 64 },
    ghost names: { (i s : ℕ) → slice_index_or homes i None ≡ Some s
        → IsTrue (slice_index_or named s true) },
}

impl LogRead {
    ghost use Rattle.image.specs.Stages.{header_of, log_header, log_transactions, IsRecordFor, IsReadFrom, HasRead, HasReadAll};

    /// Reads the log under the header that was read.
    pub fn read<D: Device>(device: &mut D, headers: HeadersRead) -> Result<LogRead, StageError>
        ensures { FindsBy ⟦<D as Device>⟧ device.old device.new
            (Just (twice log_sector (header_of headers).geometry.log))
            (λ ss n σ x. (log_header x ≡ header_of headers) × ((us : List ℕ)
            × SomeOf log_sector (header_of headers).geometry.log us
            × (ss ≡ each log_sector (header_of headers).geometry.log ++ us)
            × (IsHeaderOf n σ (header_of headers) → IsReadFrom n σ us x)))
            (TellsLater (header_of headers)) result }
    {
        let header = headers.into_header();
        if let Some(sector) = first_later(device, header)? {
            return Err(ImageRefusal::LaterEpoch { sector }.into());
        }
        Ok(LogRead::scan(device, header)?)
    }

    /// The header under which the log was read.
    pub fn header(&self) -> Header
        ensures { result ≡ log_header self.now }
    {
        self.header
    }

    /// The number of the last committed transaction, or else the header's count.
    pub fn transactions(&self) -> u32
        ensures { result ≡ log_transactions self.now }
    {
        self.transactions // as the last commit record left it
    }

    /// The position of the last committed record for the page of a sector, if there is one.
    pub fn record_of(&self, sector: u32) -> Option<usize>
        ensures { IsRecordFor self.now sector result }
    {
        if self.named.get(sector as usize) == Some(&false) {
            return None;
        }
        let committed = &self.homes[..usize::from(self.committed)];
        committed.iter().rposition(|home| *home == Some(sector))
    }

    // Reads the log position by position, up to its end.
    fn scan<D: Device>(device: &mut D, header: Header) -> Result<LogRead, Off>
        ensures { TellsBy ⟦<D as Device>⟧ device.old device.new
            (Just (each log_sector header.geometry.log))
            (λ ss n σ x. SomeOf log_sector header.geometry.log ss × (log_header x ≡ header)
            × (header.geometry.sectors ≡ n → HasReadAll σ header ss x)) result }
    {
        let mut log = LogRead::new(header);
        for position in 0..header.geometry.log {
            let entry = entry_at(device, header, position)?;
            if !log.take_up(position, entry) {
                return Ok(log);
            }
        }
        Ok(log)
    }

    // A log of which nothing has been read.
    fn new(header: Header) -> LogRead
        ensures read { (σ : Image) → HasRead σ header 0 result }
        ensures header { log_header result ≡ header }
    {
        LogRead {
            header,
            homes: [None; LONGEST_LOG],
            named: [false; MOST_SECTORS],
            committed: 0,
            transactions: header.transactions,
        }
    }

    // Takes up what stands at the next position; false if the log ends before it.
    fn take_up(&mut self, position: u16, entry: Entry) -> bool
        requires { position < 64 }
        ensures taken { (σ : Image) (h : AHeader) → position < h.geometry.log
            → HasRead σ h position self.old → IsEntryAt σ h position entry
            → MatchBool result
            (HasRead σ h (position + 1) self.new)
            (HasReadAll σ h (each log_sector (position + 1)) self.new) }
        ensures kept { log_header self.new ≡ log_header self.old }
    {
        match entry {
            Entry::Page { home } => {
                note_home(&mut self.named, home);
                self.homes[usize::from(position)] = Some(home);
                true
            }
            Entry::Commit { pages, number } => self.take_commit(position, pages, number),
            Entry::End => false,
        }
    }

    // Takes up a commit record, if it is the one that may stand there; false if the log ends before it.
    fn take_commit(&mut self, position: u16, pages: u32, number: u32) -> bool
        requires { position < 64 }
        ensures taken { (σ : Image) (h : AHeader) → position < h.geometry.log
            → HasRead σ h position self.old → IsEntryAt σ h position (Commit pages number)
            → MatchBool result
            (HasRead σ h (position + 1) self.new)
            (HasReadAll σ h (each log_sector (position + 1)) self.new) }
        ensures kept { log_header self.new ≡ log_header self.old }
    {
        let pending = position.saturating_sub(self.committed);
        // on wider numbers: none follows the last of 32 bits
        let next = u64::from(self.transactions) + 1;
        if pages != u32::from(pending) {
            return false;
        }
        if u64::from(number) != next {
            return false;
        }
        self.homes[usize::from(position)] = None;
        self.committed = position + 1;
        self.transactions = number;
        true
    }
}

// Notes that a position has the home in a sector.
fn note_home(named: &mut [bool; MOST_SECTORS], sector: u32)
    ensures noted { IsTrue (slice_index_or named.new sector true) }
    ensures kept { (s : ℕ) → IsTrue (slice_index_or named.old s true)
        → IsTrue (slice_index_or named.new s true) }
{
    let at = sector as usize;
    if at < MOST_SECTORS {
        named[at] = true;
    } // a sector that no card has counts as noted
}

// The lowest sector of the log that shows an epoch above the header's, if there is one.
fn first_later<D: Device>(device: &mut D, header: Header) -> Result<Option<u32>, Off>
    ensures { TellsBy ⟦<D as Device>⟧ device.old device.new
        (Just (each log_sector header.geometry.log))
        (λ ss n σ o. MatchOption o
        (FindsNoneLater header ss n σ)
        (FindsLater header ss n σ)) result }
{
    for sector in LOG..header.geometry.root() {
        if is_later_at(device, header.epoch, sector)? {
            return Ok(Some(sector));
        }
    }
    Ok(None)
}

// Whether a sector shows an epoch above this one.
fn is_later_at<D: Device>(device: &mut D, epoch: u32, sector: u32) -> Result<bool, Off>
    ensures { Tells ⟦<D as Device>⟧ device.old device.new (Just (sector ∷ []))
        (λ n σ b. IsTrue b ↔ ShowsLater epoch n σ sector) result }
{
    let Some(bytes) = look(device, sector)? else {
        return Ok(false);
    };
    Ok(shown_epoch(&bytes).is_some_and(|shown| shown > epoch))
}
