//! What stands at a position of the log.
ghost use Rattle.std.specs.Prelude.{◌≡◌, ◌+◌, ◌<◌, [], ◌∷◌};
ghost use Rattle.device.specs.Sector.{Image, payload};
ghost use Rattle.image.specs.Looking.{Tells};
ghost use Rattle.image.specs.Phases.{Just};
ghost use Rattle.image.specs.Headers.{log_sector};
ghost use Rattle.image.specs.Entries.{IsEntryAt};

use crate::Off;
use crate::reading::look;
use device::{Device, PAYLOAD};
use layout::{Header, LOG, Record};

/// A record of the header's epoch at its own position, or the log's end.
#[derive(Clone, Copy, Debug, PartialEq, Eq)]
pub(crate) enum Entry {
    Page { home: u32 },
    Commit { pages: u32, number: u32 },
    End,
}

// What the log sector at a position is.
pub(crate) fn entry_at<D: Device>(
    device: &mut D,
    header: Header,
    position: u16,
) -> Result<Entry, Off>
    ensures { Tells ⟦<D as Device>⟧ device.old device.new (Just (log_sector position ∷ []))
        (λ n σ e. log_sector position < n → IsEntryAt σ header position e) result }
{
    Ok(match look(device, LOG + u32::from(position))? {
        Some(bytes) => entry_of(&bytes, header, position),
        None => Entry::End,
    })
}

// What it is if it has these bytes.
fn entry_of(bytes: &[u8; PAYLOAD], header: Header, position: u16) -> Entry
    ensures { (σ : Image) → σ (log_sector position) ≡ payload bytes.now
        → IsEntryAt σ header position result }
{
    match Record::read(bytes, header.geometry) {
        Record::Page(page) if page.epoch == header.epoch && page.position == position =>
            Entry::Page { home: page.home },
        Record::Commit(commit) if commit.epoch == header.epoch && commit.position == position =>
            Entry::Commit {
                pages: commit.pages,
                number: commit.number,
            },
        _ => Entry::End,
    }
}
