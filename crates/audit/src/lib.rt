//! The check of a card: what its image holds is judged and counted, and nothing is written.
#![tactic(auto)]

ghost use Rattle.std.specs.Prelude.{◌≡◌, ◌≤◌, length, replicate};
ghost use Rattle.device.specs.Means.{means};
ghost use Rattle.device.specs.Calling.{OnlyReads};
ghost use Rattle.audit.specs.Checks.{wanted, Checks};
ghost use Rattle.audit.specs.Order.{ChecksBy, CheckReads, CountReads, RefusalReads, JudgedWhole};
ghost use Rattle.image.specs.Heaps.{Heap, Counted};
ghost use Rattle.image.specs.Images.{Holds, Judged};
ghost use Rattle.image.specs.Looking.{FindsBy};
ghost use Rattle.image.specs.Stages.{IsJudgedOf};

mod error;
mod reads;
mod walk;
mod zeroed;

use device::Device;
pub use error::CheckError;
use image::{Counts, HeadersRead, LogRead, PagesJudged, StageError};
use layout::HANDLES;
pub use reads::of_all_reads;
use walk::count_reachable;
use zeroed::Zeroed;

/// Judges what a card holds now, and counts it. It wants 16 marks and 16 numbers of the caller's for each sector of the device; what they
/// held has no influence, and they are zero afterwards, whatever the answer, unless they are too few.
pub fn check<D: Device>(
    device: &mut D,
    marks: &mut [u8],
    numbers: &mut [u16],
) -> Result<Counts, CheckError>
    ensures calls { ChecksBy ⟦<D as Device>⟧ device.old device.new result }
    ensures stays { OnlyReads
        (means ⟦<D as Device>⟧ device.old) (means ⟦<D as Device>⟧ device.new) }
    ensures checked { Checks (means ⟦<D as Device>⟧ device.old) (means ⟦<D as Device>⟧ device.new)
        marks.old marks.new numbers.old numbers.new result }
{
    let wanted = HANDLES as usize * device.count() as usize;
    if marks.len() < wanted || numbers.len() < wanted {
        return Err(CheckError::ShortMemory);
    }
    Ok(count_with(device, &mut marks[..wanted], &mut numbers[..wanted])?)
}

// Judges and counts with just as much memory as that wants, which is zero afterwards.
fn count_with<D: Device>(
    device: &mut D,
    marks: &mut [u8],
    numbers: &mut [u16],
) -> Result<Counts, StageError>
    requires marks { length marks.old ≡ wanted (D.count device.old) }
    requires numbers { length numbers.old ≡ wanted (D.count device.old) }
    ensures marks { marks.new ≡ replicate (wanted (D.count device.old)) 0 }
    ensures numbers { numbers.new ≡ replicate (wanted (D.count device.old)) 0 }
    ensures found { FindsBy ⟦<D as Device>⟧ device.old device.new
        (CheckReads (D.count device.old) (D.current device.old))
        (λ ss n σ c. CountReads n σ c ss × ((H : Heap) × Holds n σ H × Counted H c))
        (λ ss n σ q. RefusalReads n σ q ss × Judged n σ q) result }
{
    let marks = Zeroed(marks);
    let numbers = Zeroed(numbers);
    marks.0.fill(0);
    count(device, marks.0, numbers.0)
}

// Judges the image that the device shows, and counts what it holds. No handle is marked yet.
fn count<D: Device>(
    device: &mut D,
    marks: &mut [u8],
    numbers: &mut [u16],
) -> Result<Counts, StageError>
    requires clear { marks.old ≡ replicate (wanted (D.count device.old)) 0 }
    requires room { length marks.old ≤ length numbers.old }
    ensures { FindsBy ⟦<D as Device>⟧ device.old device.new
        (CheckReads (D.count device.old) (D.current device.old))
        (λ ss n σ c. CountReads n σ c ss × ((H : Heap) × Holds n σ H × Counted H c))
        (λ ss n σ q. RefusalReads n σ q ss × Judged n σ q) result }
{
    let judged = judge(device)?;
    let reachable = count_reachable(device, &judged, marks, numbers)?;
    Ok(Counts {
        transactions: judged.transactions(),
        free_pages: judged.free_pages(),
        objects: judged.objects(),
        reachable,
    })
}

// Judges the image that the device shows.
fn judge<D: Device>(device: &mut D) -> Result<PagesJudged, StageError>
    ensures { FindsBy ⟦<D as Device>⟧ device.old device.new
        (CheckReads (D.count device.old) (D.current device.old))
        (λ ss n σ x. JudgedWhole n σ x ss × ((H : Heap) × IsJudgedOf n σ H x))
        (λ ss n σ q. RefusalReads n σ q ss × Judged n σ q) result }
{
    let headers = HeadersRead::read(device)?;
    let log = LogRead::read(device, headers)?;
    PagesJudged::judge(device, log)
}
