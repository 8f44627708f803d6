//! The walk over all objects that can be reached.
ghost use Rattle.std.specs.Prelude.{◌≡◌, ℕ, ◌+◌, ◌*◌, ◌^◌, ◌<◌, ◌≤◌, length, take, drop, replicate};
ghost use Rattle.std.specs.List.{All};
ghost use Rattle.device.specs.Queues.{waiting, places};
ghost use Rattle.layout.specs.declared.word.Word.TheVariants.{Reference};
ghost use Rattle.layout.specs.Classes.{size_of, slots_of};
ghost use Rattle.image.specs.Heaps.{Heap, CountsReached};
ghost use Rattle.image.specs.Looking.{FindsBy};
ghost use Rattle.image.specs.Stages.{IsJudgedOf, judged_log};
ghost use Rattle.audit.specs.Order.{IsBody};
ghost use Rattle.audit.specs.Visits.{handle, HasRoom, Refer, Visits};

use device::{Device, Queue};
use image::{PagesJudged, StageError};
use layout::{Handle, Page, Word};

// Counts the objects that can be reached. Each is marked when it is queued, so that it is queued once, and there is room for all.
pub(crate) fn count_reachable<D: Device>(
    device: &mut D,
    judged: &PagesJudged,
    marks: &mut [u8],
    numbers: &mut [u16],
) -> Result<u32, StageError>
    requires judged { (H : Heap)
        × IsJudgedOf (D.count device.old) (D.current device.old) H judged.now }
    requires clear { marks.old ≡ replicate (16 * D.count device.old) 0 }
    requires room { length marks.old ≤ length numbers.old }
    ensures { FindsBy ⟦<D as Device>⟧ device.old device.new (All (IsBody (judged_log judged.now)))
        (λ ws n σ k. All (IsBody (judged_log judged.now)) ws × (length ws ≡ k + 1)
        × ((H : Heap) → IsJudgedOf n σ H judged.now → CountsReached H k))
        (λ ws n σ q. ⊥) result }
{
    // the root page and the page of an object are pages
    let root = judged.page(device, judged.root())?.unwrap();
    let mut queue = Queue::new(numbers);
    visit_all(marks, &mut queue, &root.words);
    let mut count = 0;
    while let Some(number) = queue.pop() {
        let handle = Handle(u32::from(number));
        let page = judged.page(device, handle.sector())?.unwrap();
        visit_all(marks, &mut queue, words_of(&page, handle.slot()));
        count += 1;
    }
    Ok(count)
}

// The words of a slot.
fn words_of(page: &Page, slot: usize) -> &[Word]
    requires { slot < slots_of page.now.class }
    ensures { result.now
        ≡ take (size_of page.now.class) (drop (slot * size_of page.now.class) page.now.words) }
{
    let size = page.class.size();
    let first = slot * size;
    &page.words[first..first + size]
}

// Marks and queues what the words refer to, as far as it is not marked.
fn visit_all(marks: &mut [u8], queue: &mut Queue<'_, u16>, words: &[Word])
    requires few { length marks.old ≤ 2 ^ 16 }
    requires inside { (k : ℕ) → Refer words.now k → k < length marks.old }
    requires room { HasRoom marks.old queue.old }
    ensures visits { Visits (Refer words.now)
        marks.old (waiting queue.old) marks.new (waiting queue.new) }
    ensures places { places queue.new ≡ places queue.old }
{
    for word in words {
        visit(marks, queue, *word);
    }
}

// Marks and queues what the word refers to, if that is not marked.
fn visit(marks: &mut [u8], queue: &mut Queue<'_, u16>, word: Word)
    requires few { length marks.old ≤ 2 ^ 16 }
    requires inside { (k : ℕ) → word ≡ Reference (handle k) → k < length marks.old }
    requires room { HasRoom marks.old queue.old }
    ensures visits { Visits (λ k. word ≡ Reference (handle k))
        marks.old (waiting queue.old) marks.new (waiting queue.new) }
    ensures places { places queue.new ≡ places queue.old }
{
    let Word::Reference(handle) = word else {
        return;
    };
    let at = handle.0 as usize;
    if marks[at] != 0 {
        return;
    }
    marks[at] = 1;
    // there is a place for each handle that is not marked
    let _ = queue.push(handle.0 as u16);
}
