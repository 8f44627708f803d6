//! The third stage of an opening: the pages are judged.
ghost use Rattle.std.specs.Prelude.{◌≡◌, ℕ, ◌<◌, ◌↔◌, [], ◌∷◌, MatchOption, count_by};
ghost use Rattle.std.specs.List.{sum_by};
ghost use Rattle.device.specs.Sector.{Image};
ghost use Rattle.layout.specs.declared.page.Page.{Page as APage};
ghost use Rattle.layout.specs.Geometries.{IsPage};
ghost use Rattle.image.specs.Heaps.{Heap, HasPage, is_free, objects_of, NoneDangles, FirstDangling};
ghost use Rattle.image.specs.Looking.{Finds, FindsBy};
ghost use Rattle.image.specs.Phases.{Just, twice};
ghost use Rattle.image.specs.Images.{Judged, Shows};
ghost use Rattle.image.specs.Stages.{IsReadOf, page_count, nth_body, all_bodies, EndsAtFault, EndsAtDangling, JudgeEnds};
ghost use Rattle.image.specs.Tallies.{IsTallyOfHeap};

use crate::log::LogRead;
use crate::pages::{page_of, shown_page};
use crate::tally::Tally;
use crate::{ImageRefusal, StageError};
use device::Device;
use layout::Page;

/// The pages of a card, as they were judged: each is lawful, and each reference has its object.
#[derive(Debug, Drop)]
pub struct PagesJudged {
    log: LogRead,
    free_pages: u32,
    objects: u32,
}

impl PagesJudged {
    ghost use Rattle.image.specs.Stages.{IsJudgedOf, judged_log, division_of, body_sector, IsPageRead, IsPageFault, IsJudgedPage, IsAnother};

    /// Judges the pages by the log that was read.
    // Each page by itself first, and then each reference: that wants to know all objects.
    pub fn judge<D: Device>(device: &mut D, log: LogRead) -> Result<PagesJudged, StageError>
        ensures { FindsBy ⟦<D as Device>⟧ device.old device.new
            (Just (twice (nth_body log) (page_count log)))
            (λ ss n σ x. (ss ≡ twice (nth_body log) (page_count log)) × (judged_log x ≡ log)
            × (IsReadOf n σ log → (H : Heap) × IsJudgedOf n σ H x))
            (λ ss n σ q. JudgeEnds log ss q × (IsReadOf n σ log → Judged n σ q)) result }
    {
        let tally = tally_pages(device, &log)?;
        if let Some((sector, word)) = first_dangling(device, &log, &tally)? {
            return Err(ImageRefusal::Dangling { sector, word }.into());
        }
        Ok(PagesJudged {
            log,
            free_pages: tally.free_pages,
            objects: tally.objects,
        })
    }

    /// The count of transactions.
    pub fn transactions(&self) -> u32
        ensures { (n : ℕ) (σ : Image) (H : Heap) → IsJudgedOf n σ H self.now
            → result ≡ H.transactions }
    {
        self.log.transactions()
    }

    /// How many pages are free.
    pub fn free_pages(&self) -> u32
        ensures { (n : ℕ) (σ : Image) (H : Heap) → IsJudgedOf n σ H self.now
            → result ≡ count_by is_free H.pages }
    {
        self.free_pages
    }

    /// How many objects there are.
    pub fn objects(&self) -> u32
        ensures { (n : ℕ) (σ : Image) (H : Heap) → IsJudgedOf n σ H self.now
            → result ≡ sum_by objects_of H.pages }
    {
        self.objects
    }

    /// The sector of the root page.
    pub fn root(&self) -> u32
        ensures { (n : ℕ) (σ : Image) (H : Heap) → IsJudgedOf n σ H self.now → result ≡ H.root }
    {
        self.log.header().geometry.root()
    }

    /// Reads the page of a sector again. A sector that is no page's has none, and then nothing is read.
    pub fn page<D: Device>(&self, device: &mut D, sector: u32) -> Result<Option<Page>, StageError>
        ensures outside { ¬ IsPage (division_of self.now) sector
            → (result ≡ Ok None) × (device.new ≡ device.old) }
        ensures inside { IsPage (division_of self.now) sector
            → Finds ⟦<D as Device>⟧ device.old device.new
            (Just (body_sector (judged_log self.now) sector ∷ []))
            (λ n σ o. (p : APage) × (o ≡ Some p) × IsPageRead σ (judged_log self.now) sector p
            × IsJudgedPage n σ self.now sector p)
            (λ n σ q. IsPageFault sector q × IsAnother n σ self.now) result }
        ensures pages { (n : ℕ) (σ : Image) (H : Heap) → IsJudgedOf n σ H self.now
            → IsPage (division_of self.now) sector ↔ HasPage H sector }
    {
        if !self.log.header().geometry.has_page(sector) {
            return Ok(None);
        }
        Ok(Some(shown_page(device, &self.log, sector)?))
    }
}

// What the pages hold, if each is lawful.
fn tally_pages<D: Device>(device: &mut D, log: &LogRead) -> Result<Tally, StageError>
    ensures { FindsBy ⟦<D as Device>⟧ device.old device.new (Just (all_bodies log.now))
        (λ ss n σ t. (ss ≡ all_bodies log.now)
        × (IsReadOf n σ log.now → (H : Heap) × Shows n σ H × IsTallyOfHeap H t))
        (λ ss n σ q. EndsAtFault log.now ss q × (IsReadOf n σ log.now → Judged n σ q)) result }
{
    let geometry = log.header().geometry;
    let mut tally = Tally::new();
    for sector in geometry.root()..geometry.sectors {
        let page = page_of(device, log, sector)?;
        tally.add(sector, &page);
    }
    Ok(tally)
}

// The first data word that refers to no object, in the first page with one.
fn first_dangling<D: Device>(
    device: &mut D,
    log: &LogRead,
    tally: &Tally,
) -> Result<Option<(u32, usize)>, StageError>
    ensures { FindsBy ⟦<D as Device>⟧ device.old device.new (Just (all_bodies log.now))
        (λ ss n σ o. EndsAtDangling log.now ss o
        × (IsReadOf n σ log.now → (H : Heap) → Shows n σ H → IsTallyOfHeap H tally.now
        → MatchOption o (NoneDangles H) (λ p. FirstDangling H p.0 p.1)))
        (λ ss n σ q. EndsAtFault log.now ss q
        × (IsReadOf n σ log.now → (H : Heap) → ¬ Shows n σ H)) result }
{
    let geometry = log.header().geometry;
    for sector in geometry.root()..geometry.sectors {
        let page = shown_page(device, log, sector)?;
        if let Some(word) = tally.dangling_word(&page) {
            return Ok(Some((sector, word)));
        }
    }
    Ok(None)
}
