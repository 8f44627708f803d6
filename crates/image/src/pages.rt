//! The pages of a card, each read where it stands.
ghost use Rattle.std.specs.Prelude.{◌≡◌, ◌<◌, [], ◌∷◌, IsTrue, ◌↔◌, drop};
ghost use Rattle.device.specs.Sector.{payload};
ghost use Rattle.layout.specs.Homes.{home_bytes};
ghost use Rattle.image.specs.Looking.{Finds};
ghost use Rattle.image.specs.Phases.{Just};
ghost use Rattle.image.specs.Stages.{body_sector, IsBodyRead, IsPageRead, IsPageFault, NoHome, FindsBody, FindsNoBody, FindsPage, FindsNoPage, FindsShown, FindsNoneShown};

use crate::log::LogRead;
use crate::reading::look;
use crate::{ImageRefusal, StageError};
use device::{Device, PAYLOAD};
use layout::{Home, LOG, Page, body_of};

// The lawful page of a sector.
pub(crate) fn page_of<D: Device>(
    device: &mut D,
    log: &LogRead,
    sector: u32,
) -> Result<Page, StageError>
    ensures { Finds ⟦<D as Device>⟧ device.old device.new (Just (body_sector log.now sector ∷ []))
        (λ n σ. FindsPage n σ log.now sector)
        (λ n σ q. IsPageFault sector q × FindsNoPage n σ log.now sector q) result }
{
    let bytes = page_bytes(device, log, sector)?;
    let root = sector == log.header().geometry.root();
    let page = Page::decode_lawful(body_of(&bytes), root);
    page.ok_or(StageError::NoHeap(ImageRefusal::Unlawful { sector }))
}

// The page of a sector, where all are known to be lawful: that is not asked again.
pub(crate) fn shown_page<D: Device>(
    device: &mut D,
    log: &LogRead,
    sector: u32,
) -> Result<Page, StageError>
    ensures { Finds ⟦<D as Device>⟧ device.old device.new (Just (body_sector log.now sector ∷ []))
        (λ n σ p. IsPageRead σ log.now sector p × FindsShown n σ log.now sector p)
        (λ n σ q. IsPageFault sector q × FindsNoneShown n σ log.now sector) result }
{
    let bytes = page_bytes(device, log, sector)?;
    let page = Page::decode(body_of(&bytes));
    page.ok_or(StageError::NoHeap(ImageRefusal::Unlawful { sector }))
}

// The sector in which the body of a page stands, in its last 48 bytes: that of its last committed record, or else its home.
pub(crate) fn page_bytes<D: Device>(
    device: &mut D,
    log: &LogRead,
    sector: u32,
) -> Result<[u8; PAYLOAD], StageError>
    ensures { Finds ⟦<D as Device>⟧ device.old device.new (Just (body_sector log.now sector ∷ []))
        (λ n σ b. IsBodyRead σ log.now sector b × FindsBody n σ log.now sector (drop 12 b))
        (λ n σ q. IsPageFault sector q × FindsNoBody n σ log.now sector q) result }
{
    match log.record_of(sector) {
        Some(position) => {
            let bytes = look(device, LOG + position as u32)?;
            bytes.ok_or(StageError::NoHeap(ImageRefusal::Torn { sector }))
        }
        None => home_at(device, sector),
    }
}

// The bytes of the home in a sector.
fn home_at<D: Device>(device: &mut D, sector: u32) -> Result<[u8; PAYLOAD], StageError>
    ensures { Finds ⟦<D as Device>⟧ device.old device.new (Just (sector ∷ []))
        (λ n σ b. (σ sector ≡ payload b) × (home_bytes sector (drop 12 b) ≡ b))
        (λ n σ q. IsPageFault sector q × (sector < n → NoHome σ sector q)) result }
{
    let Some(bytes) = look(device, sector)? else {
        return Err(StageError::NoHeap(ImageRefusal::Torn { sector }));
    };
    if !is_home_of(&bytes, sector) {
        return Err(StageError::NoHeap(ImageRefusal::Unlawful { sector }));
    }
    Ok(bytes)
}

// Whether these are the bytes of the home of a page, with whatever body.
fn is_home_of(bytes: &[u8; PAYLOAD], sector: u32) -> bool
    ensures { IsTrue result ↔ (home_bytes sector (drop 12 bytes.now) ≡ bytes.now) }
{
    Home::decode(bytes).is_some_and(|home| home.sector == sector)
}
