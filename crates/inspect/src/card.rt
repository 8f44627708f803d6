//! A card image in memory, as a device that is only read.
ghost use Rattle.std.specs.Prelude.{◌≡◌, ◌≤◌, MatchResult};
ghost use Rattle.device.specs.Calling.{OnlyReads};
ghost use Rattle.media.specs.Cards.{memory};
ghost use Rattle.media.specs.Rows.{rows_mean};
ghost use Rattle.survey.specs.Images.{IsImage, IsNoImage};
ghost use Rattle.inspect.specs.Cards.{ToldOf};

use audit::{CheckError, check};
use image::{Counts, ImageRefusal};
use layout::HANDLES;
use media::RowImage;
use survey::{ImageError, LONGEST, SECTORS};

// How many handles the longest image has.
const ALL_HANDLES: usize = HANDLES as usize * SECTORS;

/// The card that an image is of.
pub(crate) fn card_of(image: &mut [u8]) -> Result<RowImage<'_>, ImageError>
    ensures { MatchResult result
        (λ card. IsImage image.old × (memory card ≡ image.old))
        (IsNoImage image.old) }
{
    if image.len() > LONGEST {
        return Err(ImageError::TooLong);
    }
    Ok(RowImage::new(image)?)
}

/// What a card holds: the numbers of its heap, or the refusal that its image gets.
pub(crate) fn check_card(card: &mut RowImage<'_>) -> Result<Counts, ImageRefusal>
    requires { (rows_mean (memory card.old)).count ≤ 1024 }
    ensures told { ToldOf (rows_mean (memory card.old)) result }
    ensures stays { OnlyReads (rows_mean (memory card.old)) (rows_mean (memory card.new)) }
{
    let mut marks = [0; ALL_HANDLES];
    let mut numbers = [0; ALL_HANDLES];
    match check(card, &mut marks, &mut numbers) {
        Ok(counts) => Ok(counts),
        Err(CheckError::NoHeap(refusal)) => Err(refusal),
        // a row image is never off
        Err(CheckError::Off) => unreachable!(),
        // there is memory enough for every card image
        Err(CheckError::ShortMemory) => unreachable!(),
    }
}
