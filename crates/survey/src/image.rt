//! Surveys of card images in memory.
ghost use Rattle.std.specs.Prelude.{◌≡◌};
ghost use Rattle.survey.specs.declared.condition.ImageError.TheVariants.{NotWholeRows};
ghost use Rattle.survey.specs.Images.{SurveysImage};

use crate::condition::{Condition, ImageError};
use crate::look::survey;
use media::{MemoryError, ROW, Refused, RowImage};

/// The most sectors that a card has.
pub const SECTORS: usize = 1024;

/// The most bytes that a card image has.
pub const LONGEST: usize = SECTORS * ROW;

impl From<Refused<'_>> for ImageError {
    ghost from_gives = { λ _ error. error ≡ NotWholeRows };

    fn from(refused: Refused<'_>) -> ImageError {
        match refused.reason {
            MemoryError::NotWholeRows => ImageError::NotWholeRows,
        }
    }
}

/// Puts the condition of each sector of a card image into the caller's table, and tells how many sectors there are.
pub fn survey_image(
    mut image: Vec<u8>,
    table: &mut [Condition; SECTORS], // the caller's: a survey allocates nothing
) -> Result<usize, ImageError>
    ensures { SurveysImage image.items table.old table.new result }
{
    if image.len() > LONGEST {
        return Err(ImageError::TooLong);
    }
    let mut rows = RowImage::new(&mut image)?;
    // the table has a place for every row, and a row image is never off
    Ok(survey(&mut rows, table).unwrap())
}
