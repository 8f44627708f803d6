//! Why an image is no heap's, and why a stage of an opening fails.
ghost use Rattle.std.specs.Prelude.{◌≡◌};
ghost use Rattle.image.specs.declared.refusal.StageError.TheVariants.{Off as TurnedOff, NoHeap as HoldsNone};

use crate::Off;
use thiserror::Error;

/// What is wrong with an image that holds no heap. `specs/Refusals.antt` has the number of each and its values.
#[derive(Clone, Copy, Debug, PartialEq, Eq, Error)]
pub enum ImageRefusal {
    #[error("there is no valid header")]
    NoHeader,
    #[error("the log has a record of a later epoch in sector {sector}")]
    LaterEpoch { sector: u32 },
    #[error("the home in sector {sector} cannot be read, and no committed record has its page")]
    Torn { sector: u32 },
    #[error("the page of sector {sector} is unlawful")]
    Unlawful { sector: u32 },
    #[error("data word {word} of the page of sector {sector} refers to no object")]
    Dangling { sector: u32, word: usize },
}

impl ImageRefusal {
    ghost use Rattle.image.specs.Refusals.{told, sector_told, word_told};

    /// The number that the refusal goes by in documents and in programs' output.
    // A method and no `From` for `u8`: its name says which number is meant.
    pub fn number(self) -> u8
        ensures { result ≡ (told self).number }
    {
        match self {
            ImageRefusal::Torn { .. } => 3,
            ImageRefusal::NoHeader => 14,
            ImageRefusal::LaterEpoch { .. } => 15,
            ImageRefusal::Unlawful { .. } => 16,
            ImageRefusal::Dangling { .. } => 17,
        }
    }

    /// The sector that it tells of, if it tells of one.
    pub fn sector(self) -> Option<u32>
        ensures { result ≡ sector_told (told self).values }
    {
        match self {
            ImageRefusal::NoHeader => None,
            ImageRefusal::LaterEpoch { sector }
            | ImageRefusal::Torn { sector }
            | ImageRefusal::Unlawful { sector }
            | ImageRefusal::Dangling { sector, .. } => Some(sector),
        }
    }

    /// The data word that it tells of, if it tells of one.
    pub fn word(self) -> Option<usize>
        ensures { result ≡ word_told (told self).values }
    {
        match self {
            ImageRefusal::Dangling { word, .. } => Some(word),
            _ => None,
        }
    }
}

/// Why a stage of an opening fails.
#[derive(Clone, Copy, Debug, PartialEq, Eq, Error)]
pub enum StageError {
    #[error("the device is off")]
    Off,
    #[error("{0}")]
    NoHeap(ImageRefusal),
}

impl From<Off> for StageError {
    ghost from_gives = { λ _ error. error ≡ TurnedOff };

    fn from(_: Off) -> StageError {
        StageError::Off
    }
}

impl From<ImageRefusal> for StageError {
    ghost from_gives = { λ refusal error. error ≡ HoldsNone refusal };

    fn from(refusal: ImageRefusal) -> StageError {
        StageError::NoHeap(refusal)
    }
}
