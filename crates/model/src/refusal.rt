//! Why a call on a heap is turned away.
ghost use Rattle.std.specs.Prelude.{◌≡◌};
ghost use Rattle.image.specs.Refusals.{sector_told, word_told};

use image::{ImageRefusal, StageError};
use thiserror::Error;

/// A call that is turned away answers one of these. `specs/Refusals.antt` has the number of each, its values and its rank.
#[derive(Clone, Copy, Debug, PartialEq, Eq, Error)]
pub enum Refusal {
    #[error("the device is off")]
    Off,
    #[error("the device has no such sector")]
    NoSector,
    #[error("the home in sector {sector} cannot be read, and no committed record has its page")]
    Torn { sector: u32 },
    #[error("the heap is shut")]
    Shut,
    #[error("a transaction is open")]
    TransactionOpen,
    #[error("the ticket is not that of the open transaction")]
    WrongTicket,
    #[error("a size, an index or a root is out of range")]
    OutOfRange,
    #[error("the handle has no object")]
    NoObject,
    #[error("a root or another object refers to the object")]
    Referred,
    #[error("no page can serve")]
    NoRoom,
    #[error("a ninth page would change")]
    NinthPage,
    #[error("the last number is used up")]
    LastNumber,
    #[error("a log length or a count of sectors is outside its limits")]
    BadGeometry,
    #[error("there is no valid header")]
    NoHeader,
    #[error("the log has a record of a later epoch in sector {sector}")]
    LaterEpoch { sector: u32 },
    #[error("the page of sector {sector} is unlawful")]
    Unlawful { sector: u32 },
    #[error("data word {word} of the page of sector {sector} refers to no object")]
    Dangling { sector: u32, word: usize },
    #[error("the memory is too short")]
    ShortMemory,
}

impl Refusal {
    ghost use Rattle.model.specs.Refusals.{told, rank};

    /// The number that the refusal goes by in documents and in programs' output.
    // A method and no `From` for `u8`: its name says which number is meant.
    pub fn number(self) -> u8
        ensures { result ≡ (told self).number }
    {
        match self {
            Refusal::Off => 1,
            Refusal::NoSector => 2,
            Refusal::Torn { .. } => 3,
            Refusal::Shut => 4,
            Refusal::TransactionOpen => 5,
            Refusal::WrongTicket => 6,
            Refusal::OutOfRange => 7,
            Refusal::NoObject => 8,
            Refusal::Referred => 9,
            Refusal::NoRoom => 10,
            Refusal::NinthPage => 11,
            Refusal::LastNumber => 12,
            Refusal::BadGeometry => 13,
            Refusal::NoHeader => 14,
            Refusal::LaterEpoch { .. } => 15,
            Refusal::Unlawful { .. } => 16,
            Refusal::Dangling { .. } => 17,
            Refusal::ShortMemory => 18,
        }
    }

    /// The sector that it tells of, if it tells of one.
    pub fn sector(self) -> Option<u32>
        ensures { result ≡ sector_told (told self).values }
    {
        match self {
            Refusal::Torn { sector }
            | Refusal::LaterEpoch { sector }
            | Refusal::Unlawful { sector }
            | Refusal::Dangling { sector, .. } => Some(sector),
            _ => None,
        }
    }

    /// The data word that it tells of, if it tells of one.
    pub fn word(self) -> Option<usize>
        ensures { result ≡ word_told (told self).values }
    {
        match self {
            Refusal::Dangling { word, .. } => Some(word),
            _ => None,
        }
    }

    /// Its place in the order in which refusals are tried: of two that apply to a call, the one of lower rank is told.
    // Not its number: numbers are given once, and a later refusal may be tried before an earlier one.
    pub fn rank(self) -> u8
        ensures { result ≡ rank self }
    {
        match self {
            Refusal::Off => 0,
            Refusal::NoSector => 1,
            Refusal::ShortMemory => 2,
            Refusal::NoHeader => 3,
            Refusal::LaterEpoch { .. } => 4,
            Refusal::Torn { .. } | Refusal::Unlawful { .. } => 5,
            Refusal::Dangling { .. } => 6,
            Refusal::Shut => 7,
            Refusal::TransactionOpen => 8,
            Refusal::WrongTicket => 9,
            Refusal::OutOfRange => 10,
            Refusal::NoObject => 11,
            Refusal::Referred => 12,
            Refusal::NoRoom => 13,
            Refusal::NinthPage => 14,
            Refusal::LastNumber => 15,
            Refusal::BadGeometry => 16,
        }
    }
}

impl From<ImageRefusal> for Refusal {
    ghost use Rattle.model.specs.Refusals.{of_image};

    ghost from_gives = { λ found refusal. refusal ≡ of_image found };

    fn from(found: ImageRefusal) -> Refusal {
        match found {
            ImageRefusal::NoHeader => Refusal::NoHeader,
            ImageRefusal::LaterEpoch { sector } => Refusal::LaterEpoch { sector },
            ImageRefusal::Torn { sector } => Refusal::Torn { sector },
            ImageRefusal::Unlawful { sector } => Refusal::Unlawful { sector },
            ImageRefusal::Dangling { sector, word } => Refusal::Dangling { sector, word },
        }
    }
}

impl From<StageError> for Refusal {
    ghost use Rattle.model.specs.Refusals.{of_stage};

    ghost from_gives = { λ error refusal. refusal ≡ of_stage error };

    fn from(error: StageError) -> Refusal {
        match error {
            StageError::Off => Refusal::Off,
            StageError::NoHeap(found) => Refusal::from(found),
        }
    }
}

#[cfg(test)]
mod tests {
    use super::*;

    // In the order in which they are tried: the number of each, and its rank.
    #[test]
    fn numbers_and_ranks(rt: HostRuntime) {
        let sector = 5;
        let word = 9;
        let refusals = [
            (Refusal::Off, 1, 0),
            (Refusal::NoSector, 2, 1),
            (Refusal::ShortMemory, 18, 2),
            (Refusal::NoHeader, 14, 3),
            (Refusal::LaterEpoch { sector }, 15, 4),
            (Refusal::Torn { sector }, 3, 5),
            (Refusal::Unlawful { sector }, 16, 5),
            (Refusal::Dangling { sector, word }, 17, 6),
            (Refusal::Shut, 4, 7),
            (Refusal::TransactionOpen, 5, 8),
            (Refusal::WrongTicket, 6, 9),
            (Refusal::OutOfRange, 7, 10),
            (Refusal::NoObject, 8, 11),
            (Refusal::Referred, 9, 12),
            (Refusal::NoRoom, 10, 13),
            (Refusal::NinthPage, 11, 14),
            (Refusal::LastNumber, 12, 15),
            (Refusal::BadGeometry, 13, 16),
        ];
        for (refusal, number, rank) in refusals {
            assert_eq!(rt;
                (refusal.number(), refusal.rank()),
                (number, rank),
                "{refusal}"
            );
        }
    }

    #[test]
    fn of_a_stage(rt: HostRuntime) {
        let sector = 12;
        let torn = StageError::NoHeap(ImageRefusal::Torn { sector });
        assert_eq!(rt; Refusal::from(torn), Refusal::Torn { sector });
        assert_eq!(rt; Refusal::from(StageError::Off), Refusal::Off);
    }
}
