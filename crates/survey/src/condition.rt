//! What can be told of a sector by reading it, runs of neighbours, and a verdict on all.
ghost use Rattle.std.specs.Prelude.{Some};
ghost use Rattle.survey.specs.Texts.{run_text, sentence};

use std::fmt;
use thiserror::Error;

/// The condition of a sector.
#[derive(Clone, Copy, Debug, PartialEq, Eq)]
pub enum Condition {
    /// readable, and all zero
    Blank,
    /// readable, with something in it
    Written,
    /// not readable
    Torn,
}

/// Sectors first to last, both included.
#[derive(Clone, Copy, Debug, PartialEq, Eq)]
pub struct Run {
    pub first: usize,
    pub last: usize,
}

impl fmt::Display for Run {
    ghost output = { λ run. Some (run_text run) };

    fn fmt<W: fmt::Write>(&self, f: &mut fmt::Formatter<W>) -> fmt::Result {
        let Run { first, last } = self;
        if first == last {
            write!(f, "{first}")
        } else {
            write!(f, "{first}-{last}")
        }
    }
}

/// Why a survey tells nothing.
#[derive(Clone, Copy, Debug, PartialEq, Eq, Error)]
pub enum SurveyError {
    #[error("the device is off")]
    Off,
    #[error("the table has fewer places than the device has sectors")]
    ShortTable,
}

/// Why a card image cannot be surveyed.
#[derive(Clone, Copy, Debug, PartialEq, Eq, Error)]
pub enum ImageError {
    /// longer than 1,024 rows
    #[error("a card image has at most 1,024 rows of 64 bytes, and this file is longer")]
    TooLong,
    /// it does not end where a row ends
    #[error("a card image is whole rows of 64 bytes, and this file is not")]
    NotWholeRows,
}

/// What the conditions of all sectors come to.
#[derive(Clone, Copy, Debug, PartialEq, Eq)]
pub enum Verdict {
    NoSectors,
    AllTorn,
    SomeTorn,
    AllBlank,
    AllReadable,
}

impl fmt::Display for Verdict {
    ghost output = { λ verdict. Some (sentence verdict) };

    fn fmt<W: fmt::Write>(&self, f: &mut fmt::Formatter<W>) -> fmt::Result {
        f.write_str(match self {
            Verdict::NoSectors => "The image is empty: it has no sectors.",
            Verdict::AllTorn => "The card cannot be read: every sector is torn.",
            Verdict::SomeTorn => "The card is damaged: the torn sectors cannot be read.",
            Verdict::AllBlank => "The card is blank: every sector can be read and holds zeros.",
            Verdict::AllReadable => "The card is sound: every sector can be read.",
        })
    }
}
