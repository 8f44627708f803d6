//! Why a check tells no numbers.
ghost use Rattle.std.specs.Prelude.{◌≡◌};
ghost use Rattle.audit.specs.Errors.{as_check_error, of_check};

use image::{ImageRefusal, StageError};
use model::Refusal;
use thiserror::Error;

/// A check that tells no numbers answers one of these.
#[derive(Clone, Copy, Debug, PartialEq, Eq, Error)]
pub enum CheckError {
    #[error("the device is off")]
    Off,
    #[error("the memory is too short")]
    ShortMemory,
    #[error("{0}")]
    NoHeap(ImageRefusal),
}

impl From<StageError> for CheckError {
    ghost from_gives = { λ stage error. error ≡ as_check_error stage };

    fn from(error: StageError) -> CheckError {
        match error {
            StageError::Off => CheckError::Off,
            StageError::NoHeap(refusal) => CheckError::NoHeap(refusal),
        }
    }
}

impl From<CheckError> for Refusal {
    ghost from_gives = { λ error refusal. refusal ≡ of_check error };

    fn from(error: CheckError) -> Refusal {
        match error {
            CheckError::Off => Refusal::Off,
            CheckError::ShortMemory => Refusal::ShortMemory,
            CheckError::NoHeap(refusal) => Refusal::from(refusal),
        }
    }
}
