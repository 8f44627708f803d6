//! Why a device cannot be made over the caller's memory.
ghost use Rattle.std.specs.Prelude.{◌≡◌};
ghost use Rattle.media.specs.Refusals.{number};

use thiserror::Error;

/// What is wrong with the memory.
// Not the type of the same name in `device`: no writes wait here, and whoever matches meets no case that never comes.
#[derive(Clone, Copy, Debug, PartialEq, Eq, Error)]
pub enum MemoryError {
    /// the memory does not end where a row ends
    #[error("the memory does not end where a row ends")]
    NotWholeRows,
}

/// Memory that no row image can be made over, given back as it was.
#[derive(Debug, Drop, Error)]
#[error("{reason}")]
pub struct Refused<'a> {
    pub reason: MemoryError,
    pub rows: &'a mut [u8],
}

impl MemoryError {
    /// The number that the refusal goes by in documents and in programs' output.
    // A method and no `From` for `u8`: its name says which number is meant.
    pub fn number(self) -> u8
        ensures { result ≡ number self }
    {
        match self {
            MemoryError::NotWholeRows => 18,
        }
    }
}
