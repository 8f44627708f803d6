//! A data word of a page.
ghost use Rattle.std.specs.Prelude.{◌≡◌};
ghost use Rattle.layout.specs.Words.{kind_of, value_of};

use crate::Handle;

/// A number, or a reference to an object.
#[derive(Clone, Copy, Debug, PartialEq, Eq)]
pub enum Word {
    Number(u32),
    Reference(Handle),
}

impl Word {
    /// What a body's second head word says of the word's kind.
    pub fn kind(self) -> u32
        ensures { result ≡ kind_of self }
    {
        match self {
            Word::Number(_) => 0,
            Word::Reference(_) => 1,
        }
    }

    /// The 32 bits in its place.
    pub fn value(self) -> u32
        ensures { result ≡ value_of self }
    {
        match self {
            Word::Number(number) => number,
            Word::Reference(handle) => handle.0,
        }
    }
}
