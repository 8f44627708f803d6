//! When a switch turns off: it counts its calls, and turns off within one of them.
ghost use Rattle.std.specs.Prelude.{◌≡◌};
ghost use Rattle.switch.specs.Fates.{fate, is_on, CountsDown};

/// Whether the write within which a switch turns off still reaches the device below.
#[derive(Clone, Copy, Debug, PartialEq, Eq)]
pub enum LastWrite {
    /// it does not
    Lost,
    /// it does, and its answer is dropped
    Reached,
}

/// What comes of a call on a switch.
#[derive(Clone, Copy)]
pub(crate) enum Fate {
    /// the switch is off, and stays so
    Refused,
    /// the switch turns off within the call
    Cut,
    /// the call goes to the device below
    Passed,
}

/// Whether a switch is on, and when it turns off.
#[derive(Clone, Copy, Debug, PartialEq, Eq)]
pub(crate) enum Fuse {
    /// it has turned off, and stays so
    Blown,
    /// it never turns off
    Lasting,
    /// it turns off within the call after so many
    After(u32),
}

impl Fuse {
    /// Whether the switch is still on.
    pub(crate) fn is_on(self) -> bool
        ensures { result ≡ is_on self }
    {
        self != Fuse::Blown
    }

    /// Counts a call, and tells what comes of it.
    pub(crate) fn count_call(&mut self) -> Fate
        ensures told { result ≡ fate self.old }
        ensures counted { CountsDown self.old self.new }
    {
        match *self {
            Fuse::Blown => Fate::Refused,
            Fuse::Lasting => Fate::Passed,
            Fuse::After(0) => {
                *self = Fuse::Blown;
                Fate::Cut
            }
            Fuse::After(calls) => {
                *self = Fuse::After(calls - 1);
                Fate::Passed
            }
        }
    }
}
