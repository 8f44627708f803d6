//! Why a device turns a call away.
ghost use Rattle.std.specs.Prelude.{◌≡◌};
ghost use Rattle.device.specs.Faults.{number};

use thiserror::Error;

/// A call that is turned away answers one of these.
#[derive(Clone, Copy, Debug, PartialEq, Eq, Error)]
pub enum Fault {
    /// the device is off: it was, or the power was cut within the call
    #[error("the device is off")]
    Off,
    /// the sector is not below the device's count
    #[error("the device has no such sector")]
    NoSector,
    /// the sector's content cannot be read
    #[error("the sector cannot be read")]
    Torn,
}

impl Fault {
    /// The number that the fault goes by in documents and in programs' output.
    // A method and no `From` for `u8`: its name says which number is meant.
    pub fn number(self) -> u8
        ensures { result ≡ number self }
    {
        match self {
            Fault::Off => 1,
            Fault::NoSector => 2,
            Fault::Torn => 3,
        }
    }
}
