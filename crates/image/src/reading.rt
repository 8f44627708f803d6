//! Reading a device, where a sector that cannot be read is no failure.
ghost use Rattle.std.specs.Prelude.{◌≡◌, ◌<◌, ◌≤◌, ◌⊎◌, [], ◌∷◌, MatchOption};
ghost use Rattle.device.specs.Sector.{payload, torn, IsPayload};
ghost use Rattle.image.specs.Looking.{Tells};
ghost use Rattle.image.specs.Phases.{Just};

use device::{Device, Fault, PAYLOAD};

/// The device is off.
#[derive(Clone, Copy, Debug, PartialEq, Eq)]
pub(crate) struct Off;

// The payload of a sector, if it can be read.
pub(crate) fn look<D: Device>(device: &mut D, sector: u32) -> Result<Option<[u8; PAYLOAD]>, Off>
    ensures { Tells ⟦<D as Device>⟧ device.old device.new (Just (sector ∷ []))
        (λ n σ o. MatchOption o
        ((n ≤ sector) ⊎ (σ sector ≡ torn))
        (λ b. (sector < n) × (σ sector ≡ payload b) × IsPayload b)) result }
{
    let mut bytes = [0; PAYLOAD];
    match device.read(sector, &mut bytes) {
        Ok(()) => Ok(Some(bytes)),
        Err(Fault::Off) => Err(Off),
        Err(Fault::NoSector) => Ok(None),
        Err(Fault::Torn) => Ok(None),
    }
}
