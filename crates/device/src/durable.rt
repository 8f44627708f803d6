//! Writes that last, over any device. Proved from the device's contract alone.
ghost use Rattle.device.specs.Means.{means};
ghost use Rattle.device.specs.Leaves.{WritesBoth, MakesBoth};

use crate::{Device, Fault, PAYLOAD};

/// Writes two sectors, the first one first, and makes both last. Where both are one sector, it has the second bytes.
pub fn write_both<D: Device>(
    device: &mut D,
    first: u32,
    a: &[u8; PAYLOAD],
    second: u32,
    b: &[u8; PAYLOAD],
) -> Result<(), Fault>
    ensures rules { WritesBoth first a.now second b.now result
        (means ⟦<D as Device>⟧ device.old) (means ⟦<D as Device>⟧ device.new) }
    ensures made { MakesBoth ⟦<D as Device>⟧ first a.now second b.now result device.old device.new }
{
    device.write(first, a)?;
    device.write(second, b)?;
    device.flush()
}
