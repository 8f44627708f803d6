//! Telling the condition of every sector of a device.
ghost use Rattle.std.specs.Prelude.{◌≡◌, ◌↔◌, IsTrue, length, replicate};
ghost use Rattle.device.specs.Means.{means};
ghost use Rattle.survey.specs.Surveys.{TellsCondition, MakesOneRead, Surveys, MakesReads};

use crate::condition::{Condition, SurveyError};
use device::{Device, Fault, PAYLOAD};

// Whether every byte is zero.
fn is_blank(bytes: &[u8]) -> bool
    ensures { IsTrue result ↔ (bytes.now ≡ replicate (length bytes.now) 0) }
{
    bytes.iter().all(|byte| *byte == 0)
}

// The condition of one sector. A fault other than a torn sector is passed on.
fn look<D: Device>(device: &mut D, sector: u32) -> Result<Condition, Fault>
    ensures told { TellsCondition sector result
        (means ⟦<D as Device>⟧ device.old) (means ⟦<D as Device>⟧ device.new) }
    ensures made { MakesOneRead ⟦<D as Device>⟧ sector result device.old device.new }
{
    let mut bytes = [0u8; PAYLOAD];
    match device.read(sector, &mut bytes) {
        Ok(()) if is_blank(&bytes) => Ok(Condition::Blank),
        Ok(()) => Ok(Condition::Written),
        Err(Fault::Torn) => Ok(Condition::Torn),
        Err(fault) => Err(fault),
    }
}

/// Puts the condition of each sector into the caller's table, and tells how many sectors there are.
// A table with its count, and no vector: a survey allocates nothing.
#[tactic(auto, using(device::proofs::Found::found_unchanged))]
pub fn survey<D: Device>(device: &mut D, table: &mut [Condition]) -> Result<usize, SurveyError>
    ensures told { Surveys table.old table.new result
        (means ⟦<D as Device>⟧ device.old) (means ⟦<D as Device>⟧ device.new) }
    ensures made { MakesReads ⟦<D as Device>⟧ result device.old device.new }
{
    let count = device.count();
    if table.len() < count as usize {
        return Err(SurveyError::ShortTable);
    }
    if !device.is_on() {
        return Err(SurveyError::Off);
    }
    // by number: zipping the sectors with the places was tried, and what the places hold in the end could not be proved
    for sector in 0..count {
        let condition = look(device, sector).map_err(|_| SurveyError::Off)?; // cut within a read, the only fault that comes
        table[sector as usize] = condition;
    }
    Ok(count as usize)
}
