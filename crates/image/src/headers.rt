//! The first stage of an opening: the headers are read.
ghost use Rattle.std.specs.Prelude.{◌≡◌, ◌<◌, ◌≤◌, ◌⊎◌, [], ◌∷◌, MatchOption, IfSome, IsNone};
ghost use Rattle.layout.specs.declared.header.Header.{Header as AHeader};
ghost use Rattle.image.specs.Headers.{IsHeaderAt, IsHeaderIn, IsHeaderOf};
ghost use Rattle.image.specs.Looking.{Tells, Finds};
ghost use Rattle.image.specs.Phases.{Just};

use crate::reading::look;
use crate::{ImageRefusal, Off, StageError};
use device::Device;
use layout::Header;

/// The header of a card, as it was read.
#[derive(Debug, Drop)]
pub struct HeadersRead {
    header: Header,
}

impl HeadersRead {
    ghost use Rattle.image.specs.Stages.{header_of, TellsNoHeader};

    /// Reads both headers: the valid one with the greater epoch counts.
    pub fn read<D: Device>(device: &mut D) -> Result<HeadersRead, StageError>
        ensures { Finds ⟦<D as Device>⟧ device.old device.new (Just (0 ∷ 1 ∷ []))
            (λ n σ x. IsHeaderOf n σ (header_of x)) TellsNoHeader result }
    {
        match newest(device)? {
            Some(header) => Ok(HeadersRead { header }),
            None => Err(ImageRefusal::NoHeader.into()),
        }
    }

    // The header, which ends the stage.
    pub(crate) fn into_header(self) -> Header
        ensures { result ≡ header_of self }
    {
        let HeadersRead { header } = self;
        header
    }
}

// The valid header with the greater epoch, if there is one.
fn newest<D: Device>(device: &mut D) -> Result<Option<Header>, Off>
    ensures { Tells ⟦<D as Device>⟧ device.old device.new (Just (0 ∷ 1 ∷ []))
        (λ n σ o. MatchOption o ((h : AHeader) → ¬ IsHeaderIn n σ h) (IsHeaderOf n σ)) result }
{
    let first = header_at(device, 0)?;
    let second = header_at(device, 1)?;
    Ok(newer(first, second))
}

// The valid header in a header sector, if there is one.
fn header_at<D: Device>(device: &mut D, sector: u32) -> Result<Option<Header>, Off>
    requires { sector < 2 }
    ensures { Tells ⟦<D as Device>⟧ device.old device.new (Just (sector ∷ []))
        (λ n σ o. MatchOption o
        ((h : AHeader) → ¬ IsHeaderAt n σ sector h)
        (IsHeaderAt n σ sector)) result }
{
    let sectors = device.count();
    let Some(bytes) = look(device, sector)? else {
        return Ok(None);
    };
    Ok(Header::decode(&bytes).filter(|header| header.is_valid_in(sector, sectors)))
}

// The one with the greater epoch, if there is one.
fn newer(first: Option<Header>, second: Option<Header>) -> Option<Header>
    ensures none { IsNone result → IsNone first × IsNone second }
    ensures one { IfSome result (λ h. (first ≡ Some h) ⊎ (second ≡ Some h)) }
    ensures newest { IfSome result (λ h. IfSome first (λ a. a.epoch ≤ h.epoch)
        × IfSome second (λ b. b.epoch ≤ h.epoch)) }
{
    match (first, second) {
        (Some(a), Some(b)) if a.epoch < b.epoch => Some(b),
        _ => first.or(second),
    }
}
