//! The verdict on a card.
ghost use Rattle.std.specs.Prelude.{◌≡◌};
ghost use Rattle.survey.specs.declared.condition.Verdict.{Verdict};
ghost use Rattle.survey.specs.Verdicts.{IsVerdictOn};

use crate::condition::{Condition, Verdict};
use crate::runs::how_many;

/// The verdict that fits the conditions of a card's sectors; no other does.
#[tactic(auto, using(crate::proofs::Single::one_verdict))]
pub fn judge(conditions: &[Condition]) -> Verdict
    ensures fits { IsVerdictOn conditions.now result }
    ensures only { (v : Verdict) → IsVerdictOn conditions.now v → v ≡ result }
{
    let torn = how_many(conditions, Condition::Torn);
    if conditions.is_empty() {
        Verdict::NoSectors
    } else if torn == conditions.len() {
        Verdict::AllTorn
    } else if torn > 0 {
        Verdict::SomeTorn
    } else if how_many(conditions, Condition::Blank) == conditions.len() {
        Verdict::AllBlank
    } else {
        Verdict::AllReadable
    }
}
