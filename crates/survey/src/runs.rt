//! Looking up and counting conditions in a table that has one for each sector.
ghost use Rattle.std.specs.Prelude.{◌≡◌, ℕ, ◌+◌, ◌-◌, ◌<◌, ◌≤◌, length, MatchOption, ◌≢◌};
ghost use Rattle.std.specs.Iterator.{at_most};
ghost use Rattle.survey.specs.Conditions.{at, count_of};
ghost use Rattle.survey.specs.Runs.{NextRun, GivesRun, LooksFrom, sectors_left};

use crate::condition::{Condition, Run};
use std::fmt;

/// How many sectors are in the wanted condition.
// A table comes with what is wanted of it here, in `find` and in `next_run` alone; methods on a pair of them would be no plainer.
pub fn how_many(conditions: &[Condition], wanted: Condition) -> usize
    ensures value { result ≡ count_of wanted conditions.now }
    ensures bound { result ≤ length conditions.now }
{
    // A fold: `filter` and `count` compile to a branch for each sector, and take twice as long.
    conditions.iter().fold(0, |count: usize, condition| {
        count.wrapping_add(usize::from(*condition == wanted)) // never past the sectors, so it does not wrap
    })
}

/// How many sectors can be read.
pub fn readable(conditions: &[Condition]) -> usize
    ensures { result + count_of Condition.Torn conditions.now ≡ length conditions.now }
{
    conditions.len() - how_many(conditions, Condition::Torn)
}

// The first sector from `from` on that is in the wanted condition. It goes by number, since a run is told by numbers.
fn find(conditions: &[Condition], wanted: Condition, from: usize) -> Option<usize>
    ensures { MatchOption result
        ((s : ℕ) → from ≤ s → s < length conditions.now → at conditions.now s ≢ wanted)
        (λ i. (from ≤ i) × (i < length conditions.now) × (at conditions.now i ≡ wanted)
        × ((s : ℕ) → from ≤ s → s < i → at conditions.now s ≢ wanted)) }
{
    (from..conditions.len()).find(|sector| conditions[*sector] == wanted)
}

// The last sector of the run that `first` is in.
fn last_of(conditions: &[Condition], first: usize) -> usize
    requires { first < length conditions.now }
    ensures order { (first ≤ result) × (result < length conditions.now) }
    ensures all { (s : ℕ) → first ≤ s → s ≤ result → at conditions.now s ≡ at conditions.now first }
    ensures ends { result + 1 < length conditions.now
        → at conditions.now (result + 1) ≢ at conditions.now first }
{
    let past = (first..conditions.len()).find(|sector| conditions[*sector] != conditions[first]);
    past.unwrap_or(conditions.len()) - 1
}

/// The first run in the wanted condition among the sectors from `from` on. If `from` is inside a run, the rest of it.
pub fn next_run(conditions: &[Condition], wanted: Condition, from: usize) -> Option<Run>
    ensures { NextRun conditions.now wanted from result }
{
    let first = find(conditions, wanted, from)?;
    let last = last_of(conditions, first);
    Some(Run { first, last })
}

/// The runs in one condition, in order.
#[derive(Clone, Debug, Drop)]
pub struct Runs<'a> {
    conditions: &'a [Condition],
    wanted: Condition,
    from: usize,
}

impl<'a> Runs<'a> {
    /// The runs in the wanted condition, from the first sector on.
    pub fn new(conditions: &'a [Condition], wanted: Condition) -> Runs<'a>
        ensures { LooksFrom result conditions.now wanted 0 }
    {
        Runs {
            conditions,
            wanted,
            from: 0,
        }
    }
}

impl Iterator for Runs<'_> {
    type Item = Run;

    ghost next_gives = { GivesRun };

    ghost remaining = { λ runs. at_most (sectors_left runs) };

    fn next(&mut self) -> Option<Run> {
        let run = next_run(self.conditions, self.wanted, self.from)?;
        self.from = run.last + 1;
        Some(run)
    }
}

/// The runs that are left, as ranges: "2-4, 7", or "none".
impl fmt::Display for Runs<'_> {
    ghost use Rattle.std.specs.Prelude.{Some};
    ghost use Rattle.survey.specs.Runs.{runs_left};
    ghost use Rattle.survey.specs.Texts.{runs_text};

    ghost output = { λ runs. Some (runs_text (runs_left runs)) };

    fn fmt<W: fmt::Write>(&self, f: &mut fmt::Formatter<W>) -> fmt::Result {
        let mut runs = Runs { ..*self };
        let Some(first) = runs.next() else {
            return write!(f, "none");
        };
        write!(f, "{first}")?;
        for run in runs {
            write!(f, ", {run}")?;
        }
        Ok(())
    }
}
