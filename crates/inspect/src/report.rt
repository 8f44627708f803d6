//! What the inspector prints of a card: five lines.
ghost use Rattle.std.specs.Prelude.{◌≡◌, Some};
ghost use Rattle.survey.specs.Verdicts.{IsVerdictOn};
ghost use Rattle.inspect.specs.Reports.{report_text};

use std::fmt;
use survey::{Condition, Runs, Verdict, judge, readable};

/// The report on a card: the conditions of its sectors, and the verdict on them.
#[derive(Clone, Copy)]
pub struct Report<'a> {
    conditions: &'a [Condition],
    verdict: Verdict,
}

impl<'a> Report<'a> {
    /// The report on a card whose sectors are in these conditions.
    pub fn new(conditions: &'a [Condition]) -> Report<'a>
        ensures on { result.conditions.now ≡ conditions.now }
        ensures verdict { IsVerdictOn conditions.now result.verdict }
    {
        let verdict = judge(conditions);
        Report {
            conditions,
            verdict,
        }
    }
}

impl fmt::Display for Report<'_> {
    ghost output = { λ report. Some (report_text report.conditions.now report.verdict) };

    fn fmt<W: fmt::Write>(&self, f: &mut fmt::Formatter<W>) -> fmt::Result {
        let Report {
            conditions,
            verdict,
        } = self;
        let sectors = conditions.len();
        let readable = readable(conditions);
        let blank = Runs::new(conditions, Condition::Blank);
        let torn = Runs::new(conditions, Condition::Torn);
        writeln!(f, "sectors: {sectors}")?;
        writeln!(f, "readable: {readable}")?;
        writeln!(f, "blank: {blank}")?;
        writeln!(f, "torn: {torn}")?;
        write!(f, "{verdict}")
    }
}
