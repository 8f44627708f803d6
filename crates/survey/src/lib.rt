//! What is on a card: the condition of each sector, and a verdict.
#![tactic(auto)]

mod condition;
mod image;
mod look;
mod runs;
mod verdicts;

pub use condition::{Condition, ImageError, Run, SurveyError, Verdict};
pub use image::{LONGEST, SECTORS, survey_image};
pub use look::survey;
pub use runs::{Runs, how_many, next_run, readable};
pub use verdicts::judge;
