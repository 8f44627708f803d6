//! What an image of a card holds, and the first stages of an opening: its headers read, its log read, its pages judged.
#![tactic(auto)]

mod counts;
mod entry;
mod headers;
mod judged;
mod log;
mod pages;
mod reading;
mod refusal;
mod tally;
mod theorems;

pub use counts::Counts;
pub use headers::HeadersRead;
pub use judged::PagesJudged;
pub use log::LogRead;
use reading::Off;
pub use refusal::{ImageRefusal, StageError};
pub use theorems::of_all_images;
