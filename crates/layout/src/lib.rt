//! What stands in the sectors of a card, as values: headers, records, homes, and the pages in them.
#![tactic(auto)]

mod body;
mod class;
mod geometry;
mod handle;
mod header;
mod home;
mod number;
mod page;
mod record;
mod slots;
mod word;

pub use body::body_of;
pub use class::Class;
pub use geometry::{Geometry, LEAST_LOG, LOG, MOST_LOG, MOST_SECTORS};
pub use handle::{HANDLES, Handle};
pub use header::Header;
pub use home::Home;
pub use page::{DATA_WORDS, Page};
pub use record::{CommitRecord, MOST_RECORDS, PageRecord, Record, shown_epoch};
pub use slots::is_marked;
pub use word::Word;

/// The bytes of a sector that belong to the caller.
pub const PAYLOAD: usize = 60;

/// The bytes of a page body in a home or a record.
pub const BODY: usize = 48;
