//! Devices: the row image.
#![tactic(auto)]

mod memory;
mod row_image;
mod rows;

pub use memory::{MemoryError, Refused};
pub use row_image::RowImage;
pub use rows::ROW;
