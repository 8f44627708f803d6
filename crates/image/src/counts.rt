//! What is counted of a heap.

/// The numbers that a check tells of a heap.
#[derive(Clone, Copy, Debug, PartialEq, Eq)]
pub struct Counts {
    pub transactions: u32,
    pub free_pages: u32,
    pub objects: u32,
    /// the objects that can be reached from the root page
    pub reachable: u32,
}
