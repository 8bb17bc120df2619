// What became of a step of who writes the files.

/// What became of a step that takes items to a writer of files.
#[derive(Clone, Copy, PartialEq, Eq)]
pub enum Filing {
    /// So many were taken: at most 64, and none where all firm items were.
    Took { items: u64 },
    /// The area failed: its count of faults rose in the turn.
    Area,
    /// The shelf failed: its count of faults rose in this call. The writer is broken.
    Shelf,
    /// There was no memory.
    NoMemory,
}
