//! What a pass knows. No value of these types is made: they are what contracts see of passes.

use gw_base::HistoryEntry;
use std::collections::LinkedList;

/// The facts of a value at one moment.
pub struct Standing {
    pub size: u64,
    pub name: LinkedList<u8>,
    pub faults: u64,
    pub cuts: u64,
    pub entries: u64,
    pub length: u64,
    pub list: LinkedList<HistoryEntry>,
    pub firm: LinkedList<HistoryEntry>,
    pub torn: LinkedList<HistoryEntry>,
}

/// A turn that its pass took: the facts of the value that it found and that it left, whether it dropped the torn
/// entries, and the entries that it added.
pub struct KeptTurn {
    pub found: Standing,
    pub left: Standing,
    pub drops: bool,
    pub added: LinkedList<HistoryEntry>,
}

/// What one pass knows: its number, the size of the value, the count of faults that its cell was made with, the
/// greatest length that it has seen or raised, the firm entries that it has learnt of, and its turns.
pub struct Knowledge {
    pub number: u64,
    pub size: u64,
    pub faults: u64,
    pub seen: u64,
    pub known: LinkedList<HistoryEntry>,
    pub turns: LinkedList<KeptTurn>,
}

/// How far a seat is.
pub enum Stage {
    /// The pass takes no turn.
    Resting,
    /// The pass waits with this ticket.
    Waiting(u64),
    /// The pass has the value, which was so when it came, or as the last turn left it.
    Holding(u64, Standing),
}

/// What a seat knows: how far it is, and what the passes that were joined in it know.
pub struct SeatView {
    pub stage: Stage,
    pub passes: LinkedList<Knowledge>,
}
