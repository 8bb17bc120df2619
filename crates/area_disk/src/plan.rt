// Which calls of an object in memory are to fail or to stop.

/// What a stop leaves of the octets that were written since the last sync, those of the stopped write included.
#[derive(Clone, Copy, PartialEq, Eq)]
pub enum Outcome3 {
    /// They hold what stood at the last sync.
    Old,
    /// They hold what was written.
    New,
    /// Each of them is `5A`.
    Rot,
}

/// One stop: at the counted call with this number, from 1, with this outcome.
#[derive(Clone, Copy)]
pub struct Stop {
    pub call: u64,
    pub outcome: Outcome3,
}

/// The calls that are to fail and the one stop, by numbers from 1 since the plan was armed. The counted calls of an
/// area are `write_at` and `sync`, and its reads are `read_at`.
#[derive(Drop)]
pub struct Plan {
    /// Counted calls that fail and change nothing but the counts.
    pub fail: Vec<u64>,
    /// Reads that fail.
    pub read_fail: Vec<u64>,
    /// The stop. A call that is to fail is not stopped.
    pub stop: Option<Stop>,
}

/// What comes of a call.
#[derive(Clone, Copy)]
pub enum Fate {
    Runs,
    /// It fails, and changes nothing but the counts.
    Fails,
    /// It stops the object, with this outcome.
    Stops(Outcome3),
}
