ghost use Rattle.std.specs.Prelude.{◌≡◌, ◌≤◌, Some, None, length, List, ℕ};
ghost use Rattle.std.specs.List.{last_or};
ghost use Rattle.gw_base.specs.declared.history.HistoryEntry.{HistoryEntry};
ghost use Rattle.gw_base.specs.History.{epoch_of};
ghost use Rattle.gw_base.specs.Starts.{is_start, opening_after, opening_of, start_count, start_of, starts_of};

use crate::address::NodeId;
use crate::history::{HistoryAct, HistoryEntry, Opening};

impl HistoryAct {
    /// Whether the entry says that the gateway began to run.
    fn is_start(&self) -> bool
        ensures { result ≡ is_start self.now }
    {
        matches!(self, HistoryAct::Start)
    }

    /// The opening of a node's epoch, after this entry.
    fn opening_after(&self, node: NodeId, opening: Option<Opening>) -> Option<Opening>
        ensures { result ≡ opening_after node.0 opening self.now }
    {
        match self {
            HistoryAct::Path {
                node: named,
                port,
                counter,
            } if *named == node => Some(Opening {
                port: *port,
                counter: *counter,
            }),
            _ => opening,
        }
    }
}

/// How often the gateway began to run.
pub fn start_count(history: &[HistoryEntry]) -> usize
    ensures value { result ≡ start_count history.now }
    ensures within { result ≤ length history.now }
{
    history.iter().filter(|entry| entry.act.is_start()).count()
}

/// What the Path that began a node's present epoch says, where one did.
#[tactic(auto, using(crate::proofs::Scans::opening_is))]
pub fn opening(history: &[HistoryEntry], node: NodeId) -> Option<Opening>
    ensures { result ≡ opening_of node.0 history.now }
{
    let mut opening = None;
    for entry in history {
        opening = entry.act.opening_after(node, opening);
    }
    opening
}

/// The start of a node's present epoch: the counter of the Path that began it, and 0 where none
/// did.
pub fn start(history: &[HistoryEntry], node: NodeId) -> u8
    ensures { result ≡ start_of node.0 history.now }
{
    match opening(history, node) {
        Some(opening) => opening.counter,
        None => 0,
    }
}

/// The last of a node's epochs with its start is the present one.
pub fn start_is_that_of_the_present_epoch()
    ensures { (node : ℕ) (h : List HistoryEntry) →
        last_or None (starts_of node h) ≡ Some (epoch_of node h, start_of node h) }
{}
