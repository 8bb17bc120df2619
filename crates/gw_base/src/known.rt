ghost use Rattle.std.specs.Prelude.{◌≡◌, IfOk};
ghost use Rattle.gw_base.specs.Known.{is_known, known_nodes, named_node};

use crate::address::NodeId;
use crate::fault::NoMemory;
use crate::history::{HistoryAct, HistoryEntry};
use std::alloc::Global;

impl HistoryAct {
    /// The node that the entry makes known.
    fn named_node(&self) -> Option<NodeId>
        ensures { result ≡ named_node self.now }
    {
        match self {
            HistoryAct::Path { node, .. }
            | HistoryAct::File { node, .. }
            | HistoryAct::Hold { node, .. }
            | HistoryAct::Seal { node, .. } => Some(*node),
            _ => None,
        }
    }
}

fn is_known(known: &[NodeId], node: NodeId) -> bool
    ensures { result ≡ is_known known.now node }
{
    known.iter().any(|k| k.0 == node.0)
}

/// The known nodes, in the order in which Path, File, Hold and Seal entries first named them.
#[tactic(auto, using(crate::proofs::Scans::known_is))]
pub fn known_nodes(alloc: Global, history: &[HistoryEntry]) -> Result<Vec<NodeId>, NoMemory>
    ensures { IfOk result (λ nodes. nodes.items ≡ known_nodes history.now) }
{
    let mut known = Vec::new(alloc);
    for entry in history {
        if let Some(node) = entry.act.named_node() {
            if !is_known(&known, node) {
                known.push(node)?;
            }
        }
    }
    Ok(known)
}
