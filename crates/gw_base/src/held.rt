ghost use Rattle.std.specs.Prelude.{◌≡◌, length, List, ℕ, IfOk};
ghost use Rattle.gw_base.specs.declared.history.HistoryEntry.{HistoryEntry};
ghost use Rattle.gw_base.specs.History.{copies_of, epoch_of, state_of};
ghost use Rattle.gw_base.specs.HeldKeys.{held_keys, holds, is_held, promised_octets};

use crate::address::{Absolute, NodeId};
use crate::fault::NoMemory;
use crate::history::{HistoryAct, HistoryEntry};
use crate::scan::{HoldFate, copies_of, fate_of, is_close_due};
use std::alloc::Global;

/// A number of a node that is held in the node's present epoch.
#[derive(Clone, Copy, Debug)]
pub struct HeldKey {
    pub node: NodeId,
    pub number: Absolute,
}

/// What a held key may need of the journal: a Release or a Cancel of it, and a Close.
const PROMISED_FOR_A_KEY: u128 = 76;

/// What a Close that is due needs of the journal.
const PROMISED_FOR_A_CLOSE: u128 = 30;

/// The held keys of present epochs, in the order of the Hold entries.
pub fn held_keys(alloc: Global, history: &[HistoryEntry]) -> Result<Vec<HeldKey>, NoMemory>
    ensures { IfOk result (λ keys. keys.items ≡ held_keys history.now) }
{
    let mut keys = Vec::new(alloc);
    let mut left = history;
    while let Some((entry, later)) = left.split_first() {
        if let HistoryAct::Hold { node, number, .. } = &entry.act {
            if fate_of(later, *node, *number) == HoldFate::Held {
                keys.push(HeldKey {
                    node: *node,
                    number: *number,
                })?;
            }
        }
        left = later;
    }
    Ok(keys)
}

/// The octets of a journal that are promised: 76 for each held key of a present epoch, and 30 where
/// a Close is due.
pub fn promised_octets(history: &[HistoryEntry]) -> u128
    ensures { result ≡ promised_octets history.now }
{
    let keys = u128::from(copies_of(history).held) * PROMISED_FOR_A_KEY;
    if is_close_due(history) {
        keys + PROMISED_FOR_A_CLOSE
    } else {
        keys
    }
}

/// There are as many held keys as held copies.
pub fn held_keys_are_as_many_as_held_copies()
    ensures { (h : List HistoryEntry) → length (held_keys h) ≡ (copies_of h).held }
{}

/// A number is among the held keys exactly where its key of the node's present epoch is held.
pub fn held_keys_are_those_in_that_state()
    ensures { (node : NodeId) (number : ℕ) (h : List HistoryEntry) →
        holds node.0 number (held_keys h)
        ≡ is_held (state_of (record { node = node; epoch = epoch_of node.0 h; number = number }) h) }
{}
