ghost use Rattle.std.specs.Prelude.{◌≡◌, ◌≤◌, ◌<◌, ◌-◌, ◌^◌, length};
ghost use Rattle.gw_base.specs.History.{copies_of, epoch_of, fate_of, is_close_due, moment_after, state_of, top_after, top_of};
ghost use Rattle.gw_base.specs.Steps.{scan_after};

use crate::address::{Absolute, NodeId};
pub use crate::held::{
    HeldKey, held_keys, held_keys_are_as_many_as_held_copies, held_keys_are_those_in_that_state,
    promised_octets,
};
use crate::history::{HistoryAct, HistoryEntry, PacketKey};
use crate::key_state::KeyState;
pub use crate::known::known_nodes;
use crate::moment::Moment;
pub use crate::starts::{opening, start, start_count, start_is_that_of_the_present_epoch};
pub use crate::tick::{is_long_ago, is_tick_due, last_tick};
pub use crate::view::{
    epochs_are_within_the_length, key_state_goes_on, node_view_goes_on, present_state_goes_on,
    present_state_is_that_of_the_epoch, view_goes_on,
};

impl HistoryAct {
    /// The greatest number that a node's present epoch names, after this entry.
    fn top_after(&self, node: NodeId, top: Option<Absolute>) -> Option<Absolute>
        ensures { result ≡ top_after node.0 top self.now }
    {
        match self {
            HistoryAct::Path { node: named, .. } if *named == node => None,
            HistoryAct::File {
                node: named,
                number,
                ..
            }
            | HistoryAct::Hold {
                node: named,
                number,
                ..
            }
            | HistoryAct::Seal {
                node: named,
                number,
            } if *named == node => Some(top.map_or(*number, |t| t.max(*number))),
            _ => top,
        }
    }
}

/// The number of a node's present epoch: how many Path entries of it there are.
pub fn epoch(history: &[HistoryEntry], node: NodeId) -> u64
    ensures value { result ≡ epoch_of node.0 history.now }
    ensures within { result ≤ length history.now }
{
    history
        .iter()
        .filter(|entry| entry.act.begins_epoch(node))
        .count() as u64
}

/// How far a scan for one key has come: the epoch of the key's node, and the key's state.
#[derive(Clone, Copy)]
struct KeyScan {
    epoch: u64,
    state: KeyState,
}

impl KeyScan {
    /// The scan after one more entry.
    fn after(self, key: PacketKey, act: &HistoryAct) -> KeyScan
        requires { self.epoch < 2 ^ 64 - 1 }
        ensures { result ≡ scan_after key self act.now }
    {
        let names = self.epoch == key.epoch && act.names(key.node, key.number);
        let begins = act.begins_epoch(key.node);
        KeyScan {
            epoch: if begins { self.epoch + 1 } else { self.epoch },
            state: if names { act.given_state() } else { self.state },
        }
    }
}

/// A key's state: what the last entry of its epoch that names it gives.
#[tactic(auto, using(crate::proofs::Scans::scan_is))]
pub fn state(history: &[HistoryEntry], key: PacketKey) -> KeyState
    ensures { result ≡ state_of key history.now }
{
    let mut scan = KeyScan {
        epoch: 0,
        state: KeyState::Fresh,
    };
    for entry in history {
        scan = scan.after(key, &entry.act);
    }
    scan.state
}

/// The greatest number that the File, Hold and Seal entries of a node's present epoch name.
#[tactic(auto, using(crate::proofs::Scans::top_is))]
pub fn top(history: &[HistoryEntry], node: NodeId) -> Option<Absolute>
    ensures { result ≡ top_of node.0 history.now }
{
    let mut top = None;
    for entry in history {
        top = entry.act.top_after(node, top);
    }
    top
}

/// The moment that an entry made now bears: never less than that of the last entry.
pub fn moment_after(history: &[HistoryEntry], now: Moment) -> Moment
    ensures { result ≡ moment_after history.now now }
{
    match history.last() {
        Some(entry) => now.max(entry.moment),
        None => now,
    }
}

/// Whether a File or a Release stands after the last Close.
#[tactic(auto, using(crate::proofs::Scans::due_is))]
pub fn is_close_due(history: &[HistoryEntry]) -> bool
    ensures { result ≡ is_close_due history.now }
{
    let mut due = false;
    for entry in history {
        due = entry.act.due_after(due);
    }
    due
}

/// What became of a held number.
#[derive(Clone, Copy, PartialEq, Eq)]
pub enum HoldFate {
    /// No later entry of its epoch names it.
    Held,
    /// The node's next epoch began before an entry named it.
    Stranded,
    /// An entry of its epoch names it.
    Settled,
}

/// What became of a held number, by the entries that follow its Hold.
pub fn fate_of(later: &[HistoryEntry], node: NodeId, number: Absolute) -> HoldFate
    ensures { result ≡ fate_of node.0 number later.now }
{
    for entry in later {
        if entry.act.begins_epoch(node) {
            return HoldFate::Stranded;
        }
        if entry.act.names(node, number) {
            return HoldFate::Settled;
        }
    }
    HoldFate::Held
}

/// How many copies a gateway holds.
#[derive(Clone, Copy, Debug)]
pub struct Copies {
    /// Those of present epochs.
    pub held: u64,
    /// Those of earlier epochs, neither released nor cancelled.
    pub stranded: u64,
}

/// The copies that are held and that are stranded.
pub fn copies_of(history: &[HistoryEntry]) -> Copies
    ensures { result ≡ copies_of history.now }
{
    let mut copies = Copies {
        held: 0,
        stranded: 0,
    };
    let mut left = history;
    while let Some((entry, later)) = left.split_first() {
        if let HistoryAct::Hold { node, number, .. } = &entry.act {
            match fate_of(later, *node, *number) {
                HoldFate::Held => copies.held += 1,
                HoldFate::Stranded => copies.stranded += 1,
                HoldFate::Settled => {}
            }
        }
        left = later;
    }
    copies
}
