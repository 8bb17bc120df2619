// What an entry does to nodes, to their numbers and to the files.
ghost use Rattle.std.specs.Prelude.{◌≡◌, ◌==◌};
ghost use Rattle.std.specs.List.{list_any};
ghost use Rattle.gw_base.specs.Entry.{act_view};
ghost use Rattle.gw_base.specs.History.{begins_epoch, due_after, given_state, names};
ghost use Rattle.gw_base.specs.View.{stays_held};

use crate::address::{Absolute, NodeId};
use crate::entry::Act;
use crate::held::HeldKey;
use crate::history::HistoryAct;
use crate::key_state::KeyState;

impl Act<'_> {
    /// Whether the entry begins an epoch of a node.
    pub fn begins_epoch(&self, node: NodeId) -> bool
        ensures { result ≡ begins_epoch node.0 (act_view self.now) }
    {
        match self {
            Act::Path { node: named, .. } => *named == node,
            _ => false,
        }
    }

    /// Whether the entry names a number of a node.
    pub fn names(&self, node: NodeId, number: Absolute) -> bool
        ensures { result ≡ names node.0 number (act_view self.now) }
    {
        match self {
            Act::File {
                node: named,
                number: x,
                ..
            }
            | Act::Hold {
                node: named,
                number: x,
                ..
            }
            | Act::Seal {
                node: named,
                number: x,
            } => *named == node && *x == number,
            Act::Release {
                node: named,
                numbers,
            }
            | Act::Cancel {
                node: named,
                numbers,
            } => *named == node && lists(numbers, number),
            _ => false,
        }
    }

    /// The state that the entry gives to the numbers that it names.
    pub fn given_state(&self) -> KeyState
        ensures { result ≡ given_state (act_view self.now) }
    {
        match self {
            Act::File { .. } => KeyState::Filed,
            Act::Hold { .. } => KeyState::Held,
            Act::Seal { .. } => KeyState::Sealed,
            Act::Release { .. } => KeyState::Released,
            Act::Cancel { .. } => KeyState::Cancelled,
            _ => KeyState::Fresh,
        }
    }

    /// Whether a held key stays held after the entry.
    pub fn stays_held(&self, key: HeldKey) -> bool
        ensures { result ≡ stays_held (act_view self.now) key }
    {
        !self.begins_epoch(key.node) && !self.names(key.node, key.number)
    }

    /// Whether a Close is due after the entry, by whether it was due before.
    pub fn due_after(&self, due: bool) -> bool
        ensures { result ≡ due_after due (act_view self.now) }
    {
        match self {
            Act::File { .. } | Act::Release { .. } => true,
            Act::Close => false,
            _ => due,
        }
    }
}

impl HistoryAct {
    /// Whether the entry begins an epoch of a node.
    pub fn begins_epoch(&self, node: NodeId) -> bool
        ensures { result ≡ begins_epoch node.0 self.now }
    {
        self.lent().begins_epoch(node)
    }

    /// Whether the entry names a number of a node.
    pub fn names(&self, node: NodeId, number: Absolute) -> bool
        ensures { result ≡ names node.0 number self.now }
    {
        self.lent().names(node, number)
    }

    /// The state that the entry gives to the numbers that it names.
    pub fn given_state(&self) -> KeyState
        ensures { result ≡ given_state self.now }
    {
        self.lent().given_state()
    }

    /// Whether a Close is due after the entry, by whether it was due before.
    pub fn due_after(&self, due: bool) -> bool
        ensures { result ≡ due_after due self.now }
    {
        self.lent().due_after(due)
    }
}

/// Whether a list has a number.
pub fn lists(numbers: &[Absolute], number: Absolute) -> bool
    ensures { result ≡ list_any (λ x. x == number) numbers.now }
{
    numbers.iter().any(|x| *x == number)
}
