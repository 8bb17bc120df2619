// What an index tells of all entries to whoever answers by it.
use gateway_answer::Observe;
use gateway_index::Index;
use gw_base::{Absolute, Act, KeyState, NodeId, Opening};

/// An index of all entries, where there is room for any act, or for none.
#[derive(Drop)]
pub(crate) struct Seen<'a> {
    pub(crate) index: &'a Index,
    pub(crate) has_room: bool,
}

impl Observe for Seen<'_> {
    ghost use Rattle.std.specs.Prelude.{false};
    ghost use Rattle.gateway_index.specs.Index.{observed_by};

    ghost seen = { λ s node. observed_by false s.index.now node };

    ghost room = { λ s act. s.has_room };

    fn own(&self) -> u8 {
        self.index.own(false)
    }

    fn opening(&self, node: NodeId) -> Option<Opening> {
        self.index.opening(false, node)
    }

    fn top(&self, node: NodeId) -> Option<Absolute> {
        self.index.top(false, node)
    }

    fn state(&self, node: NodeId, number: Absolute) -> KeyState {
        self.index.state(false, node, number)
    }

    fn has_place(&self, node: NodeId) -> bool {
        self.index.has_place(false, node)
    }

    fn may_hold(&self) -> bool {
        self.index.may_hold(false)
    }

    fn has_room(&self, _: &Act<'_>) -> bool {
        self.has_room
    }
}
