// A held copy as it is stored.
ghost use Rattle.std.specs.Prelude.{◌≡◌, ◌≢◌, ◌<◌, false, if◌then◌else◌, nat_lt, Some, None};
ghost use Rattle.dup_buffer.specs.Stored.{is_copy_of, place_of, rank, rank_of};

use gw_base::{Absolute, NodeId, Place};

/// The copy of a node's number, with its place in the journal, and whether it is held still.
#[derive(Clone, Copy)]
pub(crate) struct HeldCopy {
    pub(crate) number: Absolute,
    pub(crate) at: u64,
    pub(crate) node: u32,
    pub(crate) length: u32,
    pub(crate) held: bool,
}

/// Where a node's number stands among copies.
pub(crate) fn rank_of(node: NodeId, number: Absolute) -> u128
    ensures { result ≡ rank_of node.0 number }
{
    u128::from(node.0) * (1 << 64) + u128::from(number)
}

impl HeldCopy {
    /// Where the copy lies.
    pub(crate) fn place(self) -> Place
        ensures { result ≡ place_of self }
    {
        Place {
            at: self.at,
            length: self.length,
        }
    }

    /// The copy, if it is held.
    pub(crate) fn if_held(self) -> Option<HeldCopy>
        ensures { result ≡ (if self.held then Some self else None) }
    {
        if self.held { Some(self) } else { None }
    }

    /// The same copy, taken out.
    pub(crate) fn taken(self) -> HeldCopy
        ensures rank { rank result ≡ rank self }
        ensures taken { result.held ≡ false }
    {
        HeldCopy {
            number: self.number,
            at: self.at,
            node: self.node,
            length: self.length,
            held: false,
        }
    }

    /// Where it stands among copies.
    pub(crate) fn rank(self) -> u128
        ensures { result ≡ rank self }
    {
        rank_of(NodeId(self.node), self.number)
    }

    /// Whether it stands before another one.
    pub(crate) fn is_before(self, other: HeldCopy) -> bool
        ensures value { result ≡ nat_lt (rank self) (rank other) }
        ensures apart { result ≡ false → is_copy_of self.node self.number other ≡ false →
            rank other < rank self }
    {
        self.rank() < other.rank()
    }

    /// Whether it is that of a node's number.
    pub(crate) fn is_of(self, node: NodeId, number: Absolute) -> bool
        ensures value { result ≡ is_copy_of node.0 number self }
        ensures apart { result ≡ false → rank self ≢ rank_of node.0 number }
    {
        self.node == node.0 && self.number == number
    }
}
