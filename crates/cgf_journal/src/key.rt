// A key that a tally keeps.
ghost use Rattle.std.specs.Prelude.{◌≡◌, ◌≢◌, ◌+◌, false, if◌then◌else◌, nat_lt};
ghost use Rattle.cgf_journal.specs.Keys.{changed_key, counts, is_named, key_of, rank_of, settled_key};
ghost use Rattle.cgf_journal.specs.Merged.{joined_key, moved_key};

use gw_base::scan::HeldKey;
use gw_base::{Absolute, NodeId};

/// A key that the firm entries hold or held, or that all entries do, and the round in which that
/// changed last. A round goes from one commit to the next. In this order of its fields it takes 16 octets.
#[derive(Clone, Copy)]
pub(crate) struct KeptKey {
    pub(crate) number: Absolute,
    pub(crate) node: NodeId,
    pub(crate) round: u16,
    /// Whether the entries that were firm as that round began hold it.
    pub(crate) was_held: bool,
    /// Whether all entries hold it.
    pub(crate) is_held: bool,
}

impl KeptKey {
    /// The key alone.
    pub(crate) fn key(self) -> HeldKey
        ensures { result ≡ key_of self }
    {
        HeldKey {
            node: self.node,
            number: self.number,
        }
    }

    /// Whether the firm entries hold it, or else all, in this round.
    pub(crate) fn counts(self, firm: bool, round: u16) -> bool
        ensures { result ≡ counts firm round self }
    {
        if firm && self.round == round {
            return self.was_held;
        }
        self.is_held
    }

    /// The key as all entries hold it or don't from this round on.
    pub(crate) fn changed(self, held: bool, round: u16) -> KeptKey
        ensures { result ≡ changed_key held round self }
    {
        KeptKey {
            was_held: self.counts(true, round),
            is_held: held,
            round,
            ..self
        }
    }

    /// The key as the firm entries hold it, or else all, for both and in whichever round.
    pub(crate) fn settled(self, firm: bool, round: u16) -> KeptKey
        ensures { result ≡ settled_key firm round self }
    {
        let held = self.counts(firm, round);
        KeptKey {
            was_held: held,
            is_held: held,
            round: 0,
            ..self
        }
    }

    /// The key of one round as it is kept in another.
    pub(crate) fn moved(self, from: u16, to: u16) -> KeptKey
        ensures { result ≡ moved_key from to self }
    {
        KeptKey {
            was_held: self.counts(true, from),
            round: to,
            ..self
        }
    }

    /// The key, which another list keeps too, as both together say in this round.
    pub(crate) fn joined(self, other: KeptKey, round: u16) -> KeptKey
        ensures { result ≡ joined_key round self other }
    {
        let was_held = self.counts(true, round) || other.counts(true, round);
        KeptKey {
            was_held,
            is_held: self.is_held || other.is_held,
            round,
            ..self
        }
    }

    /// Whether it stands before a node's number: nodes come in order of their addresses, and of one
    /// node the numbers.
    pub(crate) fn is_before(self, node: NodeId, number: Absolute) -> bool
        ensures { result ≡ nat_lt (rank_of self.node.0 self.number) (rank_of node.0 number) }
    {
        if self.node.0 != node.0 {
            return self.node.0 < node.0;
        }
        self.number < number
    }

    /// Whether it is a number of this node, or stands before those.
    pub(crate) fn is_up_to(self, node: NodeId) -> bool
        ensures { result ≡ nat_lt (rank_of self.node.0 self.number) (rank_of (node.0 + 1) 0) }
    {
        self.node.0 <= node.0
    }

    /// Whether it is a node's number.
    pub(crate) fn is_at(self, node: NodeId, number: Absolute) -> bool
        ensures named { result ≡ is_named node.0 number (key_of self) }
        ensures apart { result ≡ false → rank_of self.node.0 self.number ≢ rank_of node.0 number }
    {
        if node.0 != self.node.0 {
            return false;
        }
        number == self.number
    }
}

/// What a fact adds to a count.
pub(crate) fn one_if(fact: bool) -> u64
    ensures { result ≡ (if fact then 1 else 0) }
{
    if fact { 1 } else { 0 }
}
