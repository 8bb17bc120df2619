use gw_base::{Absolute, Act, KeyState, NodeId, Opening};

/// What an answer asks of a gateway's history.
pub trait Observe {
    ghost use Rattle.std.specs.Prelude.{◌≡◌, ◌<◌, ◌^◌, Bool, IfSome};
    ghost use Rattle.gw_base.specs.Entry.{act_view};
    ghost use Rattle.gw_base.specs.Observed.{Observed};
    ghost use Rattle.gw_base.specs.declared.address.NodeId.{NodeId};
    ghost use Rattle.gw_base.specs.declared.history.HistoryAct.{HistoryAct};
    ghost use Rattle.gateway_index.specs.Limits.{has_place, may_hold};

    /// What is observed for each node.
    ghost seen: { Self → NodeId → Observed };

    /// Which acts there is room for.
    ghost room: { Self → HistoryAct → Bool };

    /// The gateway's own restart counter.
    fn own(&self) -> u8
        ensures { (node : NodeId) → result ≡ (seen self.now node).own };

    /// The Path that opened the node's present epoch, where one did.
    fn opening(&self, node: NodeId) -> Option<Opening>
        ensures { result ≡ (seen self.now node).opening };

    /// The greatest number that the node's present epoch names, where it names one.
    fn top(&self, node: NodeId) -> Option<Absolute>
        ensures value { result ≡ (seen self.now node).top }
        ensures bounded { IfSome result (λ t. t < 2 ^ 63) };

    /// The state of a number in the node's present epoch.
    fn state(&self, node: NodeId, number: Absolute) -> KeyState
        ensures { result ≡ (seen self.now node).state number };

    /// Whether the node is known or may become so.
    fn has_place(&self, node: NodeId) -> bool
        ensures { result ≡ has_place (seen self.now node) };

    /// Whether one more copy may be held.
    fn may_hold(&self) -> bool
        ensures { (node : NodeId) → result ≡ may_hold (seen self.now node) };

    /// Whether there is room for an act.
    fn has_room(&self, act: &Act<'_>) -> bool
        ensures { result ≡ room self.now (act_view act.now) };
}
