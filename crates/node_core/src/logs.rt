//! How the log of a node grows. Each law stands on a function that does nothing.

ghost use Rattle.std.specs.Prelude.{◌≡◌, ℕ, List, ◌∷◌};
ghost use Rattle.gw_base.specs.declared.address.Addr.{Addr};
ghost use Rattle.node_core.specs.declared.port.Port.{Port};
ghost use Rattle.node_core.specs.Hearing.{heard_entries};
ghost use Rattle.node_core.specs.Log.{LogEntry, NodeSetup};
ghost use Rattle.node_core.specs.Reached.{NodeCall, call_entries, reached};
ghost use Rattle.node_core.specs.Ticks.{tick_entries};
ghost use Rattle.node_core.specs.Value.{CanFollowAll, IsNode, NodeValue, befallen, logged};

/// A node that stands for a log stands, after what befalls it, for the log with these entries: so
/// what each call of a node does to it is what its log tells.
#[tactic(auto, using(crate::proofs::NodeLemmas::entries_stand))]
pub fn a_node_stands_for_its_log()
    ensures { (setup : NodeSetup) (entries log : List LogEntry) (node : NodeValue) → CanFollowAll entries log →
        IsNode setup log node → IsNode setup (logged entries log) (befallen entries node) }
{}

/// What befalls a node in a tick, and when it hears a datagram, can follow every log.
#[tactic(auto, using(crate::proofs::NodeLemmas::heard_follow, crate::proofs::NodeLemmas::tick_follow))]
pub fn ticks_and_messages_follow_every_log()
    ensures tick { (node : NodeValue) (log : List LogEntry) → CanFollowAll (tick_entries node) log }
    ensures hear { (node : NodeValue) (log : List LogEntry) (port : Port) (from : Addr) (octets : List ℕ) →
        CanFollowAll (heard_entries node port from octets) log }
{}

/// One more call makes of a node what befalls it by that call. So a node that is moved call by call is
/// the one that the list of these calls reaches, and what the laws say of every list of calls holds of
/// it.
#[tactic(auto, using(crate::proofs::NodeLemmas::call_goes_on))]
pub fn each_call_goes_on()
    ensures { (setup : NodeSetup) (call : NodeCall) (calls : List NodeCall) → reached setup (call ∷ calls)
        ≡ befallen (call_entries (reached setup calls) call) (reached setup calls) }
{}
