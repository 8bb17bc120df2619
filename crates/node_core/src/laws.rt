//! Laws of nodes. Each stands on a function that does nothing, and holds for every log, or for every
//! log that a node has after any calls.

ghost use Rattle.std.specs.Prelude.{◌≡◌, ℕ, ◌≤◌, ◌<◌, ◌+◌, Bool, true, false, List, ◌∷◌, All, Contains, length};
ghost use Rattle.std.specs.List.{flat_map};
ghost use Rattle.gw_base.specs.declared.address.Addr.{Addr};
ghost use Rattle.gw_base.specs.declared.cause.TheConstants.{SYSTEM_FAILURE};
ghost use Rattle.node_core.specs.declared.copy.Order.TheVariants as order;
ghost use Rattle.node_core.specs.declared.copy.PacketCopy.{PacketCopy};
ghost use Rattle.node_core.specs.declared.copy.Verdict.TheVariants as verdict;
ghost use Rattle.node_core.specs.declared.port.Port.{Port};
ghost use Rattle.node_core.specs.declared.sending.Sending.TheVariants as send;
ghost use Rattle.node_core.specs.Choosing.{IsChoiceOf, ReleasesChoice};
ghost use Rattle.node_core.specs.Copies.{copy_hearing, is_fulfilled, told};
ghost use Rattle.node_core.specs.Growing.{Extends, PacketGrows, is_within_start};
ghost use Rattle.node_core.specs.Knowing.{AreKnown};
ghost use Rattle.node_core.specs.Log.{LogEntry, NodeSetup, counter_of, packets_of, paths_of, peers_of};
ghost use Rattle.node_core.specs.Nearness.{ComesSoon, HasCopy, HasOpenCopy, IsCopyOrBase, all_unsettled_at};
ghost use Rattle.node_core.specs.Peers.{next_number};
ghost use Rattle.node_core.specs.Reached.{NodeCall, Tick, log_of, reached};
ghost use Rattle.node_core.specs.Resting.{AllRestOn, since_start};
ghost use Rattle.node_core.specs.Roles.{DrawsBetween, HasOneRole, IsSingle};
ghost use Rattle.node_core.specs.Sent.{IsSent};
ghost use Rattle.node_core.specs.Submitting.{least, unsettled_at};
ghost use Rattle.node_core.specs.Ticks.{due};
ghost use Rattle.node_core.specs.Value.{NodeValue};

/// A log has as many gateways as its node was made with.
#[tactic(auto, using(crate::proofs::NodeLemmas::gateways_count))]
pub fn a_log_keeps_its_gateways()
    ensures { (gateways : List Addr) (log : List LogEntry) → length (peers_of gateways log) ≡ length gateways }
{}

/// The restart counter of a log is the one that its node tells.
#[tactic(auto, using(crate::proofs::NodeLemmas::counter_stays))]
pub fn a_log_has_one_counter()
    ensures { (first : ℕ) (log : List LogEntry) → (paths_of first log).counter ≡ counter_of first log }
{}

/// A response that the gateway's device failed (cause 204) teaches a node nothing: at either port it
/// tells nothing of a copy, fulfills no release and no cancel, and leaves each copy as it was.
#[tactic(auto, using(crate::proofs::CopiesLemmas::failure_keeps, crate::proofs::CopiesLemmas::failure_tells))]
pub fn a_failure_teaches_nothing()
    ensures told { (port : Port) (is_plain : Bool) → told port is_plain SYSTEM_FAILURE ≡ verdict.Unknown }
    ensures fulfilled { is_fulfilled SYSTEM_FAILURE ≡ false }
    ensures copy { (port : Port) (gateway : ℕ) (numbers : List ℕ) (copy : PacketCopy) →
        copy_hearing port gateway SYSTEM_FAILURE numbers copy ≡ copy }
{}

/// What a node knows of a copy, and that a release or a cancel is fulfilled, was told by a response
/// that it heard since its start from the copy's gateway and that names just this number.
pub fn knowledge_rests_on_responses()
    ensures { (log : List LogEntry) → All (AllRestOn (since_start log)) (packets_of log) }
{}

/// What a node knows of an open packet's copy is what the first response tells that says something
/// of it, among those to its number that were heard from its gateway since the number was drawn. A
/// release or a cancel is fulfilled where one of those to its own number says so.
#[tactic(auto, using(crate::proofs::KnowingLemmas::all_are_known))]
pub fn the_first_telling_response_decides()
    ensures { (setup : NodeSetup) (calls : List NodeCall) → 1 ≤ length setup.gateways →
        All (AreKnown (log_of setup calls)) (reached setup calls).packets }
{}

/// Within a start packets and copies stay, what is known of them stays, and what is resolved or done
/// stays so.
#[tactic(auto, using(crate::proofs::KnowledgeLemmas::entry_grows))]
pub fn knowledge_grows()
    ensures { (entry : LogEntry) (log : List LogEntry) → is_within_start entry ≡ true →
        Extends PacketGrows (packets_of log) (packets_of (entry ∷ log)) }
{}

/// A release that is due names the chosen duplicate of a packet whose first copy is sealed.
pub fn releases_name_the_choice()
    ensures { (node : NodeValue) (packet gateway named number : ℕ) (is_new : Bool) →
        Contains (due node) (send.Command packet gateway named number order.Release is_new) →
        IsChoiceOf node.packets packet gateway named }
{}

/// A copy for which a release was sent stays the choice of its packet, whose first copy is sealed.
#[tactic(auto, using(crate::proofs::LawLemmas::all_released_chosen))]
pub fn released_copies_are_chosen()
    ensures { (setup : NodeSetup) (calls : List NodeCall) → 1 ≤ length setup.gateways →
        All ReleasesChoice (reached setup calls).packets }
{}

/// Each request of a tick is of a copy that the packets have after it: a copy, or a test of it, or the
/// release or the cancel that was sent for it, which is the same whenever it is sent again.
#[tactic(auto, using(crate::proofs::LawLemmas::all_requests_sent))]
pub fn requests_are_of_copies()
    ensures { (setup : NodeSetup) (calls : List NodeCall) → 1 ≤ length setup.gateways →
        (reached setup calls).is_running ≡ true →
        All (IsSent (reached setup (Tick ∷ calls)).packets) (due (reached setup calls)) }
{}

/// A packet has one copy at a gateway, the first alone is plain, and a release or a cancel has a
/// greater number than its copy.
#[tactic(auto, using(crate::proofs::LawLemmas::all_single))]
pub fn a_gateway_gets_one_copy()
    ensures { (setup : NodeSetup) (calls : List NodeCall) → 1 ≤ length setup.gateways →
        All (IsSingle (reached setup calls).gateways) (reached setup calls).packets }
{}

/// Each request number that was drawn for a gateway since the start is that of one copy, or of one
/// release or cancel.
#[tactic(auto, using(crate::proofs::RolesLemmas::one_role))]
pub fn each_number_has_one_role()
    ensures { (setup : NodeSetup) (calls : List NodeCall) (gateway number : ℕ) → 1 ≤ length setup.gateways →
        gateway < length setup.gateways → HasOneRole (reached setup calls) gateway number }
{}

/// Numbers rise: each request number that a tick draws is at least the gateway's next one before it and
/// below the next one after it, and no next number falls by it.
#[tactic(auto, using(crate::proofs::LawLemmas::all_draw_between, crate::proofs::LawLemmas::next_goes_on))]
pub fn numbers_rise()
    ensures drawn { (setup : NodeSetup) (calls : List NodeCall) → 1 ≤ length setup.gateways →
        (reached setup calls).is_running ≡ true →
        All (DrawsBetween (reached setup calls).gateways (reached setup (Tick ∷ calls)).gateways)
        (due (reached setup calls)) }
    ensures next { (setup : NodeSetup) (calls : List NodeCall) (gateway : ℕ) → 1 ≤ length setup.gateways →
        next_number (reached setup calls).gateways gateway
        ≤ next_number (reached setup (Tick ∷ calls)).gateways gateway }
{}

/// At each gateway the number of an open packet's copy is at most 16,511 below the next one.
pub fn open_numbers_stay_near()
    ensures { (setup : NodeSetup) (calls : List NodeCall) (gateway number : ℕ) → 1 ≤ length setup.gateways →
        gateway < length setup.gateways → HasOpenCopy (reached setup calls).packets gateway number →
        next_number (reached setup calls).gateways gateway ≤ number + 16511 }
{}

/// Behind the number of each copy, and behind 65,535, the number of another copy comes within 65, or
/// the next number does.
#[tactic(auto, using(crate::proofs::SoonLemmas::comes_soon))]
pub fn copies_come_soon()
    ensures { (setup : NodeSetup) (calls : List NodeCall) (gateway number : ℕ) → 1 ≤ length setup.gateways →
        gateway < length setup.gateways → IsCopyOrBase (reached setup calls) gateway number →
        ComesSoon (reached setup calls) gateway number }
{}

/// Where all copies of a gateway with greater numbers than this one are of open packets, the next
/// number is at most 16,576 above it.
pub fn numbers_stay_near_the_last_settled()
    ensures { (setup : NodeSetup) (calls : List NodeCall) (gateway number : ℕ) → 1 ≤ length setup.gateways →
        gateway < length setup.gateways → IsCopyOrBase (reached setup calls) gateway number →
        ((later : ℕ) → HasCopy (reached setup calls).packets gateway later → number < later →
        HasOpenCopy (reached setup calls).packets gateway later) →
        next_number (reached setup calls).gateways gateway ≤ number + 16576 }
{}

/// The least number of the open packets' copies at a gateway is the least of all their numbers there.
#[tactic(auto, using(crate::proofs::LawLemmas::least_of_copies))]
pub fn the_least_number_is_of_a_copy()
    ensures { (setup : NodeSetup) (calls : List NodeCall) (gateway number : ℕ) → 1 ≤ length setup.gateways →
        least number (flat_map (unsettled_at gateway) (reached setup calls).packets)
        ≡ least number (flat_map (all_unsettled_at gateway) (reached setup calls).packets) }
{}
