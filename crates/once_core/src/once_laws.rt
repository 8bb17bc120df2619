//! Laws of every list of happenings at gateways and nodes, where messages are what they mean. Each
//! stands on a function that does nothing. A world with octets is such a list of happenings:
//! [`shown_laws`](crate::shown_laws).

ghost use Rattle.std.specs.Prelude.{◌≡◌, ◌<◌, ◌≤◌, ◌%◌, ◌++◌, ℕ, true, All, List, Some, length};
ghost use Rattle.gw_base.specs.History.{epoch_of, top_of};
ghost use Rattle.gw_base.specs.Nearest.{nearest};
ghost use Rattle.gw_base.specs.Starts.{start_of};
ghost use Rattle.gw_base.specs.declared.history.HistoryEntry.{HistoryEntry};
ghost use Rattle.node_core.specs.Log.{NodeSetup, runs};
ghost use Rattle.node_core.specs.Nearness.{HasOpenCopy};
ghost use Rattle.node_core.specs.Packets.{PacketState};
ghost use Rattle.node_core.specs.Reached.{NodeCall, log_of, reached};
ghost use Rattle.once_core.specs.Deeds.{deeds_of};
ghost use Rattle.once_core.specs.Epochs.{StartsRise, epoch_with};
ghost use Rattle.once_core.specs.Expired.{starts_in};
ghost use Rattle.once_core.specs.FiledOnce.{IsOnce};
ghost use Rattle.once_core.specs.Followed.{packets_in};
ghost use Rattle.once_core.specs.Following.{Follows, Knows};
ghost use Rattle.once_core.specs.Growing.{IsBetween};
ghost use Rattle.once_core.specs.Happenings.{Happening, Scene};
ghost use Rattle.once_core.specs.Resting.{SceneHolds};
ghost use Rattle.once_core.specs.Scenes.{happened, nothing_yet, scene_after};
ghost use Rattle.once_core.specs.Story.{one_known, one_packet, one_story, times_of_one};

/// Whatever happens: where a node followed the procedure in a start, each record of each packet of
/// that start that it resolved was filed once by all gateways together, each record of any other at
/// most once, and no record of a copy that is held or cancelled.
pub fn each_record_of_a_start_is_filed_once()
    ensures { (happenings : List Happening) (node start : ℕ) (values : ℕ → List ℕ) (packets : List PacketState) →
        Follows ((scene_after happenings).deeds node) start values packets →
        All (λ packet.
        IsOnce (λ gateway. ((scene_after happenings).posts gateway).firm) node start (values packet.number) packet)
        packets }
{}

/// What holds of gateways, nodes and messages: nothing was done at the beginning, and it goes on with
/// whatever happens next.
#[tactic(auto, using(crate::proofs::MoveLemmas::holds_always, crate::proofs::MoveLemmas::holds_on, crate::proofs::MoveLemmas::holds_yet))]
pub fn what_holds_goes_on()
    ensures begins { SceneHolds nothing_yet }
    ensures on { (scene : Scene) (next : Happening) → SceneHolds scene → SceneHolds (happened scene next) }
    ensures always { (happenings : List Happening) → SceneHolds (scene_after happenings) }
{}

/// Where that holds, each record is filed as often as it should.
pub fn what_holds_files_each_record_once()
    ensures { (scene : Scene) (node start : ℕ) (values : ℕ → List ℕ) (packets : List PacketState) → SceneHolds scene →
        Follows (scene.deeds node) start values packets →
        All (λ packet. IsOnce (λ gateway. (scene.posts gateway).firm) node start (values packet.number) packet)
        packets }
{}

/// An epoch of a node is told by its start: the epoch with a start stays when entries follow, no two
/// starts have one epoch, and where a node's starts rise its present epoch is the one with its present
/// start.
#[tactic(auto, using(crate::proofs::EpochLemmas::epoch_stays, crate::proofs::EpochLemmas::present_epoch, crate::proofs::EpochLemmas::start_is_one))]
pub fn epochs_are_told_by_their_starts()
    ensures stays { (node start epoch : ℕ) (h more : List HistoryEntry) → epoch_with node start h ≡ Some epoch →
        epoch_with node start (h ++ more) ≡ Some epoch }
    ensures one { (node start other epoch : ℕ) (h : List HistoryEntry) → epoch_with node start h ≡ Some epoch →
        epoch_with node other h ≡ Some epoch → start ≡ other }
    ensures present { (node : ℕ) (h : List HistoryEntry) → StartsRise h →
        epoch_with node (start_of node h) h ≡ Some (epoch_of node h) }
{}

/// At every moment of a node's log, what the node knows of the packets of its present start is what
/// the law asks: each request number has one role, the first copy of a packet alone is plain, a
/// released copy is the chosen one, and all knowledge rests on answers that it heard in this start.
pub fn a_node_knows_what_it_was_told()
    ensures { (setup : NodeSetup) (calls : List NodeCall) (node : ℕ) (values : ℕ → List ℕ) →
        1 ≤ length setup.gateways →
        Knows (deeds_of node values (log_of setup calls)) (starts_in (log_of setup calls))
        (reached setup calls).packets }
{
    node_core::laws::knowledge_rests_on_responses();
    node_core::laws::released_copies_are_chosen();
    node_core::laws::a_gateway_gets_one_copy();
    node_core::laws::each_number_has_one_role();
}

/// Whatever is called of a node, it follows the procedure in each of its starts, by what it knows of
/// the packets of that start: in the present one as they are, and in another as they stood at its end.
pub fn a_node_follows_the_procedure()
    ensures { (setup : NodeSetup) (calls : List NodeCall) (node start : ℕ) (values : ℕ → List ℕ) →
        1 ≤ length setup.gateways →
        Follows (deeds_of node values (log_of setup calls)) start values (packets_in start (log_of setup calls)) }
{
    a_node_knows_what_it_was_told();
    node_core::laws::knowledge_grows();
    node_core::laws::requests_are_of_copies();
}

/// The number of an open copy is read as it is meant by a gateway whose present epoch is that of the
/// node's start, be it asked of the firm part alone or with entries that follow: so a request that a
/// node sends isn't too late when it comes at once.
pub fn open_numbers_are_read_as_meant()
    ensures { (happenings : List Happening) (setup : NodeSetup) (calls : List NodeCall) (node gateway number : ℕ)
        (values : ℕ → List ℕ) (h : List HistoryEntry) → 1 ≤ length setup.gateways → gateway < length setup.gateways →
        runs (log_of setup calls) ≡ true →
        (scene_after happenings).deeds node ≡ deeds_of node values (log_of setup calls) →
        let post = (scene_after happenings).posts gateway in IsBetween post.firm post.rest h →
        start_of node h ≡ starts_in (log_of setup calls) →
        HasOpenCopy (reached setup calls).packets gateway number →
        nearest (top_of node h) (number % 65536) ≡ number }
{
    gw_base::nearest_is_the_one();
    node_core::laws::each_number_has_one_role();
    node_core::laws::open_numbers_stay_near();
    node_core::laws::numbers_stay_near_the_last_settled();
    a_node_knows_what_it_was_told();
    a_node_follows_the_procedure();
}

/// The premise can be met: in a story of one packet, which comes to a gateway, is filed and
/// answered, the node follows the procedure, and the packet's record is filed once.
#[tactic(auto, using(crate::proofs::StoryLemmas::follows))]
pub fn a_node_may_follow_the_procedure()
    ensures follows { Follows ((scene_after one_story).deeds 5) 1 (λ number. one_packet) one_known }
    ensures filed { times_of_one ≡ 1 }
{}
