//! Laws of worlds. Each holds for all settings, and whatever a gateway is told, each time it asks, of which acts may be
//! recorded and whether its batch is full. Each stands on a function that does nothing.

ghost use Rattle.std.specs.Prelude.{◌≡◌, ◌-◌, ◌<◌, ◌≤◌, ◌++◌, ℕ, Bool, true, false, All, Contains, List, None, Some, count_by, length, slice_get};
ghost use Rattle.file_rotate.specs.Items.{Filed};
ghost use Rattle.file_writer.specs.Places.{FilePlace, place_in, record_at};
ghost use Rattle.file_writer.specs.Streams.{Settings, stream_record};
ghost use Rattle.gateway_answer.specs.Filed.{filed};
ghost use Rattle.gateway_answer.specs.Items.{items_of};
ghost use Rattle.gateway_answer.specs.Once.{is_record_of, times_filed};
ghost use Rattle.gateway_answer.specs.Told.{paths_of};
ghost use Rattle.gateway_answer.specs.Value.{BookValue, Gone, Refused, Whole, faulted, history_of, reopened, standing_for};
ghost use Rattle.gateway_answer.specs.declared.filing.FiledRecord.{FiledRecord};
ghost use Rattle.gw_base.specs.History.{state_of};
ghost use Rattle.gw_base.specs.declared.history.HistoryEntry.{HistoryEntry};
ghost use Rattle.gw_base.specs.declared.history.PacketKey.{PacketKey};
ghost use Rattle.once_core.specs.Addresses.{node_at};
ghost use Rattle.once_core.specs.Admitted.{AllAdmitted, AllKeepLimits, AllLimited, AllMarksDue, KeepLimits, moves_on};
ghost use Rattle.once_core.specs.Answers.{taken_in};
ghost use Rattle.once_core.specs.Beginning.{IsReached, default_rules, first_world, world_of};
ghost use Rattle.once_core.specs.FilePlaces.{placed};
ghost use Rattle.once_core.specs.Epochs.{StartsRise};
ghost use Rattle.once_core.specs.Gateway.{Gateway, Rules, cut};
ghost use Rattle.once_core.specs.Expired.{is_expired};
ghost use Rattle.once_core.specs.Growing.{GrowsTo, HoldSame, IsBetween};
ghost use Rattle.once_core.specs.Once.{Once, firm_in};
ghost use Rattle.once_core.specs.StandsOnce.{StandsOnce};
ghost use Rattle.once_core.specs.Turn.{RuledTurn, Turn, at_gateway, log_in, lost_if, refusal_of, ruled_turns, turn, turns};
ghost use Rattle.once_core.specs.World.{World, ticking};
ghost use Rattle.once_core.specs.declared.event.Event.TheVariants.{Deliver, Tick};
ghost use Rattle.once_core.specs.declared.message.Message.{Message};

use crate::once_laws::{a_node_follows_the_procedure, a_node_knows_what_it_was_told};
use crate::told_laws::what_is_filed_was_submitted;
use gateway_answer::FiledRecord as Filing;

/// What turns make of a first world of a gateway or more is reached, also where all gateways go by the
/// same rules in every turn; and what turns make of a world that is reached is reached.
pub fn turns_reach_worlds()
    ensures each { (first : ℕ → Rules) (gateways nodes : ℕ) (all : List RuledTurn) → 1 ≤ gateways →
        IsReached (ruled_turns (first_world first gateways nodes) all) }
    ensures alike { (rules : Rules) (gateways nodes : ℕ) (all : List Turn) → 1 ≤ gateways →
        IsReached (turns rules (world_of rules gateways nodes) all) }
    ensures on { (w : World) (later : List RuledTurn) → IsReached w → IsReached (ruled_turns w later) }
{}

/// Whatever happens in a world of at least one gateway, each record of each packet that its node
/// ever resolved is filed once by all gateways together, and each record of any other packet at most
/// once. None is filed of a copy that is held, a stranded one too, or was cancelled, what is filed
/// for a copy is its packet's record, and nothing that is filed counts for two records. So it is, as a
/// case of this, where all go by the same rules.
pub fn each_record_is_filed_once()
    ensures { (w : World) → IsReached w → Once w }
{
    gtpp_message::laws::written_is_read_back();
    gtpp_message::laws::a_role_reads_what_is_read();
    gtpp_message::laws::records_are_spelled();
    node_core::laws::a_gateway_gets_one_copy();
    a_node_follows_the_procedure();
}

/// What a node sends in a tick isn't expired: in the world right after the tick its gateway knows of no
/// later start of the node; and of a Data Record Transfer Request it knows the node's start as the
/// present one, and takes the number that the request speaks of for the one that was meant, by what is
/// firm alone and with any entries that follow. So where the next event delivers it, the gateway does
/// what it does to a message whose age nobody asks for.
pub fn what_a_tick_sends_is_not_expired()
    ensures sent { (w : World) (node : ℕ) (m : Message) (g : Gateway) (h : List HistoryEntry) → IsReached w →
        refusal_of w (Tick node) ≡ None →
        Contains (ticking (length w.gateways) (node - 1) (log_in w node)).sends m →
        slice_get w.gateways m.gateway ≡ Some g → IsBetween g.book.firm g.book.rest h → is_expired h m ≡ false }
    ensures delivered { (before : World) (tick next : RuledTurn) (node number : ℕ) (m : Message) → IsReached before →
        let after = turn tick.rules before tick.turn in
        tick.turn.event ≡ Tick node → next.turn.event ≡ Deliver number →
        length before.messages < number → slice_get after.messages (number - 1) ≡ Some m →
        turn next.rules after next.turn ≡ lost_if next.turn.is_lost after
        (at_gateway after m.gateway (taken_in next.rules after.now next.turn.fortune m)) }
{
    gw_base::nearest_is_the_one();
    gtpp_message::laws::written_is_read_back();
    gtpp_message::laws::a_role_reads_what_is_read();
    gtpp_message::laws::records_are_spelled();
    node_core::laws::each_number_has_one_role();
    node_core::laws::open_numbers_stay_near();
    node_core::laws::numbers_stay_near_the_last_settled();
    node_core::laws::requests_are_of_copies();
    node_core::laws::a_gateway_gets_one_copy();
    a_node_knows_what_it_was_told();
    a_node_follows_the_procedure();
}

/// What is firm stays so in any turns, whatever devices do: the firm part of each gateway's history
/// only grows, and so do the records that it files.
#[tactic(auto, using(crate::proofs::GrowingLemmas::filed_grows, crate::proofs::GrowingLemmas::turns_grow))]
pub fn firm_parts_only_grow()
    ensures entries { (w : World) (later : List RuledTurn) (place : ℕ) →
        GrowsTo (firm_in w place) (firm_in (ruled_turns w later) place) }
    ensures filed { (w : World) (later : List RuledTurn) (place : ℕ) →
        GrowsTo (filed (firm_in w place)) (filed (firm_in (ruled_turns w later) place)) }
{}

/// The place of a record in the files of a firm part stays.
pub fn places_stay()
    ensures { (w : World) (later : List RuledTurn) (place k : ℕ) (settings : Settings) (at : FilePlace) →
        place_in settings (items_of (firm_in w place)) k ≡ Some at →
        place_in settings (items_of (firm_in (ruled_turns w later) place)) k ≡ Some at }
{
    file_writer::places::a_place_stays();
}

/// A record stands in the files of a history at as many places as it was filed times: each filed
/// record has one place. And no place is that of two records.
pub fn each_filed_record_has_one_place()
    ensures count { (settings : Settings) (key : PacketKey) (index : ℕ) (h : List HistoryEntry) →
        count_by (λ x. is_record_of key index x.1) (placed settings h) ≡ times_filed key index (filed h) }
    ensures only { (settings : Settings) (h : List HistoryEntry) (place : FilePlace) (one other : FiledRecord) →
        Contains (placed settings h) (place, one) → Contains (placed settings h) (place, other) → one ≡ other }
{
    file_rotate::division_closes_where_files_end::<Filing>();
}

/// What stands at a place was filed. The places are those of the history's items, whose records the
/// writer of files is told: the files of these have the record there, and a record nowhere else.
pub fn what_stands_at_a_place_was_filed()
    ensures filed { (settings : Settings) (h : List HistoryEntry) (place : FilePlace) (filing : FiledRecord) →
        Contains (placed settings h) (place, filing) → Contains (filed h) filing }
    ensures there { (settings : Settings) (h : List HistoryEntry) (place : FilePlace) (filing : FiledRecord) →
        Contains (placed settings h) (place, filing) → record_at settings (items_of h) place
        ≡ Some (stream_record settings.profile filing.kind filing.octets filing.moment) }
    ensures all { (settings : Settings) (h : List HistoryEntry) (place : FilePlace) (found : Filed (List ℕ)) →
        record_at settings (items_of h) place ≡ Some found →
        (filing : FiledRecord) × Contains (placed settings h) (place, filing) }
{
    file_rotate::division_closes_where_files_end::<Filing>();
}

/// Whatever happens in a world of at least one gateway, each record of each packet that its node ever
/// resolved stands at one place of the files of all gateways, and each record of any other packet at
/// one at most. A copy that is held or was cancelled has no place. What stands at a place is one record
/// that a node was given, as it was submitted. Each gateway has settings of its files of its own.
pub fn each_record_stands_once()
    ensures { (settings : ℕ → Settings) (w : World) → IsReached w → StandsOnce settings w }
{
    each_record_is_filed_once();
    each_filed_record_has_one_place();
    what_stands_at_a_place_was_filed();
    what_is_filed_was_submitted();
}

/// Each entry of a firm part keeps to the table of answers: what it files, holds or seals was fresh,
/// and what it releases or cancels was held. So the states of keys only move forward. Each entry is
/// within the limits, too, where no turn's rules allow an act beyond them, as those by default don't. And
/// a mark stands only where a record was filed after the last Close.
pub fn histories_keep_to_the_table()
    ensures entries { (w : World) (place : ℕ) → IsReached w → AllAdmitted (firm_in w place) }
    ensures limits { (w : World) (place : ℕ) (reached : IsReached w) → AllKeepLimits reached.all →
        AllLimited (firm_in w place) }
    ensures by_default { KeepLimits default_rules }
    ensures marks { (w : World) (place : ℕ) → IsReached w → AllMarksDue (firm_in w place) }
    ensures states { (w : World) (later : List RuledTurn) (place : ℕ) (key : PacketKey) → IsReached w →
        moves_on (state_of key (firm_in w place)) (state_of key (firm_in (ruled_turns w later) place)) ≡ true }
{
    gateway_answer::laws::what_is_prepared_is_whole();
}

/// The starts of each node rise in what is firm at a gateway. So no two epochs of a node there begin
/// with the same start, and the present one begins with the greatest.
pub fn starts_only_rise()
    ensures { (w : World) (place : ℕ) → IsReached w → StartsRise (firm_in w place) }
{
    gtpp_message::laws::written_is_read_back();
    gtpp_message::laws::a_role_reads_what_is_read();
    gtpp_message::laws::records_are_spelled();
    node_core::laws::a_gateway_gets_one_copy();
    a_node_follows_the_procedure();
}

/// Each path that a gateway knows is that of a node of its world.
pub fn paths_lead_to_nodes()
    ensures { (w : World) (place : ℕ) (g : Gateway) → IsReached w → slice_get w.gateways place ≡ Some g →
        All (λ path. node_at path < length w.nodes) (paths_of (history_of g.book)) }
{
    gtpp_message::laws::written_is_read_back();
    gtpp_message::laws::a_role_reads_what_is_read();
    gtpp_message::laws::records_are_spelled();
    node_core::laws::a_gateway_gets_one_copy();
    a_node_follows_the_procedure();
}

/// What a crash leaves of a gateway's history, by the clauses of its book the firm entries alone or
/// these with all those behind them, waiting or torn, is what some stop leaves.
#[tactic(auto, using(crate::proofs::PartLemmas::crash_to_all, crate::proofs::PartLemmas::crash_to_firm))]
pub fn each_crash_is_a_stop()
    ensures firm { (g : Gateway) → history_of (cut 0 g).book ≡ g.book.firm }
    ensures whole { (g : Gateway) → history_of (cut (length (g.book.firm ++ g.book.rest)) g).book
        ≡ g.book.firm ++ g.book.rest }
{}

/// A commit that fails, with an opening again, leaves what a stop leaves with an opening that
/// records no Start: one that finds the torn entries whole is a stop that keeps all, and one that
/// finds them gone keeps the firm ones alone. An opening again that fails leaves the same choice,
/// and so does a stop in between.
#[tactic(auto, using(crate::proofs::PartLemmas::kept_firm, crate::proofs::PartLemmas::kept_whole, crate::proofs::PartLemmas::torn_dropped, crate::proofs::PartLemmas::torn_kept))]
pub fn a_failed_commit_is_a_stop()
    ensures whole { (g : Gateway) → g.book.is_broken ≡ false →
        HoldSame (reopened (faulted g.book) Whole)
        (standing_for (history_of (cut (length (history_of g.book)) g).book)) }
    ensures gone { (g : Gateway) → g.book.is_broken ≡ false →
        HoldSame (reopened (faulted g.book) Gone)
        (standing_for (history_of (cut (length g.book.firm) g).book)) }
    ensures refused { (book : BookValue) → HoldSame (reopened (faulted book) Refused) (faulted book) }
    ensures kept { (g : Gateway) → HoldSame (reopened g.book Whole)
        (standing_for (history_of (cut (length (g.book.firm ++ g.book.rest)) g).book)) }
    ensures dropped { (g : Gateway) → HoldSame (reopened g.book Gone)
        (standing_for (history_of (cut (length g.book.firm) g).book)) }
{}
