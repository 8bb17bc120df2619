//! Laws of what a gateway answers, records and files. Each stands on a function that does nothing.

ghost use Rattle.std.specs.Prelude.{◌≡◌, ◌≢◌, ◌≤◌, [], ◌∷◌, ◌++◌, ℕ, Bool, true, false, List, Option, None, count_by, length};
ghost use Rattle.entry_codec.specs.Room.{IsWithin, capacity_of, costs_of};
ghost use Rattle.gtpp_message.specs.Message.{Cancel, Release, TransferResponse, TransferValue};
ghost use Rattle.gw_base.specs.History.{is_close_due, last_moment};
ghost use Rattle.gw_base.specs.Known.{known_nodes};
ghost use Rattle.gw_base.specs.Observed.{Observed, observed};
ghost use Rattle.gw_base.specs.declared.address.Addr.{Addr};
ghost use Rattle.gw_base.specs.declared.address.NodeId.{NodeId};
ghost use Rattle.gw_base.specs.declared.cause.TheConstants.{ACCEPTED};
ghost use Rattle.gw_base.specs.declared.history.Caller.{Caller};
ghost use Rattle.gw_base.specs.declared.history.HistoryAct.{HistoryAct};
ghost use Rattle.gw_base.specs.declared.history.HistoryAct.TheVariants.{Close, Seal};
ghost use Rattle.gw_base.specs.declared.history.HistoryEntry.{HistoryEntry};
ghost use Rattle.gw_base.specs.declared.history.PacketKey.{PacketKey};
ghost use Rattle.gw_base.specs.declared.key_state.KeyState.TheVariants.{Fresh};
ghost use Rattle.gateway_answer.specs.Answer.{Replies, answer_by, answer_within};
ghost use Rattle.gateway_answer.specs.Answered.{answer_to, entry_by, room_for};
ghost use Rattle.gateway_answer.specs.Filed.{along, filed, filed_by};
ghost use Rattle.gateway_answer.specs.Fit.{IsFit, is_act_fit, latest_moment};
ghost use Rattle.gateway_answer.specs.FitHistory.{AllFit, StandsFitFor};
ghost use Rattle.gateway_answer.specs.Items.{is_part, items_by, items_of};
ghost use Rattle.gateway_index.specs.Limits.{most_nodes};
ghost use Rattle.gateway_answer.specs.Once.{times_filed};
ghost use Rattle.gateway_answer.specs.Preparing.{IsWhole, PreparedValue, Request, prepared_of};
ghost use Rattle.gateway_answer.specs.Recording.{Accepts, HasRoomFor, IfRecords, IsWithinLimits, is_without_resources};
ghost use Rattle.gateway_index.specs.Windows.{AgreeWhereMeant, narrowed};

/// An answer records an act only where it accepts a request, or where it answers Node Alive: a
/// request that is answered with another cause adds nothing.
pub fn only_what_is_accepted_is_recorded()
    ensures records { (o : Observed) (from : Addr) (datagram : PreparedValue) (may : HistoryAct → Bool) →
        IfRecords Accepts (answer_by o from datagram may) }
    ensures refused { (o : Observed) (from : Addr) (datagram : PreparedValue) (may : HistoryAct → Bool) →
        (number cause : ℕ) (responded : List ℕ) (act : Option HistoryAct) →
        answer_by o from datagram may ≡ Replies number (TransferResponse cause responded) act → cause ≢ ACCEPTED →
        act ≡ None }
{}

/// What a gateway makes of any octets is whole: the packet that a request sends is the one that its
/// value spells, and each of its records is what its format says.
pub fn what_is_prepared_is_whole()
    ensures { (octets : List ℕ) → IsWhole (prepared_of octets) }
{
    gtpp_message::laws::a_role_reads_what_is_read();
    gtpp_message::laws::what_is_read_may_be_sent();
}

/// The entry of each act that an answer records is fit behind the history that was asked.
pub fn what_is_recorded_is_fit()
    ensures { (h : List HistoryEntry) (from : Addr) (datagram : PreparedValue) (size now : ℕ) (who : Caller) →
        IsWhole datagram → last_moment h ≤ latest_moment → now ≤ latest_moment →
        IfRecords (λ number message act. IsFit size h (entry_by h now who act)) (answer_to h from datagram size) }
{}

/// In a fit history the moments are in the range, costs and promises are within the capacity, and no
/// more than 64 nodes are known.
pub fn a_fit_history_is_within_the_limits()
    ensures moments { (size : ℕ) (h : List HistoryEntry) → AllFit size h → last_moment h ≤ latest_moment }
    ensures costs { (size : ℕ) (h : List HistoryEntry) → AllFit size h → IsWithin h size }
    ensures nodes { (size : ℕ) (h : List HistoryEntry) → AllFit size h → length (known_nodes h) ≤ most_nodes }
{}

/// A history stays fit with an entry that is fit behind it, and each of its entries is.
pub fn fit_histories_go_on()
    ensures more { (size : ℕ) (h : List HistoryEntry) (e : HistoryEntry) → AllFit size h → IsFit size h e →
        AllFit size (h ++ e ∷ []) }
    ensures parts { (size : ℕ) (h : List HistoryEntry) (e : HistoryEntry) → AllFit size (h ++ e ∷ []) →
        AllFit size h × IsFit size h e }
{}

/// A request within the limits, with room for what it calls for, isn't refused for want of
/// resources.
#[tactic(auto, using(crate::specs::ResourceLaws::room_is_enough))]
pub fn room_is_enough()
    ensures { (o : Observed) (from : Addr) (number : ℕ) (body : TransferValue) (room : HistoryAct → Bool) →
        IsWithinLimits o number → HasRoomFor o from (Request number body) room →
        is_without_resources (answer_within o from (Request number body) room) ≡ false }
{}

/// Where costs and promises are within the capacity, no release or cancel is refused for want of
/// resources.
pub fn what_is_held_can_be_released()
    ensures release { (h : List HistoryEntry) (size : ℕ) (from : Addr) (number : ℕ) (numbers : List ℕ) →
        IsWithin h size → is_without_resources (answer_to h from (Request number (Release numbers)) size) ≡ false }
    ensures cancel { (h : List HistoryEntry) (size : ℕ) (from : Addr) (number : ℕ) (numbers : List ℕ) →
        IsWithin h size → is_without_resources (answer_to h from (Request number (Cancel numbers)) size) ≡ false }
{
    gw_base::scan::held_keys_are_those_in_that_state();
    entry_codec::laws::a_release_of_held_numbers_has_room();
    entry_codec::laws::a_cancel_of_held_numbers_has_room();
}

/// Where costs and promises are within the capacity, a Close that is due has room.
pub fn a_due_close_has_room()
    ensures { (h : List HistoryEntry) (size : ℕ) → IsWithin h size → is_close_due h ≡ true →
        room_for h size Close ≡ true }
{
    entry_codec::laws::a_due_close_has_room();
}

/// In a fit history each record of the packet under a key is filed at most once.
pub fn each_record_is_filed_once()
    ensures { (key : PacketKey) (index size : ℕ) (h : List HistoryEntry) → AllFit size h →
        times_filed key index (filed h) ≤ 1 }
{}

/// In a fit history a number is sealed only where nothing named it before in its node's present epoch.
/// So it is sealed at most once in an epoch, and before nothing else.
pub fn each_number_is_sealed_once()
    ensures { (size : ℕ) (h : List HistoryEntry) (e : HistoryEntry) (node : NodeId) (number : ℕ) →
        AllFit size (h ++ e ∷ []) → e.act ≡ Seal node number → (observed h node).state number ≡ Fresh }
{}

/// What a history files stays as it is when entries follow.
pub fn filed_records_stay()
    ensures records { (h g : List HistoryEntry) → filed (h ++ g) ≡ filed h ++ along filed_by h g }
    ensures items { (h g : List HistoryEntry) → items_of (h ++ g) ≡ items_of h ++ along items_by h g }
{}

/// Of all items of a history as many are records as it filed.
pub fn a_history_filed_its_parts()
    ensures { (h : List HistoryEntry) → count_by is_part (items_of h) ≡ length (filed h) }
{}

/// A history makes no more items than its entries cost of a journal. So one that stands in an area makes no more than
/// the area has octets behind its header.
pub fn items_are_fewer_than_octets()
    ensures costs { (h : List HistoryEntry) → length (items_of h) ≤ costs_of h }
    ensures stands { (header octets : List ℕ) (h : List HistoryEntry) → StandsFitFor header octets h →
        length (items_of h) ≤ capacity_of (length octets) }
{
    gw_base::scan::held_keys_are_those_in_that_state();
}

/// An answer asks the state of such numbers alone as one on the wire may mean. So of the numbers more than 32,768 below
/// the greatest one it is enough to know whether they are held, for answers and for which acts are fit.
pub fn a_window_is_enough()
    ensures meant { (o p : Observed) (from : Addr) (datagram : PreparedValue) (room : HistoryAct → Bool) →
        AgreeWhereMeant o p → answer_within o from datagram room ≡ answer_within p from datagram room }
    ensures answers { (o : Observed) (from : Addr) (datagram : PreparedValue) (room : HistoryAct → Bool) →
        answer_within (narrowed o) from datagram room ≡ answer_within o from datagram room }
    ensures fits { (of : NodeId → Observed) (act : HistoryAct) →
        is_act_fit (λ node. narrowed (of node)) act ≡ is_act_fit of act }
{}
