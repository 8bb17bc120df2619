// What an answer asks of an index.
ghost use Rattle.std.specs.Prelude.{◌≡◌, Bool, ℕ, List};
ghost use Rattle.gw_base.specs.Observed.{observed};
ghost use Rattle.gw_base.specs.declared.address.Addr.{Addr};
ghost use Rattle.gw_base.specs.declared.address.NodeId.{NodeId};
ghost use Rattle.gw_base.specs.declared.history.HistoryAct.{HistoryAct};
ghost use Rattle.gw_base.specs.declared.history.HistoryEntry.{HistoryEntry};
ghost use Rattle.gateway_index.specs.Index.{Follows, observed_by};
ghost use Rattle.gateway_index.specs.declared.index.Index.{Index};
ghost use Rattle.gateway_answer.specs.Answer.{answer_within, node_of};
ghost use Rattle.gateway_answer.specs.Fit.{is_act_fit};
ghost use Rattle.gateway_answer.specs.Preparing.{PreparedValue};
ghost use Rattle.gateway_answer.specs.Told.{key_of};
ghost use Rattle.gateway_book.specs.Lookups.{key_seen};

use gateway_answer::laws::a_window_is_enough;
use gateway_index::laws::an_index_tells_its_history;

/// What an index tells is enough for answers, for what is fit, and for what a number on the wire means: each is as the
/// history says that it follows.
pub(crate) fn an_index_is_enough()
    ensures answers { (firm : Bool) (index : Index) (h : List HistoryEntry) → Follows firm index h →
        (from : Addr) (datagram : PreparedValue) (room : HistoryAct → Bool) →
        answer_within (observed_by firm index (node_of from)) from datagram room
        ≡ answer_within (observed h (node_of from)) from datagram room }
    ensures fits { (firm : Bool) (index : Index) (h : List HistoryEntry) (act : HistoryAct) →
        Follows firm index h → is_act_fit (observed_by firm index) act ≡ is_act_fit (observed h) act }
    ensures keys { (firm : Bool) (index : Index) (h : List HistoryEntry) (node : NodeId) (wire : ℕ) →
        Follows firm index h → key_seen (observed_by firm index node) wire ≡ key_of h node wire }
{
    an_index_tells_its_history();
    a_window_is_enough();
}
