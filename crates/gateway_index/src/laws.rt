//! A law of what an index tells. It stands on a function that does nothing.
ghost use Rattle.std.specs.Prelude.{◌≡◌, Bool, List, length};
ghost use Rattle.gw_base.specs.HeldKeys.{held_keys};
ghost use Rattle.gw_base.specs.Known.{known_nodes};
ghost use Rattle.gw_base.specs.Observed.{observed};
ghost use Rattle.gw_base.specs.declared.address.NodeId.{NodeId};
ghost use Rattle.gw_base.specs.declared.history.HistoryEntry.{HistoryEntry};
ghost use Rattle.gateway_index.specs.Index.{Follows, observed_by, side_of};
ghost use Rattle.gateway_index.specs.Tells.{totals_of};
ghost use Rattle.gateway_index.specs.Windows.{narrowed};
ghost use Rattle.gateway_index.specs.declared.index.Index.{Index};

use gw_base::scan::{held_keys_are_those_in_that_state, present_state_is_that_of_the_epoch};

/// What an index tells is what the history says that it follows, as far as its windows reach.
pub fn an_index_tells_its_history()
    ensures observed { (firm : Bool) (index : Index) (h : List HistoryEntry) (node : NodeId) →
        Follows firm index h → observed_by firm index node ≡ narrowed (observed h node) }
    ensures totals { (firm : Bool) (index : Index) (h : List HistoryEntry) →
        Follows firm index h → (side_of firm index).totals ≡ totals_of h }
    ensures held { (firm : Bool) (index : Index) (h : List HistoryEntry) →
        Follows firm index h → (side_of firm index).held.count ≡ length (held_keys h) }
    ensures known { (firm : Bool) (index : Index) (h : List HistoryEntry) →
        Follows firm index h → (side_of firm index).nodes.known ≡ known_nodes h }
{
    held_keys_are_those_in_that_state();
    present_state_is_that_of_the_epoch();
}
