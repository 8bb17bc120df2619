ghost use Rattle.std.specs.Prelude.{◌≡◌, ◌≤◌, List, ℕ, [], ◌∷◌, ◌++◌, length};
ghost use Rattle.gw_base.specs.declared.address.NodeId.{NodeId};
ghost use Rattle.gw_base.specs.declared.history.HistoryEntry.{HistoryEntry};
ghost use Rattle.gw_base.specs.declared.history.PacketKey.{PacketKey};
ghost use Rattle.gw_base.specs.History.{epoch_of, present_state, state_of};
ghost use Rattle.gw_base.specs.View.{node_view_after, node_view_of, present_after, state_after, view_after, view_of};

/// What a history says of all nodes together changes by each further entry alone.
pub fn view_goes_on()
    ensures { (h : List HistoryEntry) (e : HistoryEntry) → view_of (h ++ e ∷ []) ≡ view_after (view_of h) e }
{}

/// What a history says of one node changes by each further entry alone.
pub fn node_view_goes_on()
    ensures { (node : ℕ) (h : List HistoryEntry) (e : HistoryEntry) →
        node_view_of node (h ++ e ∷ []) ≡ node_view_after node (node_view_of node h) e.act }
{}

/// An entry changes a key's state where it stands in the key's epoch and names it.
pub fn key_state_goes_on()
    ensures { (key : PacketKey) (h : List HistoryEntry) (e : HistoryEntry) →
        state_of key (h ++ e ∷ []) ≡ state_after key (epoch_of key.node.0 h) (state_of key h) e.act }
{}

/// A Path of a number's node makes the number fresh, and an entry that names it gives its state.
pub fn present_state_goes_on()
    ensures { (node number : ℕ) (h : List HistoryEntry) (e : HistoryEntry) →
        present_state node number (h ++ e ∷ []) ≡ present_after node number (present_state node number h) e.act }
{}

/// A number's present state is that of its key in the node's present epoch.
pub fn present_state_is_that_of_the_epoch()
    ensures { (node : NodeId) (number : ℕ) (h : List HistoryEntry) →
        state_of (record { node = node; epoch = epoch_of node.0 h; number = number }) h
        ≡ present_state node.0 number h }
{}

/// There are no more epochs than entries.
pub fn epochs_are_within_the_length()
    ensures { (node : ℕ) (h : List HistoryEntry) → epoch_of node h ≤ length h }
{}
