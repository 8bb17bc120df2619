//! Laws of the definitions that [`GatewayPath::hear`](crate::GatewayPath::hear) and
//! [`NodePath::hear`](crate::NodePath::hear) cite. Each stands on a function that does nothing.

ghost use Rattle.std.specs.Prelude.{◌≡◌, ℕ, ◌<◌, Option, Some, List, ◌∷◌, ◌++◌, IsTrue};
ghost use Rattle.std.specs.List.{list_any};
ghost use Rattle.path_mgmt.specs.GatewayPath.{heard_at_gateway};
ghost use Rattle.path_mgmt.specs.NodePath.{is_alive, node_after_all, node_anew, tells_alive};
ghost use Rattle.path_mgmt.specs.declared.event.PathEvent.{PathEvent};

/// A gateway is alive to a node exactly where one of the messages that the node heard tells it.
pub fn a_gateway_is_alive_where_it_told_so()
    ensures { (counter gateway : ℕ) (heard : List (ℕ × PathEvent)) → gateway < 256 →
        is_alive (node_after_all (node_anew counter) heard) gateway ≡ list_any (tells_alive gateway) heard }
{}

/// From its Node Alive Response on a gateway stays alive, whatever was heard and is heard.
pub fn a_gateway_stays_alive()
    ensures { (counter gateway number : ℕ) (before after : List (ℕ × PathEvent)) → gateway < 256 →
        let heard = before ++ (gateway, PathEvent.AliveTold number) ∷ after in
        IsTrue (is_alive (node_after_all (node_anew counter) heard) gateway) }
{}

/// A restart counter that is told again, with no other told between, opens no epoch: the second Echo
/// Response, at which that counter is known, has the reply of the first and changes nothing.
pub fn a_counter_told_again_opens_no_epoch()
    ensures { (known : Option ℕ) (number counter own : ℕ) →
        heard_at_gateway (Some counter) (PathEvent.EchoTold number counter) own
        ≡ record (heard_at_gateway known (PathEvent.EchoTold number counter) own) { changed = None } }
{}
