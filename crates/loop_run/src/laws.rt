//! What the laws of nodes say of those of a loop.
ghost use Rattle.std.specs.Prelude.{◌≡◌, ℕ, IsTrue, List, []};
ghost use Rattle.loop_audit.specs.Standing.{KeepsAll};
ghost use Rattle.node_run.specs.Running.{Turn, all_done, node_after};
ghost use Rattle.loop_run.specs.Addresses.{IsLoop};
ghost use Rattle.loop_run.specs.Ending.{open_numbers};
ghost use Rattle.loop_run.specs.Looped.{node_made};
ghost use Rattle.loop_run.specs.declared.setup.LoopSetup.{LoopSetup};

use node_core::laws::{a_gateway_gets_one_copy, a_log_keeps_its_gateways};
use node_run::{a_node_that_ran_keeps_its_packets, a_node_that_ran_was_called};

/// A node of a loop that ran keeps all its packets, as an audit asks; where it counts all as done, none is open.
pub fn nodes_of_a_loop_keep_all()
    ensures kept { (setup : LoopSetup) (place : ℕ) (turns : List Turn) → IsLoop setup →
        KeepsAll (node_after setup.packets (node_made setup place) turns) }
    ensures done { (setup : LoopSetup) (place : ℕ) (turns : List Turn) → IsLoop setup →
        IsTrue (all_done setup.packets (node_after setup.packets (node_made setup place) turns)) →
        open_numbers setup.packets (node_after setup.packets (node_made setup place) turns) ≡ [] }
{
    a_node_that_ran_keeps_its_packets();
    a_node_that_ran_was_called();
    a_gateway_gets_one_copy();
    a_log_keeps_its_gateways();
}
