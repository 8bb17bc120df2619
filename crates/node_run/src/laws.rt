//! What the laws of nodes say holds of a node that ran.
ghost use Rattle.std.specs.Prelude.{◌≡◌, ◌<◌, ◌^◌, ℕ, List, [], ◌∷◌};
ghost use Rattle.node_core.specs.Log.{Began, NodeSetup};
ghost use Rattle.node_core.specs.Reached.{NodeCall, reached};
ghost use Rattle.node_core.specs.Value.{node_of};
ghost use Rattle.node_run.specs.Keeping.{KeepsPackets};
ghost use Rattle.node_run.specs.Running.{Turn, node_after};

use node_core::each_call_goes_on;

/// A node that ran over two links, whatever its turns heard, is one that some calls reach. So what the laws say of
/// every list of calls holds of it.
pub fn a_node_that_ran_was_called()
    ensures { (setup : NodeSetup) (packets : ℕ) (turns : List Turn) → packets < 2 ^ 32 →
        (calls : List NodeCall) × (node_after packets (node_of setup (Began ∷ [])) turns ≡ reached setup calls) }
{
    each_call_goes_on();
}

/// A node that ran over two links keeps each packet that was submitted to it, of so many at most, under its number.
pub fn a_node_that_ran_keeps_its_packets()
    ensures { (setup : NodeSetup) (packets : ℕ) (turns : List Turn) → packets < 2 ^ 32 →
        KeepsPackets packets (node_after packets (node_of setup (Began ∷ [])) turns) }
{
    each_call_goes_on();
}
