//! Laws of what the messages of a world, and the records that it filed, tell for certain. Each holds for
//! all settings, whatever may be recorded, and in every world of at least one gateway, and stands on a
//! function that does nothing.

ghost use Rattle.std.specs.Prelude.{ℕ, Contains};
ghost use Rattle.gateway_answer.specs.Filed.{filed};
ghost use Rattle.gateway_answer.specs.declared.filing.FiledRecord.{FiledRecord};
ghost use Rattle.once_core.specs.Beginning.{IsReached};
ghost use Rattle.once_core.specs.Once.{firm_in};
ghost use Rattle.once_core.specs.Told.{MeanCopies, NameChoices, TellStates, WasSubmitted};
ghost use Rattle.once_core.specs.World.{World};

use crate::once_laws::a_node_follows_the_procedure;

/// No message means a copy that its node didn't send: each request is of a copy, and so is the request
/// that an answer answers, where the answer tells a node something.
pub fn no_message_means_a_copy_that_was_not_sent()
    ensures { (w : World) → IsReached w → MeanCopies w }
{
    gtpp_message::laws::written_is_read_back();
    gtpp_message::laws::a_role_reads_what_is_read();
    gtpp_message::laws::records_are_spelled();
    node_core::laws::a_gateway_gets_one_copy();
    a_node_follows_the_procedure();
}

/// An answer that tells of a plain copy that it is filed, of any copy that it is sealed or released, or a
/// test that its copy is filed, is right: the number has that state in the firm part of the gateway's
/// history.
pub fn answers_mean_their_state()
    ensures { (w : World) → IsReached w → TellStates w }
{
    gtpp_message::laws::written_is_read_back();
    gtpp_message::laws::a_role_reads_what_is_read();
    gtpp_message::laws::records_are_spelled();
    node_core::laws::a_gateway_gets_one_copy();
    a_node_follows_the_procedure();
}

/// A release names the one chosen copy of a packet, whose first copy is sealed in the firm part of its
/// gateway's history.
pub fn a_release_names_the_choice()
    ensures { (w : World) → IsReached w → NameChoices w }
{
    gtpp_message::laws::written_is_read_back();
    gtpp_message::laws::a_role_reads_what_is_read();
    gtpp_message::laws::records_are_spelled();
    node_core::laws::a_gateway_gets_one_copy();
    a_node_follows_the_procedure();
}

/// Each record that a gateway filed was filed for a copy that a node sent it, and is the record with its
/// index of the packet that was submitted to the node.
pub fn what_is_filed_was_submitted()
    ensures { (w : World) (place : ℕ) (filing : FiledRecord) → IsReached w →
        Contains (filed (firm_in w place)) filing → WasSubmitted w place filing }
{
    gtpp_message::laws::written_is_read_back();
    gtpp_message::laws::a_role_reads_what_is_read();
    gtpp_message::laws::records_are_spelled();
    node_core::laws::a_gateway_gets_one_copy();
    a_node_follows_the_procedure();
}
