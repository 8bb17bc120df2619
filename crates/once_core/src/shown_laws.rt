//! Laws of worlds by what their messages mean. Each holds for all settings, and stands on a function
//! that does nothing.

ghost use Rattle.std.specs.Prelude.{◌≡◌, ◌≤◌, ℕ, length};
ghost use Rattle.gtpp_message.specs.Message.{MessageValue};
ghost use Rattle.gtpp_message.specs.Writing.{IsSendableMessage, body_octets, written};
ghost use Rattle.once_core.specs.Beginning.{IsReached};
ghost use Rattle.once_core.specs.Meaning.{meaning_in, meaning_of};
ghost use Rattle.once_core.specs.Messages.{about};
ghost use Rattle.once_core.specs.Shown.{IsMade};
ghost use Rattle.once_core.specs.World.{World};
ghost use Rattle.once_core.specs.declared.message.Message.{Message};

use crate::once_laws::a_node_follows_the_procedure;

/// A message whose octets are a message as it is sent means what that says.
pub fn what_is_sent_is_meant()
    ensures { (m : Message) (number : ℕ) (message : MessageValue) → m.octets ≡ written number message →
        IsSendableMessage message → length (body_octets message) ≤ 65535 →
        meaning_of m ≡ meaning_in (about m) message }
{
    gtpp_message::laws::written_is_read_back();
}

/// Whatever happens in a world of at least one gateway, some list of happenings makes it: the
/// gateways are the same, the nodes did what their logs say, and each request and each answer was sent.
pub fn each_world_is_made_by_happenings()
    ensures { (w : World) → IsReached w → IsMade w }
{
    gtpp_message::laws::written_is_read_back();
    gtpp_message::laws::a_role_reads_what_is_read();
    gtpp_message::laws::records_are_spelled();
    node_core::laws::a_gateway_gets_one_copy();
    a_node_follows_the_procedure();
}
