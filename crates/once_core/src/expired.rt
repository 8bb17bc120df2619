// Which messages are expired.
ghost use Rattle.std.specs.Prelude.{◌≡◌, ◌%◌, ◌==◌};
ghost use Rattle.gw_base.specs.Nearest.{nearest};
ghost use Rattle.once_core.specs.Expired.{is_expired, is_expired_at_node};
ghost use Rattle.once_core.specs.Standing.{is_expired_kept};

use crate::addresses::node_id;
use crate::message::Message;
use gw_base::{Absolute, HistoryEntry, scan};
use node_core::Node;

/// Whether the 16 bits of a number that the wire carries are taken for this number, where the
/// greatest one so far is `top`.
fn is_taken_for(top: Option<Absolute>, number: Absolute) -> bool
    ensures { result ≡ (nearest top (number % 65536) == number) }
{
    let wire = number % 65_536;
    let (low, ahead) = match top {
        None => (65_536, wire),
        Some(top) => {
            let low = top.saturating_sub(32_768);
            (low, (wire + 65_536 - low % 65_536) % 65_536)
        }
    };
    number >= low && number - low == ahead
}

/// Whether a message is expired at a gateway with this history.
pub(crate) fn is_expired(history: &[HistoryEntry], message: &Message) -> bool
    ensures { result ≡ is_expired history.now message.now }
{
    let node = node_id(message.node);
    let start = scan::start(history, node);
    if message.start < start {
        return true;
    }
    if !message.is_request() {
        return false;
    }
    message.start != start || !is_taken_for(scan::top(history, node), message.about())
}

/// Whether a message is expired at a node that has made so many starts.
pub fn is_expired_at_node(starts: u8, node: &Node, message: &Message) -> bool
    ensures { result ≡ is_expired_kept starts node.now message.now }
{
    if message.start != starts {
        return true;
    }
    if !message.is_response() {
        return false;
    }
    let last = node.last_number(message.gateway);
    !is_taken_for(Some(last), message.number)
}
