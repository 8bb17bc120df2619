ghost use Rattle.std.specs.Prelude.{◌≡◌, ◌≤◌, length};
ghost use Rattle.std.specs.Option.{option_map};
ghost use Rattle.gtpp_message.specs.Values.{message_value, packet_value, transfer_value};
ghost use Rattle.gtpp_message.specs.Writing.{written};
ghost use Rattle.gw_base.specs.Entry.{act_view};
ghost use Rattle.gateway_answer.specs.Answer.{Replies, answer_within, asked_by, decided, failure_answer, failure_reply, heard, may_record, node_of, path_given, recording, replying, responding, sent, tabled};
ghost use Rattle.gateway_answer.specs.Asked.{act_of, recorded_as, sending, sending_again};
ghost use Rattle.gateway_answer.specs.Cases.{case_value};
ghost use Rattle.gateway_answer.specs.Decisions.{decision_view};
ghost use Rattle.gateway_index.specs.Limits.{is_in_range, within_limits};
ghost use Rattle.gateway_answer.specs.Preparing.{IsShort, IsShortTransfer, prepared_of};

use crate::case::Case;
use crate::decision::Decision;
use crate::listing::{Scratch, listed};
use crate::observe::Observe;
use crate::preparing::Prepared;
use gtpp_elements::Numbers;
use gtpp_message::{Message, Packet, Transfer, Why};
use gw_base::{Absolute, Act, Addr, KeyState, NodeId, Short, cause, nearest_number};
use path_mgmt::{GatewayPath, PathAnswer, PathEvent};
use transfer_cmd::{Ask, decide};

/// The least number that an entry may bear.
const LEAST_NUMBER: Absolute = 32_768;

/// The number from which on no entry may bear one.
const NUMBERS_END: Absolute = 1 << 63;

/// Whether an entry may bear a number.
pub(crate) fn is_in_range(number: Absolute) -> bool
    ensures { result ≡ is_in_range number }
{
    (LEAST_NUMBER..NUMBERS_END).contains(&number)
}

/// Whether an act of a node is within the limits.
fn within_limits<O: Observe>(seen: &O, node: NodeId, act: &Act<'_>) -> bool
    ensures { result ≡ within_limits (O.seen seen.now node) (act_view act.now) }
{
    match *act {
        Act::Path { .. } => seen.has_place(node),
        Act::File { number, .. } | Act::Seal { number, .. } => {
            seen.has_place(node) && is_in_range(number)
        }
        Act::Hold { number, .. } => {
            seen.has_place(node) && is_in_range(number) && seen.may_hold()
        }
        Act::Start | Act::Release { .. } | Act::Cancel { .. } | Act::Tick | Act::Close => true,
    }
}

/// Whether an act of a node may be recorded.
fn may_record<O: Observe>(seen: &O, node: NodeId, act: &Act<'_>) -> bool
    ensures { result ≡ may_record (O.seen seen.now node) (O.room seen.now) (act_view act.now) }
{
    within_limits(seen, node, act) && seen.has_room(act)
}

/// The message that goes back under a sequence number, and what is recorded with it.
fn reply<'a>(number: u16, message: &Message<'_>, act: Option<Act<'a>>) -> Decision<'a>
    requires { length (written number (message_value message.now)) ≤ 64 }
    ensures { decision_view result
        ≡ decided (Replies number (message_value message.now) (option_map act_view act.entry)) }
{
    Decision::Reply {
        reply: gtpp_message::write_short(number, message),
        act,
    }
}

/// The response to the request with this sequence number, by its cause.
fn responding(number: u16, cause: u8, act: Option<Act<'_>>) -> Decision<'_>
    ensures { decision_view result ≡ decided (responding number cause (option_map act_view act.entry)) }
{
    let octets = number.to_be_bytes();
    let Ok(responded) = Numbers::of(&octets) else {
        unreachable!();
    };
    reply(number, &Message::TransferResponse { cause, responded }, act)
}

/// The answer that calls for an entry; where that may not be recorded, no resources are available.
fn recording<'a, O: Observe>(
    seen: &O,
    node: NodeId,
    number: u16,
    cause: u8,
    act: Act<'a>,
) -> Decision<'a>
    ensures { decision_view result
        ≡ decided (recording (may_record (O.seen seen.now node) (O.room seen.now)) number cause (act_view act.entry)) }
{
    if may_record(seen, node, &act) {
        responding(number, cause, Some(act))
    } else {
        responding(number, cause::NO_RESOURCES, None)
    }
}

/// The answer by a table, which calls for an entry or not.
pub(crate) fn tabled<'a, O: Observe>(
    seen: &O,
    node: NodeId,
    number: u16,
    cause: u8,
    act: Option<Act<'a>>,
) -> Decision<'a>
    ensures { decision_view result
        ≡ decided (tabled (may_record (O.seen seen.now node) (O.room seen.now)) number cause
        (option_map act_view act.entry)) }
{
    match act {
        Some(act) => recording(seen, node, number, cause, act),
        None => responding(number, cause, None),
    }
}

/// What a request that sends this packet asks.
fn sending(packet: Packet<'_>) -> Ask
    ensures { result ≡ sending (packet_value packet.entry) }
{
    match packet {
        Packet::Empty => Ask::Empty,
        Packet::Full { .. } => Ask::Send,
    }
}

/// The same where the packet is possibly duplicated.
fn sending_again(packet: Packet<'_>) -> Ask
    ensures { result ≡ sending_again (packet_value packet.entry) }
{
    match packet {
        Packet::Empty => Ask::Empty,
        Packet::Full { .. } => Ask::Possible,
    }
}

/// What a request that sends a packet is recorded as.
fn act_of(ask: Ask, node: NodeId, number: Absolute, packet: &[u8]) -> Act<'_>
    ensures { act_view result ≡ act_of ask node number packet.now }
{
    match ask {
        Ask::Send => Act::File {
            node,
            number,
            packet,
        },
        Ask::Possible => Act::Hold {
            node,
            number,
            packet,
        },
        Ask::Empty => Act::Seal { node, number },
    }
}

/// The same, where the number gets a state.
fn recorded_as(
    ask: Ask,
    node: NodeId,
    number: Absolute,
    packet: &[u8],
    given: Option<KeyState>,
) -> Option<Act<'_>>
    ensures { option_map act_view result ≡ recorded_as ask node number packet.now given }
{
    match given {
        Some(_) => Some(act_of(ask, node, number, packet)),
        None => None,
    }
}

/// The answer to a request that sends a packet.
fn sent<'a, O: Observe>(
    seen: &O,
    node: NodeId,
    number: u16,
    ask: Ask,
    packet: &'a [u8],
) -> Decision<'a>
    ensures { decision_view result
        ≡ decided (sent (O.seen seen.now node) (may_record (O.seen seen.now node) (O.room seen.now)) node number ask
        packet.now) }
{
    let meant = nearest_number(seen.top(node), number);
    let (cause, given) = decide(seen.state(node, meant), ask);
    let act = recorded_as(ask, node, meant, packet, given);
    tabled(seen, node, number, cause, act)
}

/// The answer to a message of path management.
fn path_given<O: Observe>(seen: &O, from: Addr, event: PathEvent) -> Decision<'static>
    ensures { decision_view result
        ≡ decided (path_given (O.seen seen.now (node_of from))
        (may_record (O.seen seen.now (node_of from)) (O.room seen.now)) from event) }
{
    let opening = seen.opening(NodeId(from.ip));
    let known = opening.map(|path| path.counter);
    heard(seen, from, GatewayPath::hear(known, event, seen.own()))
}

/// The answer by what the gateway's end of the path makes of a message.
fn heard<O: Observe>(seen: &O, from: Addr, answer: PathAnswer) -> Decision<'static>
    ensures { decision_view result
        ≡ decided (heard (may_record (O.seen seen.now (node_of from)) (O.room seen.now)) from answer) }
{
    let node = NodeId(from.ip);
    let Some(counter) = answer.changed else {
        return replying(answer.reply, None);
    };
    let path = Act::Path {
        node,
        port: from.port,
        counter,
    };
    if may_record(seen, node, &path) {
        replying(answer.reply, Some(path))
    } else {
        Decision::Drop(Why::NoRoom)
    }
}

/// The message that tells an event goes back.
fn replying(event: Option<PathEvent>, act: Option<Act<'_>>) -> Decision<'_>
    ensures { decision_view result ≡ decided (replying event (option_map act_view act.entry)) }
{
    let Some(event) = event else {
        return Decision::Drop(Why::Stray);
    };
    let (number, message) = Message::of_path(event, None);
    reply(number, &message, act)
}

/// The answer where the device fails before any other is made.
pub fn failure_answer(case: &Case<'_>) -> Decision<'static>
    ensures { decision_view result ≡ decided (failure_answer (case_value case.now)) }
{
    match case {
        Case::Refused { number, .. } | Case::Request { number, .. } => {
            responding(*number, cause::SYSTEM_FAILURE, None)
        }
        Case::Drop(_) | Case::OtherVersion { .. } | Case::Path(_) => Decision::Drop(Why::Device),
    }
}

/// What goes back where the device fails: to a request the response by the cause system failure, and to anything else
/// nothing. It takes no memory.
pub fn failure(request: &Prepared<'_>) -> Option<Short>
    ensures { result ≡ failure_reply (prepared_of request.now) }
{
    match failure_answer(request.case()) {
        Decision::Reply { reply, act: _ } => Some(reply),
        Decision::Drop(_) => None,
    }
}

/// The answer to what was made of a datagram from this sender. It takes no memory.
pub fn answer_by<'a, 'p: 'a, O: Observe>(
    seen: &O,
    from: Addr,
    case: &Case<'p>,
    scratch: &'a mut Scratch,
) -> Decision<'a>
    requires { IsShort (case_value case.now) }
    ensures { decision_view result
        ≡ decided (answer_within (O.seen seen.now (node_of from)) from (case_value case.now) (O.room seen.now)) }
{
    match case {
        Case::Drop(why) => Decision::Drop(*why),
        Case::OtherVersion { number } => reply(*number, &Message::VersionNotSupported, None),
        Case::Refused { cause, number } => responding(*number, *cause, None),
        Case::Path(event) => path_given(seen, from, *event),
        Case::Request { number, body } => asked_by(seen, NodeId(from.ip), *number, body, scratch),
    }
}

/// The answer to a request.
fn asked_by<'a, 'p: 'a, O: Observe>(
    seen: &O,
    node: NodeId,
    number: u16,
    body: &Transfer<'p>,
    scratch: &'a mut Scratch,
) -> Decision<'a>
    requires { IsShortTransfer (transfer_value body.now) }
    ensures { decision_view result
        ≡ decided (asked_by (O.seen seen.now node) (may_record (O.seen seen.now node) (O.room seen.now)) node number
        (transfer_value body.now)) }
{
    match body {
        Transfer::Send(packet) => {
            let ask = sending(*packet);
            sent(seen, node, number, ask, packet.octets())
        }
        Transfer::Possible(packet) => {
            let ask = sending_again(*packet);
            sent(seen, node, number, ask, packet.octets())
        }
        Transfer::Cancel(numbers) => listed(seen, node, number, false, numbers, scratch),
        Transfer::Release(numbers) => listed(seen, node, number, true, numbers, scratch),
    }
}
