ghost use Rattle.std.specs.Prelude.{◌≡◌};
ghost use Rattle.std.specs.List.{list_all};
ghost use Rattle.ber_frame.specs.Checked.{is_one_value};
ghost use Rattle.gtpp_message.specs.Packet.{IsPacket};
ghost use Rattle.gtpp_message.specs.Values.{message_value, packet_value, transfer_value};
ghost use Rattle.gtpp_message.specs.Writing.{IsSendableMessage, IsSendableTransfer};
ghost use Rattle.gateway_answer.specs.Cases.{IsCaseOf, case_value};
ghost use Rattle.gateway_answer.specs.Preparing.{IsShort, IsWhole, packet_has_values, prepared_of, received, requested, sends_values, told};

use crate::case::Case;
use gtpp_message::{Message, Packet, Reading, Records, Role, Transfer, Why, read_as};
use gw_base::cause::CDR_DECODING_ERROR;
use path_mgmt::PathEvent;
use std::marker::Model;

/// A datagram that was read and whose records were checked. It is seen as its octets.
#[derive(Drop)]
pub struct Prepared<'a> {
    octets: &'a [u8],
    case: Case<'a>,
}

impl<'a> Model for Prepared<'a> {
    ghost use Rattle.std.specs.Prelude.{List, ℕ};
    ghost use Rattle.gateway_answer.specs.Cases.{IsCaseOf};

    ghost Value = { List ℕ };

    ghost view = { λ p. p.octets.now };

    ghost invariant = { λ p. IsCaseOf p.octets.now p.case };
}

impl<'a> Prepared<'a> {
    /// What the gateway makes of the datagram.
    pub fn case(&self) -> &Case<'a>
        ensures { IsCaseOf self.now result.now }
    {
        &self.case
    }
}

/// The data record format of records in ASN.1 BER.
pub(crate) const BER_FORMAT: u8 = 1;

/// Reads a datagram as a gateway does.
///
/// The first condition that holds decides: those of reading as a gateway, in their order, and then
/// that a record isn't what its format says. It takes no memory.
pub fn prepare(octets: &[u8]) -> Prepared<'_>
    ensures { result ≡ octets.now }
{
    is_short(octets);
    let case = case_of(octets);
    Prepared { octets, case }
}

/// No request is longer than the payload of a message may be.
fn is_short(octets: &[u8])
    ensures { IsShort (prepared_of octets.now) }
{
    gtpp_message::laws::a_role_reads_what_is_read();
    gtpp_message::laws::what_is_read_is_spelled();
}

/// What a gateway makes of the octets of a datagram.
fn case_of(octets: &[u8]) -> Case<'_>
    ensures prepared { case_value result ≡ prepared_of octets.now }
    ensures whole { IsWhole (case_value result) }
{
    match read_as(Role::Gateway, octets) {
        Reading::Drop(why) => Case::Drop(why),
        Reading::OtherVersion { number, .. } => Case::OtherVersion { number },
        Reading::Refused { cause, number, .. } => Case::Refused { cause, number },
        Reading::Message { number, message } => received(number, message),
    }
}

/// A message that was read.
fn received(number: u16, message: Message<'_>) -> Case<'_>
    requires { IsSendableMessage (message_value message) }
    ensures prepared { case_value result ≡ received number (message_value message.entry) }
    ensures whole { IsWhole (case_value result) }
{
    match message {
        Message::TransferRequest { body } => requested(number, body),
        message => told(message.path_event(number)),
    }
}

/// A message that tells an end of the path something, or else nothing.
fn told<'a>(event: Option<PathEvent>) -> Case<'a>
    ensures prepared { case_value result ≡ told event }
    ensures whole { IsWhole (case_value result) }
{
    match event {
        Some(event) => Case::Path(event),
        None => Case::Drop(Why::Stray),
    }
}

/// A Data Record Transfer Request that was read.
fn requested(number: u16, body: Transfer<'_>) -> Case<'_>
    requires { IsSendableTransfer (transfer_value body) }
    ensures prepared { case_value result ≡ requested number (transfer_value body.entry) }
    ensures whole { IsWhole (case_value result) }
{
    if sends_values(&body) {
        Case::Request { number, body }
    } else {
        let cause = CDR_DECODING_ERROR;
        Case::Refused { cause, number }
    }
}

/// Whether the records that a request sends are what their format says.
fn sends_values(body: &Transfer<'_>) -> bool
    requires { IsSendableTransfer (transfer_value body.now) }
    ensures { result ≡ sends_values (transfer_value body.now) }
{
    match body {
        Transfer::Send(packet) => has_values(*packet),
        Transfer::Possible(packet) => has_values(*packet),
        Transfer::Cancel(_) => true,
        Transfer::Release(_) => true,
    }
}

/// Whether each record of a packet of format 1 is one BER value.
pub(crate) fn has_values(packet: Packet<'_>) -> bool
    requires { IsPacket (packet_value packet) }
    ensures { result ≡ packet_has_values (packet_value packet.entry) }
{
    match packet {
        Packet::Full {
            format: BER_FORMAT,
            ..
        } => are_values(packet.records()),
        _ => true,
    }
}

/// Whether each of these records is one BER value.
#[tactic(auto, using(crate::proofs::FilingLemmas::all_more, crate::proofs::FilingLemmas::all_but_one))]
fn are_values(mut records: Records<'_>) -> bool
    ensures { result ≡ list_all is_one_value records.entry }
{
    while let Some(octets) = records.next() {
        if !is_one_value(octets) {
            return false;
        }
    }
    true
}

/// Whether a record is one BER value.
fn is_one_value(octets: &[u8]) -> bool
    ensures { result ≡ is_one_value octets.now }
{
    ber_frame::check(octets).is_ok()
}
