ghost use Rattle.std.specs.Prelude.{◌≡◌, ◌<◌, ◌==◌, ◌&&◌, IfSome, IsTrue, None, Some, if◌then◌else◌, length, map, option_map};
ghost use Rattle.gtpp_message.specs.Message.{RedirectionResponse};
ghost use Rattle.gtpp_message.specs.Values.{lent, message_value, reading_value};
ghost use Rattle.gtpp_message.specs.Writing.{written};
ghost use Rattle.gw_base.specs.Nearest.{nearest};
ghost use Rattle.node_core.specs.Hearing.{Says, dropping, heard_entries, heeding, heeds, id_of, made_by, path_octets, saying_entries, taken_entries, taken_of, taken_of_message, taken_of_path};
ghost use Rattle.node_core.specs.Log.{Other, Path, Redirects, Responds, packets_hearing};
ghost use Rattle.node_core.specs.Moving.{appointing, is_refusal, next_place, redirected};
ghost use Rattle.node_core.specs.Packets.{is_done, is_resolved};
ghost use Rattle.node_core.specs.Peers.{last_number, place_of};
ghost use Rattle.node_core.specs.Value.{befallen};

use crate::message::Heeded;
use crate::moving::{is_refusal, next_place, redirected};
use crate::node::Node;
use crate::packets::Made;
use crate::peer::{last_number, place_of};
use crate::port::Port;
use crate::responded::Responded;
use gtpp_elements::Numbers;
use gtpp_message::{Message, Reading, Role, Why, read_as, write_short};
use gw_base::cause::ACCEPTED;
use gw_base::{Addr, NodeId, PacketId, Short};
use path_mgmt::PathEvent;

impl Node {
    /// Hears a datagram from this sender at a port. A datagram that isn't from a gateway is dropped
    /// as stray; the sender's port isn't compared. It takes no memory.
    pub fn hear(&mut self, port: Port, from: Addr, octets: &[u8]) -> Heeded
        requires { IsTrue self.old.is_running }
        ensures heeds { result ≡ heeds self.old port from octets.now }
        ensures node { self.new ≡ befallen (heard_entries self.old port from octets.now) self.old }
    {
        match self.place_of(from) {
            None => dropping(Why::Stray),
            Some(gateway) => self.take(port, gateway, read_as(Role::Node, octets)),
        }
    }

    /// The place of the gateway with this address.
    fn place_of(&self, from: Addr) -> Option<u8>
        ensures { result ≡ place_of self.now.gateways from.ip }
    {
        place_of(&self.gateways, from.ip)
    }

    /// Takes what was read of a datagram from a gateway.
    fn take(&mut self, port: Port, gateway: u8, reading: Reading<'_>) -> Heeded
        ensures heeds { result ≡ heeding self.old port gateway
            (taken_of self.old.paths.counter (last_number self.old.gateways gateway)
            (reading_value reading.entry)) }
        ensures node { self.new ≡ befallen (taken_entries self.old port gateway
            (taken_of self.old.paths.counter (last_number self.old.gateways gateway)
            (reading_value reading.entry))) self.old }
    {
        match reading {
            Reading::Drop(why) => dropping(why),
            Reading::OtherVersion { number, .. } => {
                self.hear_other(
                    port,
                    gateway,
                    Some(write_short(number, &Message::VersionNotSupported)),
                )
            }
            Reading::Refused { cause, number, .. } => {
                let answer = write_short(number, &Message::RedirectionResponse { cause });
                self.hear_other(port, gateway, Some(answer))
            }
            Reading::Message { number, message } => {
                self.take_message(port, gateway, number, message)
            }
        }
    }

    /// Takes a message from a gateway.
    fn take_message(&mut self, port: Port, gateway: u8, number: u16, message: Message<'_>) -> Heeded
        ensures heeds { result ≡ heeding self.old port gateway
            (taken_of_message self.old.paths.counter (last_number self.old.gateways gateway) number
            (message_value message.entry)) }
        ensures node { self.new ≡ befallen (taken_entries self.old port gateway
            (taken_of_message self.old.paths.counter (last_number self.old.gateways gateway) number
            (message_value message.entry))) self.old }
    {
        match message {
            Message::RedirectionRequest { to, .. } => {
                self.hear_redirection(port, gateway, number, to)
            }
            Message::RedirectionResponse { .. } => self.hear_other(port, gateway, None),
            Message::TransferResponse { cause, responded } => {
                self.hear_response(port, gateway, cause, responded)
            }
            Message::EchoRequest => {
                self.hear_path(port, gateway, PathEvent::EchoAsked { number })
            }
            Message::EchoResponse { counter } => {
                self.hear_path(port, gateway, PathEvent::EchoTold { number, counter })
            }
            Message::NodeAliveResponse => {
                self.hear_path(port, gateway, PathEvent::AliveTold { number })
            }
            Message::VersionNotSupported
            | Message::NodeAliveRequest { .. }
            | Message::TransferRequest { .. } => dropping(Why::Stray),
        }
    }

    /// Hears a message that changes nothing, and gives this reply.
    fn hear_other(&mut self, port: Port, gateway: u8, reply: Option<Short>) -> Heeded
        ensures heeds { result ≡ heeding self.old port gateway (Says Other reply) }
        ensures node { self.new ≡ befallen (saying_entries self.old port gateway Other) self.old }
    {
        self.end_quiet(gateway);
        replying(reply)
    }

    /// Hears a message of path management.
    fn hear_path(&mut self, port: Port, gateway: u8, event: PathEvent) -> Heeded
        ensures heeds { result ≡ heeding self.old port gateway (taken_of_path self.old.paths.counter (Some event)) }
        ensures node { self.new ≡ befallen (saying_entries self.old port gateway (Path event)) self.old }
    {
        self.end_quiet(gateway);
        let answer = self.paths.hear(gateway, event);
        replying(path_reply(answer.reply))
    }

    /// Hears a Redirection Request.
    fn hear_redirection(
        &mut self,
        port: Port,
        gateway: u8,
        number: u16,
        to: Option<&[u8]>,
    ) -> Heeded
        ensures heeds { result ≡ heeding self.old port gateway
            (Says (Redirects (lent to.entry)) (Some (written number (RedirectionResponse ACCEPTED)))) }
        ensures node { self.new ≡ befallen (saying_entries self.old port gateway (Redirects (lent to.entry))) self.old }
    {
        let moved = self.redirected(gateway, to);
        self.end_quiet(gateway);
        self.appoint(moved);
        let answer = Message::RedirectionResponse { cause: ACCEPTED };
        replying(Some(write_short(number, &answer)))
    }

    /// Hears a Data Record Transfer Response.
    fn hear_response(
        &mut self,
        port: Port,
        gateway: u8,
        cause: u8,
        responded: Numbers<'_>,
    ) -> Heeded
        ensures heeds { result ≡ heeding self.old port gateway
            (Says (Responds cause
            (map (nearest (Some (last_number self.old.gateways gateway))) responded.entry)) None) }
        ensures node { self.new ≡ befallen (saying_entries self.old port gateway
            (Responds cause (map (nearest (Some (last_number self.old.gateways gateway))) responded.entry))) self.old }
    {
        let address = self.address;
        let moved = self.refused(port, gateway, cause);
        self.end_quiet(gateway);
        let made = self.learn(port, gateway, cause, responded);
        self.appoint(moved);
        telling(address, made)
    }

    /// Where a Redirection Request moves the favourite, if it comes from it.
    fn redirected(&self, gateway: u8, to: Option<&[u8]>) -> Option<u8>
        ensures moved { result ≡ (if gateway == self.now.favourite_place
            then redirected self.now.gateways gateway (lent to.entry) else None) }
        ensures within { IfSome result (λ place. place < length self.now.gateways) }
    {
        if gateway != self.favourite {
            return None;
        }
        redirected(&self.gateways, gateway, to)
    }

    /// Where a response with this cause moves the favourite, if it comes from it.
    fn refused(&self, port: Port, gateway: u8, cause: u8) -> Option<u8>
        ensures moved { result ≡ (if (gateway == self.now.favourite_place) && is_refusal port cause
            then next_place (length self.now.gateways) gateway else None) }
        ensures within { IfSome result (λ place. place < length self.now.gateways) }
    {
        let is_refused = is_refusal(port, cause);
        if gateway == self.favourite && is_refused {
            next_place(self.gateways.len(), gateway)
        } else {
            None
        }
    }

    /// Notes that a gateway said something.
    fn end_quiet(&mut self, gateway: u8)
        ensures { self.new ≡ record self.old {
          quiet = (if gateway == self.old.favourite_place then 0 else self.old.quiet);
        } }
    {
        if gateway == self.favourite {
            self.quiet = 0;
        }
    }

    /// Makes a gateway the favourite, if one is given.
    fn appoint(&mut self, gateway: Option<u8>)
        requires { IfSome gateway (λ place. place < length self.old.gateways) }
        ensures { self.new ≡ befallen (appointing gateway) self.old }
    {
        if let Some(gateway) = gateway {
            self.favourite = gateway;
            self.quiet = 0;
        }
    }

    /// Learns what a response tells of the packets.
    fn learn(&mut self, port: Port, gateway: u8, cause: u8, responded: Numbers<'_>) -> Made
        ensures packets { self.new ≡ record self.old {
          packets = packets_hearing port gateway (Responds cause
              (map (nearest (Some (last_number self.old.gateways gateway))) responded.entry)) self.old.packets;
        } }
        ensures resolved { result.resolved ≡ made_by is_resolved self.old port gateway
            (Responds cause (map (nearest (Some (last_number self.old.gateways gateway))) responded.entry)) }
        ensures done { result.done ≡ made_by is_done self.old port gateway
            (Responds cause (map (nearest (Some (last_number self.old.gateways gateway))) responded.entry)) }
    {
        let numbers = Responded::new(responded, last_number(&self.gateways, gateway));
        self.packets.hear(port, gateway, cause, &numbers)
    }
}

/// The datagram is dropped.
fn dropping(why: Why) -> Heeded
    ensures { result ≡ dropping why }
{
    Heeded {
        reply: None,
        drop: Some(why),
        resolved: None,
        done: None,
    }
}

/// The datagram is answered so, and made no packet resolved or done.
fn replying(reply: Option<Short>) -> Heeded
    ensures { result ≡ record { reply = reply; drop = None; resolved = None; done = None } }
{
    Heeded {
        reply,
        drop: None,
        resolved: None,
        done: None,
    }
}

/// The datagram isn't answered; it made these packets resolved and done.
fn telling(address: u32, made: Made) -> Heeded
    ensures { result ≡ record {
      reply = None;
      drop = None;
      resolved = id_of address made.resolved;
      done = id_of address made.done;
    } }
{
    Heeded {
        reply: None,
        drop: None,
        resolved: id_of(address, made.resolved),
        done: id_of(address, made.done),
    }
}

/// The packet of a node with this address and this number, where there is one.
fn id_of(address: u32, number: Option<u64>) -> Option<PacketId>
    ensures { result ≡ id_of address number }
{
    match number {
        None => None,
        Some(number) => Some(PacketId {
            node: NodeId(address),
            number,
        }),
    }
}

/// The octets of an answer of path management, where there is one.
fn path_reply(answer: Option<PathEvent>) -> Option<Short>
    ensures { result ≡ option_map path_octets answer }
{
    match answer {
        None => None,
        Some(event) => Some(path_octets(event)),
    }
}

#[tactic(auto, using(crate::proofs::WrittenLemmas::path_is_short))]
fn path_octets(event: PathEvent) -> Short
    ensures { result ≡ path_octets event }
{
    let (number, message) = Message::of_path(event, None);
    write_short(number, &message)
}
