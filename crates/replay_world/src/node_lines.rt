// What befalls a node of a replay. One that isn't there is left alone.
ghost use Rattle.std.specs.Prelude.{◌≡◌, ◌-◌, ◌++◌, [], ℕ, List, ◌≢◌, IfErr, IfOk, IfSome, OnOk, MatchOption, None, Some, Ok, Err, false, true, map};
ghost use Rattle.node_core.specs.Drafts.{is_without_records, value_octets};
ghost use Rattle.node_core.specs.Log.{LogEntry};
ghost use Rattle.node_core.specs.declared.fault.DraftFault.TheVariants as draft_fault;
ghost use Rattle.node_core.specs.declared.fault.SubmitFault.TheVariants as submit_fault;
ghost use Rattle.node_core.specs.Submitting.{refusal_of as refusal_by};
ghost use Rattle.once_core.specs.Expired.{is_expired_at_node, starts_in};
ghost use Rattle.once_core.specs.Turn.{no_running_node, refusal_of};
ghost use Rattle.once_core.specs.declared.event.Event.TheVariants as event;
ghost use Rattle.once_core.specs.NodeMoves.{message_kept};
ghost use Rattle.once_core.specs.World.{answers_of, draft_of};
ghost use Rattle.once_core.specs.declared.message.Message.{Message as MessageValue};
ghost use Rattle.replay_world.specs.Does.{Does, DoesAll};
ghost use Rattle.replay_world.specs.Lines.{submit_steps};
ghost use Rattle.replay_world.specs.Notices.{Refused, draft_fault_name, notice_line, notice_lines, submit_fault_name};
ghost use Rattle.replay_world.specs.Packets.{drafted};
ghost use Rattle.replay_gateway.specs.Ends.{ends_kept};
ghost use Rattle.replay_world.specs.Sending.{HasSent, IsTo, passed};
ghost use Rattle.replay_world.specs.Stands.{Stands};
ghost use Rattle.replay_world.specs.Steps.{Plays};
ghost use Rattle.replay_world.specs.Telling.{heeded_notices};
ghost use Rattle.replay_world.specs.Value.{ReplayValue};

use crate::gateway_lines::index_of;
use crate::notices::{
    print_done, print_down, print_drop, print_expired, print_refused, print_resolved, print_took,
};
use crate::replay::Replay;
use gw_base::{NoMemory, Octets};
use node_core::{
    Draft, DraftFault, Heeded, Node, Outgoing, SubmitFault, a_node_stands_for_its_log,
};
use once_core::{Message, gateway_address};
use replay_gateway::Ends;
use std::alloc::Global;

/// The most packets of a node.
const MOST_SUBMISSIONS: u64 = 4_611_686_018_427_355_136;

fn draft_fault_name(fault: DraftFault) -> Option<&'static str>
    ensures name { IfSome result (λ name. name.now ≡ draft_fault_name fault) }
    ensures own { IfSome result (λ name. fault ≢ draft_fault.NoMemory) }
    ensures none { result ≡ None → fault ≡ draft_fault.NoMemory }
{
    match fault {
        DraftFault::Count => Some("Count"),
        DraftFault::TooBig => Some("TooBig"),
        DraftFault::Ber(_) => Some("Ber"),
        DraftFault::NoMemory => None,
    }
}

fn submit_fault_name(fault: SubmitFault) -> Option<&'static str>
    ensures name { IfSome result (λ name. name.now ≡ submit_fault_name fault) }
    ensures own { IfSome result (λ name. refusal_by fault ≡ Some fault) }
    ensures none { result ≡ None → fault ≡ submit_fault.NoMemory }
{
    match fault {
        SubmitFault::Empty => Some("Empty"),
        SubmitFault::InFlight => Some("InFlight"),
        SubmitFault::NumbersOut { .. } => Some("NumbersOut"),
        SubmitFault::NoMemory => None,
    }
}

impl Replay {
    /// A node is given records to send.
    pub(crate) fn submit(
        &mut self,
        alloc: Global,
        place: u8,
        format: u8,
        version: u16,
        records: &[Octets],
        out: &mut Octets,
    ) -> Result<(), NoMemory>
        ensures { (v : ReplayValue) (number : ℕ) → Stands v self.old →
            number - 1 ≡ place → no_running_node v.world number ≡ None → OnOk result
            (DoesAll v
            (submit_steps number (drafted format version records.now)) out.old out.new self.new true) }
    {
        match drafted(alloc, format, version, records) {
            Ok(draft) => {
                let _packet = draft.packet();
                self.submit_draft(alloc, place, draft, out)
            }
            Err(fault) => refuse(alloc, draft_fault_name(fault), out),
        }
    }

    // A node is given a packet to send.
    fn submit_draft(
        &mut self,
        alloc: Global,
        place: u8,
        draft: Draft,
        out: &mut Octets,
    ) -> Result<(), NoMemory>
        ensures { (v : ReplayValue) (number : ℕ) → Stands v self.old →
            number - 1 ≡ place → no_running_node v.world number ≡ None →
            (is_without_records draft ≡ false → draft_of (value_octets draft) ≡ Some draft) → OnOk result
            (Does v
            (Plays (event.Submit number (value_octets draft))) out.old out.new self.new) }
    {
        let index = usize::from(place);
        // A draft without records is no packet.
        if draft.is_empty() {
            return Ok(());
        }
        if index >= self.nodes.len() {
            return Ok(());
        }
        if !self.nodes[index].runs() {
            return Ok(());
        }
        a_node_stands_for_its_log();
        // Past the most packets none is taken.
        if self.nodes[index].counts().packets >= MOST_SUBMISSIONS {
            return Ok(());
        }
        let id = match self.nodes[index].submit(alloc, draft) {
            Ok(id) => id,
            Err((fault, _)) => return refuse(alloc, submit_fault_name(fault), out),
        };
        print_took(alloc, out, place, id.number)
    }

    /// A node sends what is due.
    #[tactic(auto, using(crate::proofs::NodeSubmitLemmas::ticked, crate::proofs::NodeSubmitLemmas::node_running))]
    pub(crate) fn tick(
        &mut self,
        alloc: Global,
        place: u8,
        out: &mut Octets,
    ) -> Result<(), NoMemory>
        ensures { (v : ReplayValue) (number : ℕ) → Stands v self.old →
            number - 1 ≡ place → no_running_node v.world number ≡ None → OnOk result
            (Does v (Plays (event.Tick number)) out.old out.new
            self.new) }
    {
        let index = usize::from(place);
        if index >= self.nodes.len() {
            return Ok(());
        }
        if !self.nodes[index].runs() {
            return Ok(());
        }
        a_node_stands_for_its_log();
        let start = self.nodes[index].counter();
        let sent = self.nodes[index].tick(alloc)?;
        let messages = messages_of(alloc, place, start, sent)?;
        self.send_all(alloc, messages, out)
    }

    /// A node halts.
    #[tactic(auto, using(crate::proofs::NodeEventLemmas::halted))]
    pub(crate) fn halt(&mut self, place: u8)
        ensures { (v : ReplayValue) (number : ℕ) → Stands v self.old →
            number - 1 ≡ place → no_running_node v.world number ≡ None →
            Does v (Plays (event.Halt number)) [] [] self.new }
    {
        let index = usize::from(place);
        if index >= self.nodes.len() {
            return;
        }
        a_node_stands_for_its_log();
        self.nodes[index].halt();
    }

    /// A halted node starts again.
    #[tactic(auto, using(crate::proofs::NodeEventLemmas::started, crate::proofs::NodeEventLemmas::start_halted))]
    pub(crate) fn start(&mut self, place: u8)
        ensures { (v : ReplayValue) (number : ℕ) → Stands v self.old →
            number - 1 ≡ place → refusal_of v.world (event.Start number) ≡ None →
            Does v (Plays (event.Start number)) [] [] self.new }
    {
        let index = usize::from(place);
        if index >= self.nodes.len() {
            return;
        }
        if self.nodes[index].runs() {
            return;
        }
        a_node_stands_for_its_log();
        self.nodes[index].start();
    }

    /// A message that waits no more reaches a node.
    pub(crate) fn deliver_to_node(
        &mut self,
        alloc: Global,
        place: u8,
        number: u64,
        out: &mut Octets,
    ) -> Result<(), NoMemory>
        ensures { (v : ReplayValue) →
            Stands (passed number v) self.old →
            IsTo v number false place → OnOk result
            (Does v (Plays (event.Deliver number)) out.old out.new
            self.new) }
    {
        let (index, at) = (usize::from(place), index_of(number));
        if at >= self.messages.len() {
            return Ok(());
        }
        if index >= self.nodes.len() {
            return print_down(alloc, out, number);
        }
        if !self.nodes[index].runs() {
            return print_down(alloc, out, number);
        }
        let ends = Ends::of(&self.messages[at]);
        if is_expired_at_node(&self.nodes[index], &self.messages[at]) {
            return print_expired(alloc, out, number);
        }
        a_node_stands_for_its_log();
        let heeded = self.nodes[index].hear(
            ends.port,
            gateway_address(ends.gateway),
            self.messages[at].octets.octets(),
        );
        self.send_reply(alloc, ends, &heeded, out)?;
        print_heeded(alloc, out, number, place, &heeded)
    }

    // What a node answers to a message is sent.
    fn send_reply(
        &mut self,
        alloc: Global,
        ends: Ends,
        heeded: &Heeded,
        out: &mut Octets,
    ) -> Result<(), NoMemory>
        ensures { (m : MessageValue) → ends ≡ ends_kept m → OnOk result
            (HasSent (answers_of m heeded.now) out.old out.new self.old self.new) }
    {
        let Some(reply) = &heeded.reply else {
            return Ok(());
        };
        let message = ends.answer(alloc, reply)?;
        self.send(alloc, message, out)
    }
}

/// Whether a message is expired at a node.
fn is_expired_at_node(node: &Node, message: &Message) -> bool
    ensures { (log : List LogEntry) → node.now.paths.counter ≡ starts_in log →
        result ≡ is_expired_at_node log node.now message.now }
{
    once_core::is_expired_at_node(node.counter(), node, message)
}

/// The draft that takes these records, one after the other, or why one of them isn't taken.
#[tactic(auto, using(crate::proofs::NodeSubmitLemmas::more_taken, crate::proofs::NodeSubmitLemmas::fault_taken))]
fn drafted(alloc: Global, format: u8, version: u16, records: &[Octets]) -> Result<Draft, DraftFault>
    ensures ok { IfOk result (λ draft. drafted format version records.now ≡ Ok draft) }
    ensures err { IfErr result (λ fault. fault ≢ draft_fault.NoMemory →
        drafted format version records.now ≡ Err fault) }
{
    let mut draft = Draft::new(alloc, format, version);
    for record in records {
        draft.add(record.octets())?;
    }
    Ok(draft)
}

/// The messages that a node in this place sends after so many starts.
fn messages_of(
    alloc: Global,
    place: u8,
    start: u8,
    sent: Vec<Outgoing>,
) -> Result<Vec<Message>, NoMemory>
    ensures { IfOk result (λ messages. messages.items ≡ map (message_kept place start) sent.items) }
{
    let mut messages = Vec::new(alloc);
    for datagram in sent {
        // It is sent to one of fewer than 256 gateways.
        let gateway = datagram.to.ip.saturating_sub(gateway_address(0).ip) % 256;
        messages.push(Message {
            to_gateway: true,
            gateway: gateway as u8,
            node: place,
            port: datagram.port,
            start,
            number: datagram.number,
            named: datagram.named,
            octets: datagram.octets,
        })?;
    }
    Ok(messages)
}

/// Why a message was dropped, or the packets that it made resolved and done.
fn print_heeded(
    alloc: Global,
    out: &mut Octets,
    number: u64,
    node: u8,
    heeded: &Heeded,
) -> Result<(), NoMemory>
    ensures { OnOk result (out.new ≡ out.old ++ notice_lines (heeded_notices node number heeded.now)) }
{
    if let Some(why) = heeded.drop {
        print_drop(alloc, out, number, why)?;
    }
    if let Some(id) = heeded.resolved {
        print_resolved(alloc, out, node, id.number)?;
    }
    if let Some(id) = heeded.done {
        print_done(alloc, out, node, id.number)?;
    }
    Ok(())
}

/// A packet is refused for this reason, or there was no memory for it.
fn refuse(alloc: Global, name: Option<&str>, out: &mut Octets) -> Result<(), NoMemory>
    ensures { OnOk result (MatchOption name.entry ⊥ (λ name. out.new ≡ out.old ++ notice_line (Refused name.now))) }
{
    match name {
        Some(name) => print_refused(alloc, out, name),
        None => Err(NoMemory),
    }
}
