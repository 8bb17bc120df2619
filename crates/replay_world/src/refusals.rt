// Why a replay refuses a line.
ghost use Rattle.std.specs.Prelude.{◌≡◌};
ghost use Rattle.node_core.specs.Log.{runs};
ghost use Rattle.once_core.specs.Expired.{starts_in};
ghost use Rattle.once_core.specs.Turn.{is_down_in, is_none_of, log_in, no_gateway, no_node, no_running_gateway, no_running_node, refusal_of, refusal_to_redirect, refusal_to_start};
ghost use Rattle.once_core.specs.declared.event.Event.TheVariants as event;
ghost use Rattle.replay_world.specs.Lines.{refusal_of_line};
ghost use Rattle.replay_world.specs.Stands.{Stands};
ghost use Rattle.replay_world.specs.Value.{ReplayValue};

use crate::gateway_lines::index_of;
use crate::replay::Replay;
use once_core::WorldKind;
use world_script::Line;

impl Replay {
    /// Why the world refuses a line.
    #[tactic(auto, using(crate::proofs::RefusalLemmas::messages_count))]
    pub(crate) fn refusal(&self, line: &Line) -> Option<WorldKind>
        ensures { (v : ReplayValue) → Stands v self.now →
            result ≡ refusal_of_line v line.now }
    {
        match line {
            Line::At { moment } => {
                if moment.seconds() < self.moment.seconds() {
                    Some(WorldKind::Earlier)
                } else {
                    None
                }
            }
            Line::Submit { node, .. } | Line::Tick { node } | Line::Halt { node } => {
                self.no_running_node(*node)
            }
            Line::Start { node } => self.refusal_to_start(*node),
            Line::Deliver { message } => {
                if is_none_of(self.messages.len(), *message) {
                    Some(WorldKind::NoMessage)
                } else {
                    None
                }
            }
            Line::Mark { gateway }
            | Line::Close { gateway }
            | Line::Commit { gateway }
            | Line::Write { gateway }
            | Line::Stop { gateway }
            | Line::Arm { gateway, .. }
            | Line::Fail { gateway, .. }
            | Line::ArmShelf { gateway, .. }
            | Line::FailShelf { gateway, .. } => self.no_running_gateway(*gateway),
            Line::Redirect { gateway, to, .. } => self.refusal_to_redirect(*gateway, *to),
            Line::Open { gateway } => self.refusal_to_open(*gateway),
            _ => None,
        }
    }

    #[tactic(auto, using(crate::proofs::RefusalLemmas::gateways_count))]
    fn no_gateway(&self, gateway: u64) -> Option<WorldKind>
        ensures { (v : ReplayValue) → Stands v self.now →
            result ≡ no_gateway v.world gateway }
    {
        if is_none_of(self.gateways.len(), gateway) {
            Some(WorldKind::NoGateway)
        } else {
            None
        }
    }

    /// Whether a gateway is down; one that isn't there is.
    #[tactic(auto, using(crate::proofs::RefusalLemmas::gateways_count, crate::proofs::RefusalLemmas::gateway_down))]
    pub(crate) fn is_down(&self, gateway: u64) -> bool
        ensures { (v : ReplayValue) → Stands v self.now →
            result ≡ is_down_in v.world gateway }
    {
        match self.gateways.get(index_of(gateway)) {
            Some(machine) => machine.is_down(),
            None => true,
        }
    }

    fn no_running_gateway(&self, gateway: u64) -> Option<WorldKind>
        ensures { (v : ReplayValue) → Stands v self.now →
            result ≡ no_running_gateway v.world gateway }
    {
        if let Some(kind) = self.no_gateway(gateway) {
            return Some(kind);
        }
        if self.is_down(gateway) {
            return Some(WorldKind::Stopped);
        }
        None
    }

    fn refusal_to_open(&self, gateway: u64) -> Option<WorldKind>
        ensures { (v : ReplayValue) → Stands v self.now →
            result ≡ refusal_of v.world (event.Open gateway) }
    {
        if let Some(kind) = self.no_gateway(gateway) {
            return Some(kind);
        }
        if self.is_down(gateway) {
            return None;
        }
        Some(WorldKind::Running)
    }

    fn refusal_to_redirect(&self, gateway: u64, to: Option<u64>) -> Option<WorldKind>
        ensures { (v : ReplayValue) → Stands v self.now →
            result ≡ refusal_to_redirect v.world gateway to }
    {
        if let Some(kind) = self.no_gateway(gateway) {
            return Some(kind);
        }
        if let Some(to) = to {
            if let Some(kind) = self.no_gateway(to) {
                return Some(kind);
            }
        }
        self.no_running_gateway(gateway)
    }

    #[tactic(auto, using(crate::proofs::RefusalLemmas::nodes_count))]
    fn no_node(&self, node: u64) -> Option<WorldKind>
        ensures { (v : ReplayValue) → Stands v self.now →
            result ≡ no_node v.world node }
    {
        if is_none_of(self.nodes.len(), node) {
            Some(WorldKind::NoNode)
        } else {
            None
        }
    }

    // Whether a node runs; one that isn't there doesn't.
    #[tactic(auto, using(crate::proofs::RefusalLemmas::node_runs, crate::proofs::RefusalLemmas::no_node_runs))]
    fn runs(&self, node: u64) -> bool
        ensures { (v : ReplayValue) → Stands v self.now →
            result ≡ runs (log_in v.world node) }
    {
        match self.nodes.get(index_of(node)) {
            Some(node) => node.runs(),
            None => false,
        }
    }

    fn no_running_node(&self, node: u64) -> Option<WorldKind>
        ensures { (v : ReplayValue) → Stands v self.now →
            result ≡ no_running_node v.world node }
    {
        if let Some(kind) = self.no_node(node) {
            return Some(kind);
        }
        if self.runs(node) {
            return None;
        }
        Some(WorldKind::Halted)
    }

    // How often a node started.
    #[tactic(auto, using(crate::proofs::RefusalLemmas::node_starts, crate::proofs::RefusalLemmas::no_node_starts))]
    fn starts(&self, node: u64) -> u8
        ensures { (v : ReplayValue) → Stands v self.now →
            result ≡ starts_in (log_in v.world node) }
    {
        match self.nodes.get(index_of(node)) {
            Some(node) => node.counter(),
            None => 0,
        }
    }

    fn refusal_to_start(&self, node: u64) -> Option<WorldKind>
        ensures { (v : ReplayValue) → Stands v self.now →
            result ≡ refusal_to_start v.world node }
    {
        if let Some(kind) = self.no_node(node) {
            return Some(kind);
        }
        if self.runs(node) {
            return Some(WorldKind::Running);
        }
        if self.starts(node) == u8::MAX {
            return Some(WorldKind::Restarts);
        }
        None
    }
}

/// There are so many, and so none with this number.
fn is_none_of(count: usize, number: u64) -> bool
    ensures { result ≡ is_none_of count number }
{
    number == 0 || number > count as u64
}
