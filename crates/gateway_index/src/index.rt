// What a gateway keeps of its history.
ghost use Rattle.std.specs.Prelude.{◌≡◌, Bool, true, false, List, [], ◌∷◌, ◌++◌, IfOk, IfSome, ◌<◌, ◌^◌};
ghost use Rattle.gw_base.specs.Entry.{act_view, entry_view};
ghost use Rattle.gw_base.specs.declared.history.HistoryEntry.{HistoryEntry};
ghost use Rattle.transfer_cmd.specs.Lists.{is_held};
ghost use Rattle.gateway_index.specs.FitActs.{is_new};
ghost use Rattle.gateway_index.specs.HeldPairs.{held_in};
ghost use Rattle.gateway_index.specs.Limits.{has_place, may_hold};
ghost use Rattle.gateway_index.specs.NodeSides.{nodes_in};
ghost use Rattle.gateway_index.specs.Sides.{AreHeldIn, acted, copied, listed, numbered, opened, side_after};

use crate::held_pair::HeldPair;
use crate::limits::{MOST_COPIES, MOST_NODES};
use crate::nodes::NodeTable;
use crate::totals::Totals;
use gw_base::scan::{
    held_keys_are_as_many_as_held_copies, held_keys_are_those_in_that_state,
    present_state_is_that_of_the_epoch,
};
use gw_base::{Absolute, Act, Entry, KeyState, NoMemory, NodeId, Opening};
use seq_window::laws::a_window_follows_its_history;
use std::alloc::Global;
use transfer_cmd::is_held;

/// What a gateway keeps of its history, so that it answers without reading it: of each known node the Path that opened
/// its present epoch and a window of its numbers, the held copies, and some counts. It has a firm side, which follows
/// the firm entries, and a live side, which follows these with those that wait for a commit or are torn. A look-up asks
/// the firm side where `firm` is true, and else the live side.
///
/// All its memory is taken as it is made. A look-up takes a time that grows with the known nodes, of which there are 64
/// at most, and with the logarithm of the number of held copies, but where a window says that the number is held.
#[derive(Drop)]
pub struct Index {
    pub(crate) nodes: NodeTable,
    pub(crate) held: HeldPair,
    pub(crate) firm: Totals,
    pub(crate) live: Totals,
    ghost told: { (firm : Bool) → AreHeldIn (held_in firm held) (nodes_in firm nodes) },
}

impl Index {
    ghost use Rattle.gateway_index.specs.Index.{Follows, MayCome, MayGrow, Stepped, observed_by, side_of};

    /// The index of no entry. `NoMemory`: there was no memory for all that it will keep.
    pub fn new(alloc: Global) -> Result<Index, NoMemory>
        ensures { IfOk result (λ index. (firm : Bool) → Follows firm index []) }
    {
        a_window_follows_its_history();
        let nodes = NodeTable::new(alloc)?;
        let held = HeldPair::new(alloc)?;
        Ok(Index {
            nodes,
            held,
            firm: Totals::none(),
            live: Totals::none(),
        })
    }

    /// What is kept of all entries together, on the firm side or else on the live side.
    #[tactic(auto, unfolding(crate::specs::Index::side_of))]
    pub fn totals(&self, firm: bool) -> Totals
        ensures { result ≡ (side_of firm self.now).totals }
    {
        if firm { self.firm } else { self.live }
    }

    /// How many copies are held.
    #[tactic(auto, unfolding(crate::specs::Index::side_of))]
    pub fn held(&self, firm: bool) -> u64
        ensures { result ≡ (side_of firm self.now).held.count }
    {
        self.held.count(firm)
    }

    /// The gateway's own restart counter.
    #[tactic(auto, unfolding(crate::specs::Index::observed_by, crate::specs::Index::side_of))]
    pub fn own(&self, firm: bool) -> u8
        ensures { (node : NodeId) → result ≡ (observed_by firm self.now node).own }
    {
        (self.totals(firm).starts % 256) as u8
    }

    /// The Path that opened the node's present epoch, where one did.
    #[tactic(auto, unfolding(crate::specs::Index::observed_by, crate::specs::Index::side_of))]
    pub fn opening(&self, firm: bool, node: NodeId) -> Option<Opening>
        ensures { result ≡ (observed_by firm self.now node).opening }
    {
        self.nodes.opening(firm, node)
    }

    /// The greatest number that the node's present epoch names, where it names one.
    #[tactic(auto, unfolding(crate::specs::Index::observed_by, crate::specs::Index::side_of))]
    pub fn top(&self, firm: bool, node: NodeId) -> Option<Absolute>
        ensures value { result ≡ (observed_by firm self.now node).top }
        ensures low { IfSome result (λ t. t < 2 ^ 63) }
    {
        self.nodes.top(firm, node)
    }

    /// The state of a number in the node's present epoch. Of one more than 32,768 below the greatest it tells only
    /// whether it is held.
    #[tactic(auto, unfolding(crate::specs::Index::observed_by, crate::specs::Index::side_of))]
    pub fn state(&self, firm: bool, node: NodeId, number: Absolute) -> KeyState
        ensures { result ≡ (observed_by firm self.now node).state number }
    {
        let state = self.nodes.state(firm, node, number);
        if is_held(state) {
            return state;
        }
        if self.held.holds(firm, node, number) {
            KeyState::Held
        } else {
            state
        }
    }

    /// Whether the node is known or may become so.
    #[tactic(auto, unfolding(crate::specs::Index::observed_by, crate::specs::Index::side_of))]
    pub fn has_place(&self, firm: bool, node: NodeId) -> bool
        ensures { result ≡ has_place (observed_by firm self.now node) }
    {
        let is_known = self.nodes.is_known(firm, node);
        let count = self.nodes.count(firm);
        is_known || count < MOST_NODES
    }

    /// Whether one more copy may be held.
    #[tactic(auto, unfolding(crate::specs::Index::observed_by, crate::specs::Index::side_of))]
    pub fn may_hold(&self, firm: bool) -> bool
        ensures { (node : NodeId) → result ≡ may_hold (observed_by firm self.now node) }
    {
        self.held(firm) < MOST_COPIES as u64
    }

    // An entry gives a number its first state, which isn't that of a held one.
    fn number(&mut self, node: NodeId, number: Absolute, state: KeyState)
        requires new { is_new (observed_by false self.old node) number ≡ true }
        requires other { is_held state ≡ false }
        ensures { Stepped (numbered node number state) self.old self.new }
    {
        self.nodes.set(node, number, state);
    }

    // An entry holds a copy.
    fn hold(&mut self, node: NodeId, number: Absolute)
        requires new { is_new (observed_by false self.old node) number ≡ true }
        requires few { may_hold (observed_by false self.old node) ≡ true }
        ensures { Stepped (copied node number) self.old self.new }
    {
        self.nodes.set(node, number, KeyState::Held);
        self.held.hold(node, number);
    }

    // An entry gives numbers that are held this state.
    fn list(&mut self, node: NodeId, numbers: &[Absolute], state: KeyState)
        requires { is_held state ≡ false }
        ensures { Stepped (listed node numbers.now state) self.old self.new }
    {
        self.nodes.set_within(node, numbers, state);
        self.held.take(node, numbers);
    }

    // An entry begins an epoch of a node.
    fn open(&mut self, node: NodeId, opening: Opening)
        requires { has_place (observed_by false self.old node) ≡ true }
        ensures { Stepped (opened node opening) self.old self.new }
    {
        self.nodes.open(node, opening);
        let stranded = self.held.drop_node(node);
        self.live.stranded = self.live.stranded.saturating_add(stranded);
    }

    // What an act changes, but for what every entry does.
    fn act(&mut self, act: &Act<'_>)
        requires { MayCome (act_view act.now) self.old }
        ensures { Stepped (acted (act_view act.now)) self.old self.new }
    {
        match *act {
            Act::Start | Act::Tick | Act::Close => {}
            Act::Path {
                node,
                port,
                counter,
            } => self.open(node, Opening { port, counter }),
            Act::File { node, number, .. } => self.number(node, number, KeyState::Filed),
            Act::Hold { node, number, .. } => self.hold(node, number),
            Act::Seal { node, number } => self.number(node, number, KeyState::Sealed),
            Act::Release { node, numbers } => self.list(node, numbers, KeyState::Released),
            Act::Cancel { node, numbers } => self.list(node, numbers, KeyState::Cancelled),
        }
    }

    // Follows one more entry on the live side.
    fn step(&mut self, entry: &Entry<'_>)
        requires { MayCome (act_view entry.now.act) self.old }
        ensures { Stepped (side_after (entry_view entry.now)) self.old self.new }
    {
        self.act(&entry.act);
        self.live = self.live.after(entry);
    }

    /// Follows one more entry on the live side. It takes no memory.
    pub fn note(&mut self, entry: &Entry<'_>)
        requires { MayCome (act_view entry.now.act) self.old }
        ensures follows { (h : List HistoryEntry) → MayGrow h → Follows false self.old h →
            Follows false self.new (h ++ entry_view entry.now ∷ []) }
        ensures firm { (h : List HistoryEntry) → Follows true self.old h → Follows true self.new h }
    {
        held_keys_are_those_in_that_state();
        held_keys_are_as_many_as_held_copies();
        present_state_is_that_of_the_epoch();
        a_window_follows_its_history();
        self.step(entry);
    }

    /// Makes both sides what one of them is: by `false` the live side, where the entries that waited are firm, and by
    /// `true` the firm side, where they are dropped. It takes no memory, and a time that grows with the nodes of which
    /// something changed, and with the held copies where one came or went.
    pub fn keep(&mut self, firm: bool)
        ensures sides { (side : Bool) → side_of side self.new ≡ side_of firm self.old }
        ensures follows { (side : Bool) (h : List HistoryEntry) → Follows firm self.old h → Follows side self.new h }
    {
        self.nodes.keep(firm);
        self.held.keep(firm);
        if firm {
            self.live = self.firm;
        } else {
            self.firm = self.live;
        }
    }
}
