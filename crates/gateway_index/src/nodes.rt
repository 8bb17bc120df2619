// The nodes that an index keeps.
ghost use Rattle.std.specs.Prelude.{◌≡◌, ◌≤◌, ◌+◌, ◌<◌, ◌^◌, ◌++◌, ◌&&◌, nat_lt, Bool, true, false, [], ◌∷◌, ◌==◌, length, slice_get, map, IfOk, IfSome, Some, vec_capacity};
ghost use Rattle.std.specs.List.{list_any};
ghost use Rattle.gw_base.specs.Known.{is_known};
ghost use Rattle.gateway_index.specs.Limits.{half, most_nodes};
ghost use Rattle.gateway_index.specs.Nodes.{AreSame, AreSlots, IsLearnt, fresh_slot, kept_slots, opening_in, opening_at, nodes_of, place_in, reopened, settled_slot};
ghost use Rattle.gateway_index.specs.Sides.{listed_nodes, numbered_nodes, opened_nodes};
ghost use Rattle.gateway_index.specs.WindowPairs.{AreBeside};

use crate::limits::MOST_NODES;
use crate::windows::WindowTable;
use gw_base::{Absolute, KeyState, NoMemory, NodeId, Opening};
use std::alloc::Global;

/// A node, and the Path that opened its present epoch, on the firm side and on the live side.
#[derive(Clone, Copy)]
pub(crate) struct Slot {
    pub(crate) node: NodeId,
    pub(crate) firm: Option<Opening>,
    pub(crate) live: Option<Opening>,
}

impl Slot {
    /// The firm side, or else the live side.
    fn opening(self, firm: bool) -> Option<Opening>
        ensures { result ≡ opening_in firm self }
    {
        if firm { self.firm } else { self.live }
    }

    /// The slot with another live side, where it is this node's.
    fn reopened(self, node: NodeId, opening: Option<Opening>) -> Slot
        ensures { result ≡ reopened node.0 opening self }
    {
        if self.node.0 == node.0 {
            Slot {
                live: opening,
                ..self
            }
        } else {
            self
        }
    }

    /// The slot, both sides of which are one side's.
    fn settled(self, firm: bool) -> Slot
        ensures { result ≡ settled_slot firm self }
    {
        let opening = self.opening(firm);
        Slot {
            firm: opening,
            live: opening,
            ..self
        }
    }
}

fn opening_at(slots: &[Slot], firm: bool, node: NodeId) -> Option<Opening>
    ensures { result ≡ opening_at firm slots.now node.0 }
{
    for slot in slots {
        if slot.node.0 == node.0 {
            return slot.opening(firm);
        }
    }
    None
}

// The place of a node, and the one behind all slots where it has none.
fn place_of(slots: &[Slot], node: NodeId) -> usize
    ensures { result ≡ place_in slots.now node.0 }
{
    for place in 0..slots.len() {
        if slots[place].node.0 == node.0 {
            return place;
        }
    }
    slots.len()
}

fn lists(slots: &[Slot], node: NodeId) -> bool
    ensures { result ≡ list_any (λ slot. slot.node.0 == node.0) slots.now }
{
    slots.iter().any(|slot| slot.node.0 == node.0)
}

fn is_known(slots: &[Slot], node: NodeId) -> bool
    ensures { result ≡ is_known (nodes_of slots.now) node }
{
    lists(slots, node)
}

fn reopen(slots: &mut [Slot], node: NodeId, opening: Option<Opening>)
    ensures { slots.new ≡ map (λ slot. reopened node.0 opening slot) slots.old }
{
    for slot in slots.iter_mut() {
        *slot = slot.reopened(node, opening);
    }
}

// Adds the slot of a node that becomes known.
fn push(slots: &mut Vec<Slot>, node: NodeId)
    requires { length slots.old.items < vec_capacity slots.old }
    ensures items { slots.new.items ≡ slots.old.items ++ fresh_slot node ∷ [] }
    ensures room { vec_capacity slots.old ≤ vec_capacity slots.new }
{
    let slot = Slot {
        node,
        firm: None,
        live: None,
    };
    match slots.push(slot) {
        Ok(()) => {}
        Err(_) => unreachable!(),
    }
}

fn reopen_all(slots: &mut Vec<Slot>, node: NodeId, opening: Option<Opening>)
    ensures items { slots.new.items ≡ map (λ slot. reopened node.0 opening slot) slots.old.items }
    ensures room { vec_capacity slots.new ≡ vec_capacity slots.old }
{
    reopen(slots, node, opening);
}

fn settle(slots: &mut [Slot], firm: bool)
    ensures { slots.new ≡ map (λ slot. settled_slot firm slot) slots.old }
{
    for slot in slots.iter_mut() {
        *slot = slot.settled(firm);
    }
}

// Leaves the slots of the firm side, or else all, and answers how many they are.
fn cut(slots: &mut Vec<Slot>, firm: bool, count: usize) -> usize
    ensures left { result ≡ length slots.new.items }
    ensures items { slots.new.items ≡ kept_slots firm count slots.old.items }
    ensures room { vec_capacity slots.new ≡ vec_capacity slots.old }
{
    if firm {
        slots.truncate(count);
    }
    slots.len()
}

fn settle_all(slots: &mut Vec<Slot>, firm: bool)
    ensures items { slots.new.items ≡ map (λ slot. settled_slot firm slot) slots.old.items }
    ensures room { vec_capacity slots.new ≡ vec_capacity slots.old }
{
    settle(slots, firm);
}

// Makes a node known, if it isn't, and answers its place.
fn learn(slots: &mut Vec<Slot>, node: NodeId) -> usize
    requires room { most_nodes ≤ vec_capacity slots.old }
    requires place { is_known (nodes_of slots.old.items) node ≡ false → length slots.old.items < most_nodes }
    requires bound { length slots.old.items ≤ most_nodes }
    ensures learnt { IsLearnt node result slots.old.items slots.new.items }
    ensures room { vec_capacity slots.old ≤ vec_capacity slots.new }
{
    let place = place_of(slots, node);
    if place < slots.len() {
        return place;
    }
    push(slots, node);
    place
}

// Whether both sides are the same still, where a node has this place and so many were known.
fn is_still(is_same: bool, place: usize, count: usize) -> bool
    ensures { result ≡ (is_same && nat_lt place count) }
{
    is_same && place < count
}

/// The known nodes, in the order in which entries first named them, with a pair of windows for each. All 64 pairs are
/// made at once.
#[derive(Drop)]
pub(crate) struct NodeTable {
    slots: Vec<Slot>,
    windows: WindowTable,
    /// How many of the nodes the firm side knows.
    firm: usize,
    /// Whether it knows all, and of each the opening that the live side knows.
    is_same: bool,
    ghost room: { most_nodes ≤ vec_capacity slots },
    ghost are_slots: { AreSlots firm slots.items },
    ghost same: { is_same ≡ true → AreSame firm slots.items },
    ghost beside: { AreBeside firm (length slots.items) windows.pairs.items },
}

impl NodeTable {
    ghost use Rattle.gateway_index.specs.NodeSides.{AreNew, IsNodesStep, MayBeKnown, nodes_in};

    /// No nodes, and room for 64.
    pub(crate) fn new(alloc: Global) -> Result<NodeTable, NoMemory>
        ensures { IfOk result (λ table. (firm : Bool) → AreNew (nodes_in firm table)) }
    {
        let slots = Vec::with_capacity(alloc, MOST_NODES)?;
        let windows = WindowTable::new(alloc, MOST_NODES)?;
        Ok(NodeTable {
            slots,
            windows,
            firm: 0,
            is_same: true,
        })
    }

    /// How many nodes are known: at most 64.
    #[tactic(auto, unfolding(crate::specs::NodeSides::nodes_in))]
    pub(crate) fn count(&self, firm: bool) -> usize
        ensures value { result ≡ length (nodes_in firm self.now).known }
        ensures within { result ≤ most_nodes }
    {
        if firm { self.firm } else { self.slots.len() }
    }

    /// The k-th of them, counted from 0.
    #[tactic(auto, unfolding(crate::specs::NodeSides::nodes_in))]
    pub(crate) fn node(&self, firm: bool, k: usize) -> NodeId
        requires { k < length (nodes_in firm self.now).known }
        ensures { slice_get (nodes_in firm self.now).known k ≡ Some result }
    {
        self.slots[k].node
    }

    /// Whether a node is known.
    #[tactic(auto, unfolding(crate::specs::NodeSides::nodes_in))]
    pub(crate) fn is_known(&self, firm: bool, node: NodeId) -> bool
        ensures { result ≡ is_known (nodes_in firm self.now).known node }
    {
        if firm {
            is_known(&self.slots[..self.firm], node)
        } else {
            is_known(&self.slots, node)
        }
    }

    /// The Path that opened the node's present epoch, where one did.
    #[tactic(auto, unfolding(crate::specs::NodeSides::nodes_in))]
    pub(crate) fn opening(&self, firm: bool, node: NodeId) -> Option<Opening>
        ensures { result ≡ (nodes_in firm self.now).opening node.0 }
    {
        opening_at(&self.slots, firm, node)
    }

    /// The greatest number that the node's present epoch names, where it names one.
    #[tactic(auto, unfolding(crate::specs::NodeSides::nodes_in))]
    pub(crate) fn top(&self, firm: bool, node: NodeId) -> Option<Absolute>
        ensures value { result ≡ ((nodes_in firm self.now).window node.0).top }
        ensures low { IfSome result (λ top. top < 2 ^ 63) }
    {
        self.windows.top(firm, place_of(&self.slots, node))
    }

    /// The state of a node's number by its window.
    #[tactic(auto, unfolding(crate::specs::NodeSides::nodes_in))]
    pub(crate) fn state(&self, firm: bool, node: NodeId, number: Absolute) -> KeyState
        ensures { result ≡ ((nodes_in firm self.now).window node.0).state number }
    {
        self.windows
            .state(firm, place_of(&self.slots, node), number)
    }

    /// Gives a state to a number of a node, which is known from then on.
    pub(crate) fn set(&mut self, node: NodeId, number: Absolute, state: KeyState)
        requires place { MayBeKnown node (nodes_in false self.old) }
        requires not_below { IfSome ((nodes_in false self.old).window node.0).top (λ top. top ≤ number + half) }
        requires high { number < 2 ^ 63 }
        ensures step { IsNodesStep (numbered_nodes node number state) self.old self.new }
        ensures same { self.new.is_same ≡ (self.old.is_same && is_known (nodes_of self.old.slots.items) node) }
    {
        let count = self.slots.len();
        let place = learn(&mut self.slots, node);
        self.is_same = is_still(self.is_same, place, count);
        self.windows.set(place, number, state);
    }

    /// Gives a state to those of these numbers that the node's window holds.
    pub(crate) fn set_within(&mut self, node: NodeId, numbers: &[Absolute], state: KeyState)
        ensures step { IsNodesStep (listed_nodes node numbers.now state) self.old self.new }
        ensures same { self.new.is_same ≡ self.old.is_same }
    {
        let place = place_of(&self.slots, node);
        if place >= self.slots.len() {
            return;
        }
        self.windows.set_within(place, numbers, state);
    }

    /// Begins an epoch of a node, which is known from then on.
    pub(crate) fn open(&mut self, node: NodeId, opening: Opening)
        requires { MayBeKnown node (nodes_in false self.old) }
        ensures { IsNodesStep (opened_nodes node opening) self.old self.new }
    {
        let place = learn(&mut self.slots, node);
        reopen_all(&mut self.slots, node, Some(opening));
        self.is_same = false;
        self.windows.clear(place);
    }

    /// Makes both sides what one of them is.
    pub(crate) fn keep(&mut self, firm: bool)
        ensures sides { (side : Bool) → nodes_in side self.new ≡ nodes_in firm self.old }
        ensures same { self.new.is_same ≡ true }
    {
        self.windows.keep(firm);
        if self.is_same {
            return;
        }
        self.firm = cut(&mut self.slots, firm, self.firm);
        settle_all(&mut self.slots, firm);
        self.is_same = true;
    }
}
