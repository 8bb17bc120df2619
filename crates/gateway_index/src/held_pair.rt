// The copies that are held, on the firm side and on the live side.
ghost use Rattle.std.specs.Prelude.{◌≡◌, ◌<◌, Bool, true, false, if◌then◌else◌, None, is_some, IfOk, ◌&&◌, ◌==◌, not, vec_len};
ghost use Rattle.std.proofs.Props.{props};
ghost use Rattle.dup_buffer.specs.Copies.{most_copies, no_copies, with_copy, without_copy, without_node};
ghost use Rattle.dup_buffer.specs.Stored.{copies_of};
ghost use Rattle.gateway_index.specs.CopySteps.{MayStep, MayStepEach, MayStepEach-prop, with_step, with_steps};
ghost use Rattle.gateway_index.specs.HeldRoom.{HasRoom};
ghost use Rattle.gateway_index.specs.Sides.{no_place, without_copies};

use crate::limits::MOST_COPIES;
use crate::noting::{MOST_NOTED, note};
use dup_buffer::{Held, HoldFault};
use gw_base::{Absolute, NoMemory, NodeId, Place};
use std::alloc::Global;

/// Where a copy lies isn't kept here: the items that are told find it by its entry.
const NO_PLACE: Place = Place { at: 0, length: 0 };

/// A copy was held on the live side, or taken out, or all of a node were.
#[derive(Clone, Copy)]
pub(crate) enum CopyStep {
    Hold(NodeId, Absolute),
    Take(NodeId, Absolute),
    DropNode(NodeId),
}

// Holds one more copy, which isn't held yet.
fn hold_one(held: &mut Held, node: NodeId, number: Absolute)
    requires room { HasRoom held.old }
    requires free { (copies_of held.old).place_of node.0 number ≡ None }
    requires few { (copies_of held.old).count < most_copies }
    ensures copies { copies_of held.new ≡ with_copy node.0 number no_place (copies_of held.old) }
    ensures room { HasRoom held.new }
{
    match held.hold(node, number, NO_PLACE) {
        Ok(()) => {}
        Err(HoldFault::Full) => unreachable!(),
        Err(HoldFault::NoMemory) => unreachable!(),
    }
}

// Takes out the copy of a node's number, if it is held.
fn take_one(held: &mut Held, node: NodeId, number: Absolute)
    requires room { HasRoom held.old }
    ensures copies { copies_of held.new ≡ without_copy node.0 number (copies_of held.old) }
    ensures room { HasRoom held.new }
{
    held.take(node, number);
}

// Takes out all copies of a node, and says how many there were.
fn drop_each(held: &mut Held, node: NodeId) -> u64
    requires room { HasRoom held.old }
    ensures count { result ≡ (copies_of held.old).count_of node.0 }
    ensures copies { copies_of held.new ≡ without_node node.0 (copies_of held.old) }
    ensures room { HasRoom held.new }
{
    held.drop_node(node)
}

// Takes a step.
fn step_one(held: &mut Held, step: CopyStep)
    requires room { HasRoom held.old }
    requires may { MayStep step (copies_of held.old) }
    ensures copies { copies_of held.new ≡ with_step step (copies_of held.old) }
    ensures room { HasRoom held.new }
{
    match step {
        CopyStep::Hold(node, number) => hold_one(held, node, number),
        CopyStep::Take(node, number) => take_one(held, node, number),
        CopyStep::DropNode(node) => {
            drop_each(held, node);
        }
    }
}

// Takes these steps.
fn follow(held: &mut Held, given: &[CopyStep])
    requires room { HasRoom held.old }
    requires may { MayStepEach given.now (copies_of held.old) }
    ensures copies { copies_of held.new ≡ with_steps given.now (copies_of held.old) }
    ensures room { HasRoom held.new }
{
    let mut left = given;
    while let Some((step, later)) = left.split_first() {
        step_one(held, *step);
        left = later;
    }
}

// Holds on one side what the other one holds.
fn copy(to: &mut Held, from: &Held)
    requires to { HasRoom to.old }
    ensures copies { copies_of to.new ≡ copies_of from.now }
    ensures room { HasRoom to.new }
{
    // It holds no more than there is room for.
    let _count = from.count();
    to.copy_from(from);
}

// Makes both sides what one of them is. Where not more has changed than these steps, they are enough.
fn make_same(firm: &mut Held, live: &mut Held, given: &[CopyStep], changed: bool, keeps_firm: bool)
    requires firm { HasRoom firm.old }
    requires live { HasRoom live.old }
    requires given { changed ≡ false → MayStepEach given.now (copies_of firm.old)
        × (with_steps given.now (copies_of firm.old) ≡ copies_of live.old) }
    ensures firm { copies_of firm.new ≡ (if keeps_firm then copies_of firm.old else copies_of live.old) }
    ensures live { copies_of live.new ≡ (if keeps_firm then copies_of firm.old else copies_of live.old) }
    ensures firm_room { HasRoom firm.new }
    ensures live_room { HasRoom live.new }
{
    if keeps_firm {
        copy(live, firm);
        return;
    }
    if changed {
        copy(firm, live);
        return;
    }
    follow(firm, given);
}

/// The copies that the firm side holds, and those of the live side. Each has room for as many as a gateway holds.
///
/// It notes the last steps of the live side, so that the firm side can take them too, and not all copies are copied.
#[derive(Drop)]
pub(crate) struct HeldPair {
    firm: Held,
    live: Held,
    /// The steps that the live side took since both were the same.
    given: Vec<CopyStep>,
    /// Whether it took more than those noted.
    changed: bool,
    ghost agree: { changed ≡ false → MayStepEach given.items (copies_of firm)
        × (with_steps given.items (copies_of firm) ≡ copies_of live) } by { Prim.hlevel (MayStepEach-prop, props) },
    ghost firm_room: { HasRoom firm },
    ghost live_room: { HasRoom live },
}

impl HeldPair {
    ghost use Rattle.gateway_index.specs.HeldPairs.{IsHeldStep, held_in};

    /// No copies. It takes the memory for all that it will hold.
    pub(crate) fn new(alloc: Global) -> Result<HeldPair, NoMemory>
        ensures { IfOk result (λ pair. (firm : Bool) → held_in firm pair ≡ no_copies) }
    {
        let firm = Held::new(alloc, MOST_COPIES)?;
        let live = Held::new(alloc, MOST_COPIES)?;
        let given = Vec::with_capacity(alloc, MOST_NOTED)?;
        Ok(HeldPair {
            firm,
            live,
            given,
            changed: false,
        })
    }

    /// Whether the copy of a node's number is held on the firm side, or else on the live side.
    #[tactic(auto, unfolding(crate::specs::HeldPairs::held_in))]
    pub(crate) fn holds(&self, firm: bool, node: NodeId, number: Absolute) -> bool
        ensures { result ≡ is_some ((held_in firm self.now).place_of node.0 number) }
    {
        if firm {
            self.firm.find(node, number).is_some()
        } else {
            self.live.find(node, number).is_some()
        }
    }

    /// How many copies are held on the firm side, or else on the live side.
    #[tactic(auto, unfolding(crate::specs::HeldPairs::held_in))]
    pub(crate) fn count(&self, firm: bool) -> u64
        ensures { result ≡ (held_in firm self.now).count }
    {
        if firm {
            self.firm.count() as u64
        } else {
            self.live.count() as u64
        }
    }

    /// Holds one more copy on the live side, which isn't held yet.
    #[tactic(auto, unfolding(crate::specs::HeldPairs::held_in))]
    pub(crate) fn hold(&mut self, node: NodeId, number: Absolute)
        requires free { (held_in false self.old).place_of node.0 number ≡ None }
        requires few { (held_in false self.old).count < most_copies }
        ensures { IsHeldStep (with_copy node.0 number no_place) self.old self.new }
    {
        self.changed = note(&mut self.given, self.changed, CopyStep::Hold(node, number));
        hold_one(&mut self.live, node, number);
    }

    // Takes out the copy of a node's number on the live side.
    #[tactic(auto, unfolding(crate::specs::HeldPairs::held_in))]
    fn take_out(&mut self, node: NodeId, number: Absolute)
        ensures { IsHeldStep (without_copy node.0 number) self.old self.new }
    {
        self.changed = note(&mut self.given, self.changed, CopyStep::Take(node, number));
        take_one(&mut self.live, node, number);
    }

    /// Takes out the copies of these numbers of a node on the live side.
    pub(crate) fn take(&mut self, node: NodeId, numbers: &[Absolute])
        ensures { IsHeldStep (without_copies node.0 numbers.now) self.old self.new }
    {
        for number in numbers {
            self.take_out(node, *number);
        }
    }

    /// Takes out all copies of a node on the live side, and says how many there were.
    #[tactic(auto, unfolding(crate::specs::HeldPairs::held_in))]
    pub(crate) fn drop_node(&mut self, node: NodeId) -> u64
        ensures count { result ≡ (held_in false self.old).count_of node.0 }
        ensures others { IsHeldStep (without_node node.0) self.old self.new }
    {
        self.changed = note(&mut self.given, self.changed, CopyStep::DropNode(node));
        drop_each(&mut self.live, node)
    }

    // Whether nothing has changed since both sides were made the same.
    fn is_same(&self) -> bool
        ensures same { result ≡ true → copies_of self.now.firm ≡ copies_of self.now.live }
        ensures value { result ≡ not self.now.changed && (vec_len self.now.given == 0) }
    {
        if self.changed {
            return false;
        }
        self.given.is_empty()
    }

    /// Makes both sides what one of them is.
    pub(crate) fn keep(&mut self, firm: bool)
        ensures { (side : Bool) → held_in side self.new ≡ held_in firm self.old }
    {
        if self.is_same() {
            return;
        }
        make_same(
            &mut self.firm,
            &mut self.live,
            &self.given,
            self.changed,
            firm,
        );
        self.changed = false;
        self.given.clear();
    }
}
