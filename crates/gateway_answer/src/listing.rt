// The answers to requests that name lists of numbers.
ghost use Rattle.std.specs.Prelude.{◌≡◌, ◌<◌, ◌≤◌, ◌+◌, ◌^◌, ℕ, [], ◌∷◌, ◌++◌, length, map, Option, IfOk, IfSome};
ghost use Rattle.gw_base.specs.Entry.{act_view};
ghost use Rattle.gw_base.specs.Nearest.{nearest};
ghost use Rattle.gateway_answer.specs.Answer.{decided, listed, may_record};
ghost use Rattle.gateway_answer.specs.Asked.{changing, held_ones};
ghost use Rattle.gateway_answer.specs.Decisions.{decision_view};
ghost use Rattle.gateway_answer.specs.Steps.{with_held};
ghost use Rattle.gateway_answer.specs.WireMarks.{AreMarked};

use crate::answering::tabled;
use crate::decision::Decision;
use crate::observe::Observe;
use crate::reserved::Reserved;
use crate::wire_marks::WireMarks;
use gtpp_elements::Numbers;
use gw_base::{Absolute, Act, KeyState, NoMemory, NodeId, lists, nearest_number};
use std::alloc::Global;
use transfer_cmd::{Verdict, is_held, judge};

/// How many numbers are sought one among another. Behind more of them marks are set, all of which are taken away first.
const FEW: usize = 16;

/// The lists in which answers are worked out: the numbers that a request names, their states, and
/// the held ones. They have room for the longest list, which fills a message of 65,541 octets.
#[derive(Drop)]
pub struct Scratch {
    numbers: Reserved<Absolute>,
    states: Reserved<KeyState>,
    held: Reserved<Absolute>,
    /// The sequence numbers of the held ones that were found.
    marks: WireMarks,
}

impl Scratch {
    ghost use Rattle.gateway_answer.specs.Scratches.{IsEmpty};

    /// Empty lists, which take the memory for all that they will hold. `NoMemory`: there was none for that.
    pub fn new(alloc: Global) -> Result<Scratch, NoMemory>
        ensures { IfOk result IsEmpty }
    {
        Ok(Scratch {
            numbers: Reserved::new(alloc)?,
            states: Reserved::new(alloc)?,
            held: Reserved::new(alloc)?,
            marks: WireMarks::new(alloc)?,
        })
    }
}

/// The answer to a request that releases, or else cancels, the packets of a list of numbers. It takes no memory.
pub(crate) fn listed<'a, O: Observe>(
    seen: &O,
    node: NodeId,
    number: u16,
    release: bool,
    numbers: &Numbers<'_>,
    scratch: &'a mut Scratch,
) -> Decision<'a>
    requires { length numbers.now ≤ 32767 }
    ensures { decision_view result
        ≡ decided (listed (O.seen seen.now node) (may_record (O.seen seen.now node) (O.room seen.now)) node number
        release numbers.now) }
{
    let top = seen.top(node);
    let (named, states) = (&mut scratch.numbers, &mut scratch.states);
    name_numbers(top, numbers, named);
    find_states(seen, node, &named.items, states);
    let verdict = judge(&states.items, release);
    match verdict {
        Verdict::Wrong | Verdict::Before => tabled(seen, node, number, verdict.cause(), None),
        Verdict::Change => {
            let (held, marks) = (&mut scratch.held, &mut scratch.marks);
            find_held(seen, node, top, numbers, held, marks);
            let found = &scratch.held;
            let act = changing(release, node, &found.items);
            tabled(seen, node, number, verdict.cause(), Some(act))
        }
    }
}

/// The act by which a list changes the states of its numbers.
fn changing(release: bool, node: NodeId, numbers: &[Absolute]) -> Act<'_>
    ensures { act_view result ≡ changing release node numbers.now }
{
    if release {
        Act::Release { node, numbers }
    } else {
        Act::Cancel { node, numbers }
    }
}

/// The request numbers that a list names.
#[tactic(auto, using(crate::proofs::ListsLemmas::step_numbers))]
fn name_numbers(top: Option<Absolute>, numbers: &Numbers<'_>, into: &mut Reserved<Absolute>)
    requires bounded { IfSome top (λ t. t < 2 ^ 63) }
    requires short { length numbers.now ≤ 32767 }
    ensures { into.new.items.items ≡ map (nearest top) numbers.now }
{
    into.clear();
    for place in 0..numbers.count() {
        into.push(nearest_number(top, numbers.at(place)));
    }
}

/// The states of these numbers.
fn find_states<O: Observe>(
    seen: &O,
    node: NodeId,
    numbers: &[Absolute],
    into: &mut Reserved<KeyState>,
)
    requires { length numbers.now ≤ 32767 }
    ensures { into.new.items.items ≡ map ((O.seen seen.now node).state) numbers.now }
{
    into.clear();
    for number in numbers {
        into.push(seen.state(node, *number));
    }
}

/// The held ones of the numbers that a list names, each once.
fn find_held<O: Observe>(
    seen: &O,
    node: NodeId,
    top: Option<Absolute>,
    numbers: &Numbers<'_>,
    into: &mut Reserved<Absolute>,
    marks: &mut WireMarks,
)
    requires bounded { IfSome top (λ t. t < 2 ^ 63) }
    requires short { length numbers.now ≤ 32767 }
    ensures { into.new.items.items ≡ held_ones (O.seen seen.now node) (map (nearest top) numbers.now) }
{
    if numbers.count() <= FEW {
        find_few(seen, node, top, numbers, into);
    } else {
        find_many(seen, node, top, numbers, into, marks);
    }
}

/// The same of few numbers: each is sought among those found.
#[tactic(auto, using(crate::proofs::ListsLemmas::step_held))]
fn find_few<O: Observe>(
    seen: &O,
    node: NodeId,
    top: Option<Absolute>,
    numbers: &Numbers<'_>,
    into: &mut Reserved<Absolute>,
)
    requires bounded { IfSome top (λ t. t < 2 ^ 63) }
    requires short { length numbers.now ≤ 32767 }
    ensures { into.new.items.items ≡ held_ones (O.seen seen.now node) (map (nearest top) numbers.now) }
{
    into.clear();
    for place in 0..numbers.count() {
        keep_new(seen, node, nearest_number(top, numbers.at(place)), into);
    }
}

/// Appends a number, where it is held and isn't there yet.
fn keep_new<O: Observe>(seen: &O, node: NodeId, number: Absolute, into: &mut Reserved<Absolute>)
    requires { length into.old.items.items < 32767 }
    ensures kept { into.new.items.items ≡ with_held (O.seen seen.now node) into.old.items.items number }
    ensures count { length into.new.items.items ≤ length into.old.items.items + 1 }
{
    if is_held(seen.state(node, number)) && !lists(&into.items, number) {
        into.push(number);
    }
}

/// The same of many numbers: those found are marked.
#[tactic(auto, using(crate::proofs::ListsLemmas::step_held))]
fn find_many<O: Observe>(
    seen: &O,
    node: NodeId,
    top: Option<Absolute>,
    numbers: &Numbers<'_>,
    into: &mut Reserved<Absolute>,
    marks: &mut WireMarks,
)
    requires bounded { IfSome top (λ t. t < 2 ^ 63) }
    requires short { length numbers.now ≤ 32767 }
    ensures { into.new.items.items ≡ held_ones (O.seen seen.now node) (map (nearest top) numbers.now) }
{
    into.clear();
    marks.clear();
    for place in 0..numbers.count() {
        keep_held(seen, node, top, numbers.at(place), into, marks);
    }
}

/// Appends the number that is meant, where it is held and isn't there yet.
fn keep_held<O: Observe>(
    seen: &O,
    node: NodeId,
    top: Option<Absolute>,
    wire: u16,
    into: &mut Reserved<Absolute>,
    marks: &mut WireMarks,
)
    requires bounded { IfSome top (λ t. t < 2 ^ 63) }
    requires found { AreMarked top marks.old into.old.items.items }
    requires few { length into.old.items.items < 32767 }
    ensures kept { into.new.items.items
        ≡ with_held (O.seen seen.now node) into.old.items.items (nearest top wire) }
    ensures marked { AreMarked top marks.new into.new.items.items }
    ensures count { length into.new.items.items ≤ length into.old.items.items + 1 }
{
    let number = nearest_number(top, wire);
    if is_held(seen.state(node, number)) && !marks.has(wire) {
        add(number, wire, into, marks);
    }
}

/// Appends a number that isn't there, which a sequence number means, and marks that.
fn add(number: Absolute, wire: u16, into: &mut Reserved<Absolute>, marks: &mut WireMarks)
    requires { length into.old.items.items < 32767 }
    ensures added { into.new.items.items ≡ into.old.items.items ++ number ∷ [] }
    ensures count { length into.new.items.items ≡ length into.old.items.items + 1 }
    ensures marked { (top : Option ℕ) → number ≡ nearest top wire →
        AreMarked top marks.old into.old.items.items → AreMarked top marks.new into.new.items.items }
{
    gw_base::nearest_keeps_apart();
    into.push(number);
    marks.set(wire);
}
