// The windows of a node's request numbers, on the firm side and on the live side.
ghost use Rattle.std.specs.Prelude.{◌≡◌, ◌≤◌, ◌+◌, ◌<◌, ◌^◌, ℕ, Bool, true, false, if◌then◌else◌, [], ◌∷◌, IfOk, IfSome, ◌&&◌, ◌==◌, not, vec_len};
ghost use Rattle.std.proofs.Props.{props};
ghost use Rattle.seq_window.specs.Seen.{nothing_seen, with_state, with_states};
ghost use Rattle.seq_window.specs.Stored.{seen_of};
ghost use Rattle.gateway_index.specs.Limits.{half};
ghost use Rattle.gateway_index.specs.GivenStates.{MaySetEach, MaySetEach-prop, with_each};

use crate::noting::{MOST_NOTED, note};
use gw_base::{Absolute, KeyState, NoMemory};
use seq_window::Window;
use std::alloc::Global;

/// A window that reaches `half` below the greatest number.
type NumberWindow = Window<32_768>;

/// A number of the live side was given this state.
#[derive(Clone, Copy)]
pub(crate) struct StateGiven {
    pub number: Absolute,
    pub state: KeyState,
}

/// The window that the firm side has of a node's numbers, and that of the live side.
///
/// It notes the last steps of the live side, so that the firm side can take them too, and no whole window is copied.
#[derive(Drop)]
pub(crate) struct WindowPair {
    firm: NumberWindow,
    live: NumberWindow,
    /// The steps that the live side took since both were the same.
    given: Vec<StateGiven>,
    /// Whether it took others.
    changed: bool,
    ghost agree: { changed ≡ false → MaySetEach given.items (seen_of half firm)
        × (with_each given.items (seen_of half firm) ≡ seen_of half live) } by { Prim.hlevel (MaySetEach-prop, props) },
}

// Lets a window take these steps.
fn follow(window: &mut NumberWindow, given: &[StateGiven])
    requires { MaySetEach given.now (seen_of half window.old) }
    ensures { seen_of half window.new ≡ with_each given.now (seen_of half window.old) }
{
    let mut left = given;
    while let Some((step, later)) = left.split_first() {
        window.set(step.number, step.state);
        left = later;
    }
}

// Makes both windows what one of them is. Where not more has changed than these steps, they are enough.
fn make_same(
    firm: &mut NumberWindow,
    live: &mut NumberWindow,
    given: &[StateGiven],
    changed: bool,
    keeps_firm: bool,
)
    requires { changed ≡ false → MaySetEach given.now (seen_of half firm.old)
        × (with_each given.now (seen_of half firm.old) ≡ seen_of half live.old) }
    ensures firm { seen_of half firm.new ≡ (if keeps_firm then seen_of half firm.old else seen_of half live.old) }
    ensures live { seen_of half live.new ≡ (if keeps_firm then seen_of half firm.old else seen_of half live.old) }
{
    if keeps_firm {
        live.copy_from(firm);
        return;
    }
    if changed {
        firm.copy_from(live);
        return;
    }
    follow(firm, given);
}

impl WindowPair {
    ghost use Rattle.gateway_index.specs.WindowPairs.{IsPairStep, seen_in};

    /// Windows of no number. They take the memory for all that they will hold.
    pub(crate) fn new(alloc: Global) -> Result<WindowPair, NoMemory>
        ensures { IfOk result (λ pair. (firm : Bool) → seen_in firm pair ≡ nothing_seen) }
    {
        let firm = Window::new(alloc)?;
        let live = Window::new(alloc)?;
        let given = Vec::with_capacity(alloc, MOST_NOTED)?;
        Ok(WindowPair {
            firm,
            live,
            given,
            changed: false,
        })
    }

    /// The greatest number of the firm side, or else of the live side, where it has one.
    #[tactic(auto, unfolding(crate::specs::WindowPairs::seen_in))]
    pub(crate) fn top(&self, firm: bool) -> Option<Absolute>
        ensures value { result ≡ (seen_in firm self.now).top }
        ensures low { IfSome result (λ top. top < 2 ^ 63) }
    {
        if firm {
            self.firm.top()
        } else {
            self.live.top()
        }
    }

    /// The state of a number on the firm side, or else on the live side.
    #[tactic(auto, unfolding(crate::specs::WindowPairs::seen_in))]
    pub(crate) fn state(&self, firm: bool, number: Absolute) -> KeyState
        ensures { result ≡ (seen_in firm self.now).state number }
    {
        if firm {
            self.firm.state(number)
        } else {
            self.live.state(number)
        }
    }

    /// Gives a state to a number on the live side.
    #[tactic(auto, unfolding(crate::specs::WindowPairs::seen_in))]
    pub(crate) fn set(&mut self, number: Absolute, state: KeyState)
        requires not_below { IfSome (seen_in false self.old).top (λ top. top ≤ number + half) }
        requires high { number < 2 ^ 63 }
        ensures { IsPairStep (with_state half number state) self.old self.new }
    {
        self.changed = note(&mut self.given, self.changed, StateGiven { number, state });
        self.live.set(number, state);
    }

    // Gives a state to a number, where the window of the live side holds it.
    fn set_held(&mut self, number: Absolute, state: KeyState)
        ensures { IsPairStep (with_states half (number ∷ []) state) self.old self.new }
    {
        // Its clause bounds what the window holds.
        let _top = self.live.top();
        if !self.live.holds(number) {
            return;
        }
        self.set(number, state);
    }

    /// Gives a state to those of these numbers that the window of the live side holds.
    #[tactic(auto, unfolding(crate::specs::WindowPairs::seen_in))]
    pub(crate) fn set_within(&mut self, numbers: &[Absolute], state: KeyState)
        ensures { IsPairStep (with_states half numbers.now state) self.old self.new }
    {
        if numbers.len() > MOST_NOTED {
            // They aren't noted.
            self.changed = true;
            self.live.set_within(numbers, state);
            return;
        }
        for number in numbers {
            self.set_held(*number, state);
        }
    }

    /// Forgets all numbers on the live side.
    #[tactic(auto, unfolding(crate::specs::WindowPairs::seen_in))]
    pub(crate) fn clear(&mut self)
        ensures { IsPairStep (λ seen. nothing_seen) self.old self.new }
    {
        self.changed = true;
        self.live.clear();
    }

    // Whether nothing has changed since both sides were made the same.
    fn is_same(&self) -> bool
        ensures same { result ≡ true → seen_of half self.now.firm ≡ seen_of half self.now.live }
        ensures value { result ≡ not self.now.changed && (vec_len self.now.given == 0) }
    {
        if self.changed {
            return false;
        }
        self.given.is_empty()
    }

    /// Makes both sides what one of them is.
    pub(crate) fn keep(&mut self, firm: bool)
        ensures { (side : Bool) → seen_in side self.new ≡ seen_in firm self.old }
    {
        if self.is_same() {
            return;
        }
        make_same(
            &mut self.firm,
            &mut self.live,
            &self.given,
            self.changed,
            firm,
        );
        self.changed = false;
        self.given.clear();
    }
}
