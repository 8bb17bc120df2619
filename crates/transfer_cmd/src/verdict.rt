ghost use Rattle.std.specs.Prelude.{◌≡◌};
ghost use Rattle.std.specs.List.{list_any};
ghost use Rattle.transfer_cmd.specs.Lists.{is_held, is_wrong, verdict_cause, verdict_of};

use gw_base::KeyState;
use gw_base::cause::{ACCEPTED, DUPLICATE_ALREADY_FULFILLED, NUMBERS_INCORRECT};

/// What a request to release or to cancel the packets of a list of numbers comes to.
#[derive(Clone, Copy, Debug)]
pub enum Verdict {
    /// The list is empty, or names a number that is neither held nor released (cancelled) before.
    Wrong,
    /// All numbers were released (cancelled) before.
    Before,
    /// The held numbers are to be released (cancelled).
    Change,
}

impl Verdict {
    /// The cause that answers it (3GPP TS 32.295, clause 6.2.4.6).
    pub fn cause(self) -> u8
        ensures { result ≡ verdict_cause self }
    {
        match self {
            Verdict::Wrong => NUMBERS_INCORRECT,
            Verdict::Before => DUPLICATE_ALREADY_FULFILLED,
            Verdict::Change => ACCEPTED,
        }
    }
}

/// The verdict on a list, by the states of the numbers that it names.
pub fn judge(states: &[KeyState], release: bool) -> Verdict
    ensures { result ≡ verdict_of release states.now }
{
    if states.is_empty() || any_wrong(states, release) {
        return Verdict::Wrong;
    }
    if any_held(states) {
        Verdict::Change
    } else {
        Verdict::Before
    }
}

fn any_wrong(states: &[KeyState], release: bool) -> bool
    ensures { result ≡ list_any (is_wrong release) states.now }
{
    states.iter().any(|state| is_wrong(*state, release))
}

fn any_held(states: &[KeyState]) -> bool
    ensures { result ≡ list_any is_held states.now }
{
    states.iter().any(|state| is_held(*state))
}

/// Whether a release (a cancel) may not name a number of this state.
fn is_wrong(state: KeyState, release: bool) -> bool
    ensures { result ≡ is_wrong release state }
{
    match state {
        KeyState::Held => false,
        KeyState::Released => !release,
        KeyState::Cancelled => release,
        KeyState::Fresh | KeyState::Filed | KeyState::Sealed => true,
    }
}

/// Whether a number of this state is held.
pub fn is_held(state: KeyState) -> bool
    ensures { result ≡ is_held state }
{
    matches!(state, KeyState::Held)
}
