//! The cause that answers a request, and how a list of numbers is judged.
//!
//! - `decide ASK STATE`: the cause, and the state that the number is given.
//! - `judge release STATE ..`, `judge cancel STATE ..`: the verdict on numbers in these states.

use gw_base::KeyState;
use run_lines::bad;
use std::io;
use transfer_cmd::{Ask, decide, judge};

fn ask_of(word: &str) -> io::Result<Ask> {
    match word {
        "send" => Ok(Ask::Send),
        "possible" => Ok(Ask::Possible),
        "empty" => Ok(Ask::Empty),
        _ => Err(bad()),
    }
}

fn state_of(word: &str) -> io::Result<KeyState> {
    match word {
        "fresh" => Ok(KeyState::Fresh),
        "filed" => Ok(KeyState::Filed),
        "sealed" => Ok(KeyState::Sealed),
        "held" => Ok(KeyState::Held),
        "released" => Ok(KeyState::Released),
        "cancelled" => Ok(KeyState::Cancelled),
        _ => Err(bad()),
    }
}

pub(crate) fn decided(rt: &HostRuntime, words: &str) -> io::Result<()> {
    let (ask, state) = words.split_once(' ').ok_or(bad())?;
    print!(rt; "{:?}", decide(state_of(state)?, ask_of(ask)?))
}

pub(crate) fn judged(rt: &HostRuntime, words: &str) -> io::Result<()> {
    let mut states = Vec::new(rt.alloc());
    for word in words.split(' ').skip(1) {
        states.push(state_of(word)?)?;
    }
    let is_release = words.starts_with("release");
    print!(rt; "{:?}", judge(&states, is_release))
}
