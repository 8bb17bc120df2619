//! Calls that the tests share, each by itself. Who calls these learns the answer alone, so that tests stay short to
//! prove.

use gw_base::{Moment, NoMemory};
use once_core::{Event, Stepped, World};
use std::alloc::Global;
use std::process::Abort;

/// What was made, where there was memory for it.
pub(crate) fn had<T, R: Abort>(rt: &R, made: Result<T, NoMemory>) -> T {
    match made {
        Ok(value) => value,
        Err(_) => panic!(rt; "no memory"),
    }
}

pub(crate) fn moment<R: Abort>(rt: &R, seconds: u64) -> Moment {
    match Moment::of(seconds) {
        Some(moment) => moment,
        None => panic!(rt; "no moment"),
    }
}

/// What comes of an event.
pub(crate) fn stepped(alloc: Global, world: &mut World, event: &Event) -> Stepped {
    world.step(alloc, event)
}

fn is_done(stepped: Stepped) -> bool {
    matches!(stepped, Stepped::Done { .. })
}

/// Plays an event that the world allows.
pub(crate) fn does<R: Abort>(rt: &R, alloc: Global, world: &mut World, event: &Event) {
    assert!(rt; is_done(stepped(alloc, world, event)));
}
