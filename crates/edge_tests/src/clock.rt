use cgf_edge::SystemClock;
use gw_base::{Clock, Failed};
use std::io;
use std::io::ErrorKind;
use std::process::Abort;
use std::time::Duration;

/// A clock that stands at a second, or can't be read.
#[derive(Drop)]
struct StandingClock {
    second: Option<u64>,
}

impl std::time::Clock for StandingClock {
    fn monotonic(&self) -> io::Result<Duration> {
        Ok(Duration::from_secs(0))
    }

    fn since_1970(&self) -> io::Result<Duration> {
        match self.second {
            Some(second) => Ok(Duration::from_secs(second)),
            None => Err(io::Error::from(ErrorKind::InvalidData)),
        }
    }
}

#[test]
fn the_clock_of_the_system_gives_a_moment_of_this_century(rt: HostRuntime) {
    let mut clock = SystemClock::new(&rt);
    match clock.now() {
        Ok(moment) => assert!(rt; moment.seconds() > 1_600_000_000),
        Err(Failed) => panic!(rt; "no moment"),
    }
}

/// The second of a clock's moment.
fn second_of<C: Clock>(clock: &mut C) -> Result<u64, Failed> {
    match clock.now() {
        Ok(moment) => Ok(moment.seconds()),
        Err(Failed) => Err(Failed),
    }
}

/// A clock that stands at a second gives this moment each time.
fn gives(rt: &impl Abort, second: Option<u64>, moment: Result<u64, Failed>) {
    let standing = StandingClock { second };
    let mut clock = SystemClock::new(&standing);
    assert_eq!(rt; second_of(&mut clock), moment);
    assert_eq!(rt; second_of(&mut clock), moment);
}

/// The last second of 2099 is a moment. The first of 2100 is none, nor is what the system tells before 1970, an error.
#[test]
fn a_clock_beside_its_range_fails_and_is_not_at_moment_0(rt: HostRuntime) {
    gives(&rt, Some(0), Ok(0));
    gives(&rt, Some(4_102_444_799), Ok(4_102_444_799));
    gives(&rt, Some(4_102_444_800), Err(Failed));
    gives(&rt, None, Err(Failed));
}
