// How fast datagrams come to who receives.
use std::thread;
use std::time::{Clock, Duration, Instant};

/// So many datagrams are looked at together.
const MANY: u32 = 8;

/// Where they took less more of them wait, in microseconds.
const LEAST: u128 = 15;

/// Where they took more few come, in microseconds.
const MOST: u128 = 200;

/// How long who receives rests, in microseconds. The system makes some fifty of it.
const REST: u64 = 1;

/// How many datagrams came since the clock was looked at, and when that was.
#[derive(Drop)]
pub(crate) struct Pace {
    count: u32,
    since: Option<Instant>,
}

// Whether datagrams came one by one within a short time.
fn are_close(since: Option<Instant>, now: Option<Instant>) -> bool {
    match (since, now) {
        (Some(since), Some(now)) => {
            let took = now.duration_since(since).as_micros();
            LEAST <= took && took <= MOST
        }
        _ => false,
    }
}

impl Pace {
    /// None came yet.
    pub fn new() -> Pace {
        Pace {
            count: 0,
            since: None,
        }
    }

    /// Counts a datagram, where one came. Where many came one by one within a short time it lets the thread rest for a
    /// moment: those that come meanwhile are received together, and the processor that looks for each is others'.
    pub fn count<R: Clock>(&mut self, rt: &R, is_quiet: bool) {
        if is_quiet {
            return;
        }
        self.count = self.count.saturating_add(1);
        if self.count < MANY {
            return;
        }
        self.count = 0;
        let now = Instant::now(rt).ok();
        if are_close(self.since, now) {
            thread::sleep(rt, Duration::from_micros(REST));
            self.since = Instant::now(rt).ok();
        } else {
            self.since = now;
        }
    }
}
