// What threads that serve tell one another. No clause speaks of it: what it says decides when they end, and nothing
// else.
use std::sync::Wait;
use std::sync::atomic::{AtomicBool, AtomicU64, Ordering};
use std::thread;

/// How many sessions there are.
pub(crate) const SESSIONS: usize = 4;

/// How often a thread looks whether others work before it goes on without them.
const LOOKS: u32 = 512;

/// What threads that serve tell one another.
#[derive(Drop)]
pub(crate) struct Signals {
    has_received: AtomicBool,
    is_stopped: AtomicBool,
    ended: AtomicU64,
    calls: AtomicU64,
    sleepers: AtomicU64,
    working: AtomicU64,
}

impl Signals {
    /// Nothing was told yet.
    pub fn new() -> Signals {
        Signals {
            has_received: AtomicBool::new(false),
            is_stopped: AtomicBool::new(false),
            ended: AtomicU64::new(0),
            calls: AtomicU64::new(0),
            sleepers: AtomicU64::new(0),
            working: AtomicU64::new(0),
        }
    }

    /// No job is pushed any more.
    pub fn end_reception(&self) {
        self.has_received.store(true, Ordering::SeqCst);
        self.call();
    }

    /// Whether no job is pushed any more.
    pub fn has_received(&self) -> bool {
        self.has_received.load(Ordering::SeqCst)
    }

    /// A link or the clock failed, or there was no memory: all is to end soon.
    pub fn stop(&self) {
        self.is_stopped.store(true, Ordering::SeqCst);
        self.call();
    }

    /// Whether all is to end soon.
    pub fn is_stopped(&self) -> bool {
        self.is_stopped.load(Ordering::SeqCst)
    }

    /// There may be something to do for a session that sleeps.
    pub fn call(&self) {
        let _before = self.calls.fetch_add(1, Ordering::SeqCst);
        if self.sleepers.load(Ordering::SeqCst) > 0 {
            self.calls.wake_all();
        }
    }

    /// The same behind a turn of the link, where that wasn't a quiet one.
    pub fn call_behind(&self, is_quiet: bool) {
        if !is_quiet {
            self.call();
        }
    }

    /// How often sessions were called.
    pub fn calls(&self) -> u64 {
        self.calls.load(Ordering::SeqCst)
    }

    /// Lets a session sleep until it is called once more than so often. Who calls sees it: it says that it sleeps
    /// before it compares the number.
    pub fn sleep<R: Wait>(&self, rt: &R, calls: u64) {
        let _before = self.sleepers.fetch_add(1, Ordering::SeqCst);
        self.calls.park(rt, (calls & 0xffff_ffff) as u32);
        let _before = self.sleepers.fetch_sub(1, Ordering::SeqCst);
    }

    /// A thread works: its sessions have jobs whose datagrams they take, or send replies.
    pub fn begin_work(&self) {
        let _before = self.working.fetch_add(1, Ordering::SeqCst);
    }

    /// A thread that worked doesn't any more.
    pub fn end_work(&self) {
        let _before = self.working.fetch_sub(1, Ordering::SeqCst);
    }

    /// Lets a thread whose sessions have taken all their datagrams, and which doesn't work any more, wait for a moment
    /// until no other works, so that one commit makes the answers of all firm.
    pub fn gather(&self) {
        for _ in 0..LOOKS {
            if self.working.load(Ordering::SeqCst) == 0 {
                return;
            }
            thread::yield_now();
        }
    }

    /// So many more sessions have ended.
    pub fn end_sessions(&self, count: u64) {
        let _before = self.ended.fetch_add(count, Ordering::SeqCst);
    }

    /// Whether all sessions have ended.
    pub fn have_ended(&self) -> bool {
        self.ended.load(Ordering::SeqCst) >= SESSIONS as u64
    }
}
