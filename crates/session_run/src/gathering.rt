// The gate of the sessions of a thread, at which they wait for those of the other.
use crate::signals::Signals;
use node_session::{Gate, Go};
use std::sync::atomic::{AtomicU64, Ordering};

/// How many jobs are few: a commit of so many takes longer than all that is done for them else.
const FEW: usize = 16;

/// The gate of the sessions of a thread that go on with each answer of their batches. Before the first one they wait
/// for a moment until no other thread works, where they have few jobs: a commit of more is worth its while, and the
/// other threads send meanwhile. From the second one on they send, and the thread works again.
#[derive(Drop)]
pub(crate) struct Gathering<'a> {
    signals: &'a Signals,
    are_few: bool,
    entered: AtomicU64,
}

impl<'a> Gathering<'a> {
    /// The gate of batches with so many jobs. It tells whether the thread worked before them, and whether there are any.
    pub fn new(signals: &'a Signals, worked: bool, jobs: usize) -> Gathering<'a> {
        match (worked, jobs > 0) {
            (false, true) => signals.begin_work(),
            (true, false) => signals.end_work(),
            _ => {}
        }
        Gathering {
            signals,
            are_few: jobs < FEW,
            entered: AtomicU64::new(0),
        }
    }

    /// The jobs were served: the thread works until its inboxes are empty.
    pub fn leave(self) {
        if self.entered.load(Ordering::SeqCst) == 1 {
            self.signals.begin_work();
        }
    }
}

impl<'a> Gate for Gathering<'a> {
    ghost use Rattle.std.specs.Prelude.{◌≡◌};
    ghost use Rattle.node_session.specs.declared.gate.Go.TheVariants.{On};

    ghost may = { λ gate session serial go. go ≡ On };

    fn enter(&self, _session: u32, _serial: u64) -> Go {
        match self.entered.fetch_add(1, Ordering::SeqCst) {
            0 => {
                self.signals.end_work();
                if self.are_few {
                    self.signals.gather();
                }
            }
            1 => self.signals.begin_work(),
            _ => {}
        }
        Go::On
    }
}
