//! Inboxes: the jobs that a dispatcher hands to the sessions, in queues that threads share.
//!
//! Contracts see a pass as what it pushed and what it took, `Hand`. What holds of a queue at every moment is
//! `AreInOrder` of `specs/Rule.antt`: the jobs that were taken are the first of those that were pushed, in their
//! order, and what a pass pushed stands there in its own. `push` and `pop` tell of a moment at which the inbox was
//! full or empty, or the job stood first (`Shows`), and `finish` tells the whole of all passes (`Settled`,
//! `specs/Hands.antt`).
//!
//!     let (inbox, passes) = Inbox::new(alloc, 1024, 2)?;  // a pass for each of two threads
//!     let (pushed, pass) = inbox.push(rt, pass, job);     // in a thread
//!     let (job, pass) = inbox.pop(rt, pass);
//!     inbox.finish(passes)?;                              // with both passes
//!
//! Nothing is said of progress.
#![tactic(auto)]

mod ending;
mod hand;
mod inbox;
mod job;
mod making;

pub use hand::{Hand, Hands, InOrder, PassCount};
pub use inbox::{Inbox, InboxPass};
pub use job::{Job, route};
pub use turn_cell::Missing;
