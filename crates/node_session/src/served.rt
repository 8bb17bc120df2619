// What became of a job.
use gtpp_message::Why;

/// What became of a job that a session served.
#[derive(Clone, Copy, PartialEq, Eq)]
pub enum Served {
    /// A reply went to its sender: its cause, where it is a Data Record Transfer Response, and the length of the
    /// history that it rests on, which was firm before.
    Replied { cause: Option<u8>, front: u64 },
    /// It isn't answered.
    Dropped(Why),
    /// A commit or an opening again failed before its answer was firm. A Data Record Transfer Request was answered by
    /// the cause system failure then, and to anything else nothing was sent.
    Lost,
    /// The link failed.
    Link,
    /// The gate told that it is over. Nothing was sent.
    Over,
    /// The link had no memory to send, and sent nothing. Either a reply was to go, and the entry that its answer called
    /// for is firm; or a commit or an opening again had failed, as for `Lost`, and the entry may be gone.
    NoMemory,
}
