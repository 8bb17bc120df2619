use std::sync::atomic::AtomicU64;

/// When the reception ends.
#[derive(Clone, Copy)]
pub enum Until<'a> {
    /// After so many turns of its link.
    Turns(u64),
    /// At the first quiet turn that began once the count had reached a number.
    QuietAfter { count: &'a AtomicU64, all: u64 },
}
