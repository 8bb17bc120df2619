/// When a file is full, or old.
#[derive(Clone, Copy, Debug)]
pub struct Limits {
    /// A file is closed where it has this many octets, its header included: from 1 to 2^32 - 2^17.
    pub size: u32,
    /// A file is closed where it has this many records, at least 1.
    pub count: u32,
    /// A Tick closes a file that was opened at least this many seconds before it.
    pub open_time: u64,
}
