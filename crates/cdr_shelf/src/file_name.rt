// The name of a file on a shelf.

/// The name of a CDR file: its stream, and its sequence number in that stream, from 1.
#[derive(Clone, Copy, Debug, PartialEq, Eq)]
pub struct FileName {
    pub stream: u8,
    pub sequence: u32,
}
