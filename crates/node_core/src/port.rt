/// A port of a serving node. Packets and their copies go from the first, and what is asked or
/// ordered of a copy from the second, so that an answer to a test is never taken for a late answer
/// to the packet.
#[derive(Clone, Copy, Debug, PartialEq, Eq)]
pub enum Port {
    First,
    Second,
}
