// What became of a step of the dispatcher.

/// What became of a step of the dispatcher.
#[derive(Clone, Copy, PartialEq, Eq)]
pub enum Dispatched {
    /// A datagram came, and was pushed to the inbox of its session.
    Pushed,
    /// A datagram came, and the inbox of its session was full at a moment of the call. It is lost.
    Full,
    /// None came for a while.
    Quiet,
    /// The link failed: its count of faults rose in this call.
    Link,
    /// The clock failed: its count of faults rose in this call. The datagram that came is lost.
    Clock,
    /// There was no memory for the datagram that came, and it is lost.
    NoMemory,
}
