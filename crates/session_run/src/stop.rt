/// Why sessions stopped before they were told to.
#[derive(Clone, Copy, Debug)]
pub enum Stop {
    /// A link failed: its count of faults rose.
    Link,
    /// The clock failed: its count of faults rose.
    Clock,
    /// There was no memory for a link, a session or the reception.
    NoMemory,
}
