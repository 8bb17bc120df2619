/// What a gateway knows of one request number of a node, within an epoch of that node.
#[derive(Clone, Copy, Debug, PartialEq, Eq)]
pub enum KeyState {
    /// No entry names the number.
    Fresh,
    /// Its records are filed.
    Filed,
    /// It was tested before its records came, so they are refused.
    Sealed,
    /// Its records, possibly duplicated, are held.
    Held,
    /// Its held records were released, and so filed.
    Released,
    /// Its held records were cancelled.
    Cancelled,
}
