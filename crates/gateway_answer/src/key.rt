use gw_base::{Absolute, KeyState};

/// What a sequence number on the wire means in a node's present epoch.
#[derive(Clone, Copy)]
pub struct Key {
    /// The start of the node's present epoch: the restart counter that its Path told, and 0 where
    /// none did.
    pub start: u8,
    /// The request number that is meant.
    pub number: Absolute,
    /// Its state in that epoch.
    pub state: KeyState,
}
