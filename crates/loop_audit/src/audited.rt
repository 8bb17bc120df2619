use gw_base::PacketId;

/// What an audit found.
#[derive(Clone, Copy, PartialEq, Eq)]
pub enum Audited {
    /// Each packet stands as often as it has to.
    Fine,
    /// The first packet, by node and number, that doesn't: so many of its copies stand, and so many may.
    Wrong {
        packet: PacketId,
        places: u64,
        wanted: u64,
    },
}
