/// What a stop of an area or a shelf leaves of the octets that weren't synced.
#[derive(Clone, Copy, Debug)]
pub enum Mode {
    /// What stood there at the last sync.
    Old,
    /// What was written, that of the call that stops included.
    New,
    /// An octet 5A in the place of each.
    Rot,
}
