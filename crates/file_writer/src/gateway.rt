use cdr_file::Offset16;

/// What the headers of its files say of a gateway.
#[derive(Clone, Copy)]
pub(crate) struct Gateway {
    /// How far its clock is ahead of UTC.
    pub offset: Offset16,
    /// Its IPv4 address.
    pub address: u32,
}
