use gtpp_message::{Transfer, Why};
use path_mgmt::PathEvent;

/// What a gateway makes of a datagram before it looks at its history.
#[derive(Drop)]
pub enum Case<'a> {
    /// It isn't answered.
    Drop(Why),
    /// A message of another version of GTP', which Version Not Supported answers.
    OtherVersion {
        /// Its sequence number.
        number: u16,
    },
    /// A Data Record Transfer Request that can't be read, or has a record that can't be decoded.
    Refused {
        /// The cause that answers it: 177, 193, 201 or 202.
        cause: u8,
        /// Its sequence number.
        number: u16,
    },
    /// A message of path management.
    Path(PathEvent),
    /// A Data Record Transfer Request.
    Request {
        /// Its sequence number.
        number: u16,
        /// What is asked.
        body: Transfer<'a>,
    },
}
