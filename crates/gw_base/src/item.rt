use crate::kind::CdrKind;
use crate::moment::Moment;
use crate::octets::Octets;
use crate::tag::Tag;

/// What the writer of files is told, one after the other.
#[derive(Drop)]
pub enum Item {
    /// A filed record.
    Part {
        kind: CdrKind,
        /// The identifier of the record's BER value, where the record is one.
        tag: Option<Tag>,
        octets: Octets,
        /// The moment of the entry that filed it.
        moment: Moment,
    },
    /// Files that have been open for long enough are to be closed.
    Tick {
        moment: Moment,
    },
    /// All open files are to be closed.
    Close {
        moment: Moment,
    },
}
