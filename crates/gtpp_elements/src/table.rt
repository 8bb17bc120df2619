ghost use Rattle.std.specs.Prelude.{◌≡◌};
ghost use Rattle.gtpp_elements.specs.Elements.{element_rows, is_known_fixed};

use crate::element_types::{
    CANCELLED, CAUSE, COMMAND, NODE_ADDRESS, PACKET, PRIVATE, RECOMMENDED, RECOVERY, RELEASED,
    RESPONDED,
};
use case_table::{Cases, cases};

/// The mark of a row that a later column may take.
const NO_MARK: u32 = 0;

/// The value of a row whose elements state their length.
const STATED: u32 = 0;

/// The types of the elements that are used here, and how many octets the value of each has, where
/// that is fixed.
fn elements() -> Cases<10>
    ensures { result ≡ element_rows }
{
    cases![
        CAUSE => 1, NO_MARK;
        RECOVERY => 1, NO_MARK;
        COMMAND => 1, NO_MARK;
        RELEASED => STATED, NO_MARK;
        CANCELLED => STATED, NO_MARK;
        NODE_ADDRESS => STATED, NO_MARK;
        PACKET => STATED, NO_MARK;
        RESPONDED => STATED, NO_MARK;
        RECOMMENDED => STATED, NO_MARK;
        PRIVATE => STATED, NO_MARK;
    ]
}

/// Whether elements of this type have a value of a known fixed length, and state none.
pub fn is_known_fixed(kind: u8) -> bool
    ensures { result ≡ is_known_fixed kind }
{
    match elements().find(u32::from(kind)) {
        Some(row) => row.value != STATED,
        None => false,
    }
}
