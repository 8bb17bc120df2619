ghost use Rattle.std.specs.Prelude.{◌≡◌};
ghost use Rattle.gtpp_message.specs.Reading.{flaw_cause};

use case_table::cases;
use gw_base::cause::{ELEMENT_INCORRECT, ELEMENT_MISSING, INVALID_MESSAGE_FORMAT};

/// The mark of each row: a cause has none.
const NO_MARK: u32 = 0;

/// What is wrong with the body of a message.
#[derive(Clone, Copy, Debug)]
pub enum Flaw {
    /// It is no list of elements.
    Elements,
    /// An element that the message must have is missing.
    Missing,
    /// An element that the message must have has a wrong form.
    Incorrect,
}

impl Flaw {
    /// The cause that answers it (3GPP TS 32.295, clause 6.2.4.6).
    pub fn cause(self) -> u8
        ensures { result ≡ flaw_cause self }
    {
        let causes = cases![
            Flaw::Elements => INVALID_MESSAGE_FORMAT, NO_MARK;
            Flaw::Missing => ELEMENT_MISSING, NO_MARK;
            Flaw::Incorrect => ELEMENT_INCORRECT, NO_MARK;
        ];
        match causes.find(self as u32) {
            Some(row) => row.value as u8,
            None => unreachable!(),
        }
    }
}
