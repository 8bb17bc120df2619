ghost use Rattle.std.specs.Prelude.{◌≡◌, ◌<◌, All};
ghost use Rattle.transfer_cmd.specs.Rows.{place_of_state, rows_for, state_marked};
ghost use Rattle.transfer_cmd.specs.Table.{answer_cause, state_given};

use case_table::{Cases, cases};
use gw_base::KeyState;
use gw_base::KeyState::{Cancelled, Filed, Fresh, Held, Released, Sealed};
use gw_base::cause::{ACCEPTED, ALREADY_FULFILLED, DUPLICATE_ALREADY_FULFILLED, NOT_FULFILLED};

/// What a request asks of the number that it bears.
#[derive(Clone, Copy)]
pub enum Ask {
    /// Send Data Record Packet, with records.
    Send,
    /// Send possibly duplicated Data Record Packet, with records.
    Possible,
    /// Either of them with an empty packet, which tests the number.
    Empty,
}

/// The mark of a row that calls for no entry: no entry makes a number fresh.
const NO_ENTRY: u32 = Fresh as u32;

/// The rows for an ask: by the state of the number, the cause, and the state that an entry gives.
fn answers(ask: Ask) -> Cases<6>
    ensures rows { result ≡ rows_for ask }
    ensures octets { All (λ row. row.value < 256) result }
{
    match ask {
        Ask::Send => cases![
            Fresh => ACCEPTED, Filed;
            Filed => ALREADY_FULFILLED, NO_ENTRY;
            Sealed => NOT_FULFILLED, NO_ENTRY;
            Held => DUPLICATE_ALREADY_FULFILLED, NO_ENTRY;
            Released => DUPLICATE_ALREADY_FULFILLED, NO_ENTRY;
            Cancelled => DUPLICATE_ALREADY_FULFILLED, NO_ENTRY;
        ],
        Ask::Possible => cases![
            Fresh => ACCEPTED, Held;
            Filed => ALREADY_FULFILLED, NO_ENTRY;
            Sealed => NOT_FULFILLED, NO_ENTRY;
            Held => DUPLICATE_ALREADY_FULFILLED, NO_ENTRY;
            Released => DUPLICATE_ALREADY_FULFILLED, NO_ENTRY;
            Cancelled => DUPLICATE_ALREADY_FULFILLED, NO_ENTRY;
        ],
        Ask::Empty => cases![
            Fresh => ACCEPTED, Sealed;
            Filed => ALREADY_FULFILLED, NO_ENTRY;
            Sealed => ACCEPTED, NO_ENTRY;
            Held => DUPLICATE_ALREADY_FULFILLED, NO_ENTRY;
            Released => DUPLICATE_ALREADY_FULFILLED, NO_ENTRY;
            Cancelled => DUPLICATE_ALREADY_FULFILLED, NO_ENTRY;
        ],
    }
}

const FILED: u32 = Filed as u32;

const SEALED: u32 = Sealed as u32;

const HELD: u32 = Held as u32;

/// The state that a row's mark stands for.
fn state_given(mark: u32) -> Option<KeyState>
    ensures { result ≡ state_marked mark }
{
    match mark {
        FILED => Some(Filed),
        SEALED => Some(Sealed),
        HELD => Some(Held),
        _ => None,
    }
}

/// The place of a state among the states.
fn place(state: KeyState) -> u32
    ensures { result ≡ place_of_state state }
{
    state as u32
}

/// The cause of the answer, and the state that the number gets where an entry is called for.
pub fn decide(state: KeyState, ask: Ask) -> (u8, Option<KeyState>)
    ensures cause { result.0 ≡ answer_cause ask state }
    ensures state { result.1 ≡ state_given ask state }
{
    match answers(ask).find(place(state)) {
        Some(row) => (row.value as u8, state_given(row.mark)),
        None => unreachable!(),
    }
}
