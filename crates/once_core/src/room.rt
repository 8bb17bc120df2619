// The size of a gateway's journal, and when a batch is full.
ghost use Rattle.std.specs.Prelude.{◌≡◌};
ghost use Rattle.once_core.specs.Standing.{is_rest_full};

use gate_journal::LONGEST_BATCH;
use gateway_answer::costs_of;
use gw_base::{HistoryEntry, Moment};

/// The octets of a gateway's journal.
pub(crate) const SIZE: u64 = 16_777_216;

/// The octets of a batch that the answer to one more datagram may need.
const MOST_FOR_ONE: u128 = 270_000;

/// The octets of a batch before its content, which the cost of an entry has too.
const BATCH_HEAD: u128 = 5;

/// The first moment.
pub(crate) fn first_moment() -> Moment
    ensures { result ≡ 0 }
{
    match Moment::of(0) {
        Some(moment) => moment,
        None => unreachable!(),
    }
}

/// Whether entries that wait for a commit fill their batch so far that it is committed first.
pub(crate) fn is_rest_full(rest: &[HistoryEntry]) -> bool
    ensures { result ≡ is_rest_full rest.now }
{
    entry_codec::laws::costs_are_octets_and_five_each();
    let octets = costs_of(rest) - BATCH_HEAD * rest.len() as u128;
    (LONGEST_BATCH as u128).saturating_sub(octets) < MOST_FOR_ONE
}
