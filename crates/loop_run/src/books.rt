// The books of a loop's gateways.
ghost use Rattle.std.specs.Prelude.{◌<◌, IfOk};
ghost use Rattle.loop_run.specs.Seats.{HasCommitted, IsBegun};

use crate::addresses::gateway_at;
use area_disk::QuietArea;
use gateway_book::{Book, BookFault, Setup};
use gw_base::{Counted, NoMemory};
use std::alloc::Global;

/// How many octets the area of a gateway has.
const AREA_LENGTH: u64 = 16_777_216;

/// For how many seconds a file may be open. No mark is made, so that none is closed by it.
pub(crate) const OPEN_TIME: u64 = 3_600;

/// The book of the gateway in a place, on an area of zeros. Its Start is firm.
pub(crate) fn open_book(alloc: Global, place: u8) -> Result<Book<QuietArea>, NoMemory>
    requires { place < 4 }
    ensures { IfOk result (IsBegun place) }
{
    let Ok(area) = QuietArea::new(alloc, AREA_LENGTH) else {
        return Err(NoMemory);
    };
    let setup = Setup {
        address: gateway_at(place).ip,
        open_time: OPEN_TIME,
    };
    match Book::open(alloc, area, setup) {
        Ok(book) => Ok(commit(book)),
        Err((BookFault::NoMemory, _)) => Err(NoMemory),
        Err((BookFault::Device, _)) => unreachable!(),
        Err((BookFault::NotOurs { .. }, _)) => unreachable!(),
    }
}

/// Commits a book. The area never fails.
pub(crate) fn commit(mut book: Book<QuietArea>) -> Book<QuietArea>
    ensures { HasCommitted book result }
{
    // Its clause says that no more commits failed than the area counts faults.
    let _length = book.length();
    let Ok(_) = book.commit() else {
        unreachable!();
    };
    book
}
