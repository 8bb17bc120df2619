//! A gateway in memory, whose device never fails: each entry is firm before the next call.
ghost use Rattle.std.specs.Prelude.{◌≡◌, ◌≤◌, ◌<◌, ◌^◌, All, IfOk, length, false};
ghost use Rattle.file_writer.specs.AllStreams.{IsFit};
ghost use Rattle.file_writer.specs.Parts.{part_of};
ghost use Rattle.gate_journal.specs.Format.{fewest_octets, most_octets};
ghost use Rattle.gateway_book.specs.Book.{Stays, value_of};
ghost use Rattle.gateway_book.specs.Calls.{counts_of};
ghost use Rattle.gateway_answer.specs.Items.{items_of};
ghost use Rattle.gateway_answer.specs.Value.{committed, standing_for};
ghost use Rattle.cgf_jobs.specs.FeedReport.{reply_line};
ghost use Rattle.cgf_jobs.specs.Gateway.{after_close, after_datagram, after_tick, answered, new_gateway};
ghost use Rattle.cgf_jobs.specs.Steps.{outcome_line};

use area_disk::QuietArea;
use gateway_book::laws::a_book_is_within_the_limits;
use gateway_book::{Book, BookFault, Counts, ItemsFault, Outcome, Setup, prepare};
use gw_base::{Addr, Caller, Item, Moment, NoMemory};
use std::alloc::Global;
use std::marker::Model;

/// The gateway's IPv4 address, 10.0.0.1.
pub const GATEWAY: u32 = 0x0A00_0001;

/// A gateway over an area in memory.
#[derive(Drop)]
pub struct Gateway {
    book: Book<QuietArea>,
}

impl Model for Gateway {
    ghost use Rattle.cgf_jobs.specs.Gateway.{GatewayValue};
    ghost use Rattle.cgf_jobs.specs.BookSteps.{IsAllFirm, gateway_of};

    ghost Value = { GatewayValue };

    ghost view = { λ g. gateway_of g.book };

    ghost invariant = { λ g. IsAllFirm g.book };
}

impl Gateway {
    /// A gateway that begins to run on an area of so many octets, each of them 0. A Tick closes a file that was opened
    /// at least so many seconds before it.
    pub fn open(alloc: Global, reserved: u64, open_time: u64) -> Result<Gateway, NoMemory>
        requires long { fewest_octets ≤ reserved }
        requires short { reserved ≤ most_octets }
        ensures { IfOk result (λ gateway. gateway ≡ new_gateway reserved open_time) }
    {
        let Ok(area) = QuietArea::new(alloc, reserved) else {
            return Err(NoMemory);
        };
        let setup = Setup {
            address: GATEWAY,
            open_time,
        };
        match Book::open(alloc, area, setup) {
            Ok(mut book) => {
                commit(&mut book);
                Ok(Gateway { book })
            }
            Err((BookFault::NoMemory, _)) => Err(NoMemory),
            Err((BookFault::Device, _)) => unreachable!(),
            Err((BookFault::NotOurs { .. }, _)) => unreachable!(),
        }
    }

    /// What becomes of a datagram of this sender.
    pub fn take(&mut self, from: Addr, octets: &[u8], now: Moment) -> Outcome
        ensures after { self.new ≡ after_datagram self.old now from octets.now }
        ensures answered { outcome_line result ≡ reply_line (answered self.old from octets.now) }
    {
        let book = &mut self.book;
        let outcome = book.take(from, &prepare(octets), now, Caller::NONE);
        commit(book);
        outcome
    }

    /// Files that have been open for long enough are closed.
    pub fn tick(&mut self, now: Moment)
        ensures { self.new ≡ after_tick self.old now }
    {
        let book = &mut self.book;
        let _marked = book.tick(now, Caller::NONE);
        commit(book);
    }

    /// All open files are closed.
    pub fn close(&mut self, now: Moment)
        ensures { self.new ≡ after_close self.old now }
    {
        let book = &mut self.book;
        let _marked = book.close(now, Caller::NONE);
        commit(book);
    }

    /// At most so many of the items that its history tells the writer of files, from this one on.
    pub fn items(&mut self, alloc: Global, from: u64, most: u32) -> Result<Vec<Item>, NoMemory>
        ensures items { IfOk result (λ items. items.items ≡ part_of from most (items_of self.old.history)) }
        ensures few { IfOk result (λ items. length (items_of self.old.history) < 2 ^ 31) }
        ensures fit { IfOk result (λ items. All IsFit items.items) }
        ensures same { self.new ≡ self.old }
    {
        a_book_is_within_the_limits::<QuietArea>();
        let book = &mut self.book;
        let items = match book.items(alloc, from, most) {
            Ok(items) => items,
            Err(ItemsFault::NoMemory) => return Err(NoMemory),
            Err(ItemsFault::Device) => unreachable!(),
        };
        Ok(items)
    }

    /// How much it has recorded and holds.
    pub fn counts(&self) -> Counts
        ensures { result ≡ counts_of (standing_for self.now.history) self.now.reserved }
    {
        self.book.counts()
    }
}

/// Makes all entries firm.
fn commit(book: &mut Book<QuietArea>)
    requires { (value_of book.old).is_broken ≡ false }
    ensures committed { value_of book.new ≡ committed (value_of book.old) }
    ensures stays { Stays book.old book.new }
{
    let Ok(_) = book.commit() else {
        unreachable!();
    };
}
