// How a gateway ends.
ghost use Rattle.std.specs.Prelude.{◌≡◌, ◌≢◌, ◌≤◌, Err, IfOk, OnErr, OnOk, false};
ghost use Rattle.area_disk.specs.Disk.{Rose};
ghost use Rattle.gate_journal.specs.Moments.{Told};
ghost use Rattle.file_writer.specs.Writer.{is_broken, settings_in, shelf_of};
ghost use Rattle.cgf_journal.specs.Trail.{is_closed};
ghost use Rattle.gateway_book.specs.Book.{Stays, area_of, value_of};
ghost use Rattle.gateway_book.specs.Read.{IsUnchanged};
ghost use Rattle.gateway_book.specs.Turning.{tells_lists};
ghost use Rattle.gw_base.specs.Facts.{WhereTold};
ghost use Rattle.node_session.specs.Settling.{Grows, HasClosed, HasFirmed, HasGivenSome, HasSettled, HasTakenAll, IsSettled, TellsFaults};
ghost use Rattle.node_session.specs.Writing.{IsWriterOf, KeepsFiles};
ghost use Rattle.node_session.specs.declared.settling.SettleFault.TheVariants as fault;

use crate::giving::{MOST_TAKEN, give, make_ready};
use area_disk::Area;
use cdr_shelf::Shelf;
use file_writer::{ShelfFault, Writer};
use gateway_answer::laws::filed_records_stay;
use gateway_book::laws::{a_book_is_within_the_limits, a_turn_owes};
use gateway_book::{Book, Counts, ItemsFault, Marked};
use gw_base::{Caller, Moment};
use std::alloc::Global;

/// How many items a writer is given at once.
const MOST_ITEMS: u32 = 4096;

/// Why a gateway didn't settle.
#[derive(Clone, Copy, Debug, PartialEq, Eq)]
pub enum SettleFault {
    /// The area failed: its count of faults rose in this call.
    Area,
    /// The shelf failed: its count of faults rose in this call. The writer is broken.
    Shelf,
    /// There was no memory.
    NoMemory,
}

/// Ends a gateway: makes its history firm, closes the open files, makes that firm, lets a broken writer recover, and
/// gives the writer all firm items that it doesn't have. It answers the counts of the history. Where the area doesn't
/// fail, the history is closed and firm, whatever the writer could do.
///
/// The writer is broken, or it has taken items of this book. It takes fewer than 2^31 items, and the history of an area
/// that tells what it holds has fewer.
pub fn settle<A: Area, F: Shelf>(
    alloc: Global,
    book: &mut Book<A>,
    writer: &mut Writer<F>,
    now: Moment,
    who: Caller,
) -> Result<Counts, SettleFault>
    requires { IsWriterOf (tells_lists A.Area) (value_of book.old).firm writer.old }
    ensures settled { IfOk result (λ counts. HasSettled book.old book.new now who counts) }
    ensures closed { result ≢ Err fault.Area → IsSettled book.old book.new now who }
    ensures all { Told A.Area → OnOk result (HasTakenAll (value_of book.new).firm writer.new) }
    ensures grows { Grows book.old book.new }
    ensures stays { Stays book.old book.new × (settings_in writer.new ≡ settings_in writer.old) }
    ensures faults { TellsFaults book.old book.new writer.old writer.new result }
    ensures writer { IsWriterOf (tells_lists A.Area) (value_of book.new).firm writer.new }
    // The files of the shelf stay the first ones of those that the items of the history, and more, are divided into.
    ensures files { WhereTold (tells_lists A.Area) (KeepsFiles F.Shelf (value_of book.new).firm writer.old writer.new) }
{
    filed_records_stay();
    end(book, now, who)?;
    give_all(alloc, book, writer)?;
    Ok(book.counts())
}

// Makes the whole history firm.
fn make_firm<A: Area>(book: &mut Book<A>) -> Result<(), SettleFault>
    ensures ok { OnOk result (HasFirmed book.old book.new) }
    ensures area { OnErr result ((result ≡ Err fault.Area)
        × Rose (A.faults (area_of book.old)) (A.faults (area_of book.new))) }
    ensures later { A.faults (area_of book.old) ≤ A.faults (area_of book.new) }
    ensures grows { Grows book.old book.new }
    ensures stays { Stays book.old book.new }
{
    a_turn_owes::<A>();
    match book.commit() {
        Ok(_) => Ok(()),
        Err(_) => Err(SettleFault::Area),
    }
}

// Closes the open files.
fn close<A: Area>(book: &mut Book<A>, now: Moment, who: Caller) -> Result<(), SettleFault>
    requires { is_closed book.old.trail ≡ false }
    ensures ok { OnOk result (HasClosed book.old book.new now who) }
    ensures area { OnErr result ((result ≡ Err fault.Area)
        × Rose (A.faults (area_of book.old)) (A.faults (area_of book.new))) }
    ensures later { A.faults (area_of book.old) ≤ A.faults (area_of book.new) }
    ensures grows { Grows book.old book.new }
    ensures stays { Stays book.old book.new }
{
    a_turn_owes::<A>();
    match book.close(now, who) {
        Marked::Made { .. } => Ok(()),
        Marked::NotDue => Ok(()),
        Marked::NoRoom => unreachable!(),
        Marked::Device => Err(SettleFault::Area),
    }
}

// Makes the history firm, with a Close behind it.
fn end<A: Area>(book: &mut Book<A>, now: Moment, who: Caller) -> Result<(), SettleFault>
    ensures ok { OnOk result (IsSettled book.old book.new now who) }
    ensures area { OnErr result ((result ≡ Err fault.Area)
        × Rose (A.faults (area_of book.old)) (A.faults (area_of book.new))) }
    ensures later { A.faults (area_of book.old) ≤ A.faults (area_of book.new) }
    ensures grows { Grows book.old book.new }
    ensures stays { Stays book.old book.new }
{
    make_firm(book)?;
    close(book, now, who)?;
    make_firm(book)
}

// Gives a writer, which isn't broken, some of the firm items that it doesn't have, and tells whether there may be more.
fn give_some<A: Area, F: Shelf>(
    alloc: Global,
    book: &mut Book<A>,
    writer: &mut Writer<F>,
) -> Result<bool, SettleFault>
    requires ready { is_broken writer.old ≡ false }
    requires writer { IsWriterOf (tells_lists A.Area) (value_of book.old).firm writer.old }
    ensures same { IsUnchanged book.old book.new }
    ensures some { IfOk result (λ more. HasGivenSome (tells_lists A.Area) (value_of book.old).firm writer.old
        writer.new more) }
    ensures still { OnOk result (F.faults (shelf_of writer.new) ≡ F.faults (shelf_of writer.old)) }
    ensures settings { settings_in writer.new ≡ settings_in writer.old }
    ensures faults { TellsFaults book.old book.new writer.old writer.new result }
    ensures writer { IsWriterOf (tells_lists A.Area) (value_of book.old).firm writer.new }
    ensures files { WhereTold (tells_lists A.Area) (KeepsFiles F.Shelf (value_of book.old).firm writer.old writer.new) }
{
    a_book_is_within_the_limits::<A>();
    let items = match book.items(alloc, writer.taken(), MOST_ITEMS) {
        Ok(items) => items,
        Err(ItemsFault::Device) => return Err(SettleFault::Area),
        Err(ItemsFault::NoMemory) => return Err(SettleFault::NoMemory),
    };
    let taken = writer.taken().saturating_add(items.len() as u64);
    if taken > MOST_TAKEN {
        return Ok(false);
    }
    match give(writer, &items) {
        Ok(()) => Ok(items.len() == MOST_ITEMS as usize),
        Err(ShelfFault::Device) => Err(SettleFault::Shelf),
        Err(ShelfFault::NoMemory) => Err(SettleFault::NoMemory),
    }
}

// Gives a writer all firm items that it doesn't have. A broken one recovers first.
fn give_all<A: Area, F: Shelf>(
    alloc: Global,
    book: &mut Book<A>,
    writer: &mut Writer<F>,
) -> Result<(), SettleFault>
    requires { IsWriterOf (tells_lists A.Area) (value_of book.old).firm writer.old }
    ensures same { IsUnchanged book.old book.new }
    ensures all { Told A.Area → OnOk result (HasTakenAll (value_of book.old).firm writer.new) }
    ensures settings { settings_in writer.new ≡ settings_in writer.old }
    ensures faults { TellsFaults book.old book.new writer.old writer.new result }
    ensures writer { IsWriterOf (tells_lists A.Area) (value_of book.old).firm writer.new }
    ensures files { WhereTold (tells_lists A.Area) (KeepsFiles F.Shelf (value_of book.old).firm writer.old writer.new) }
{
    let Ok(()) = make_ready(writer) else {
        return Err(SettleFault::Shelf);
    };
    'pieces: loop {
        if !give_some(alloc, book, writer)? {
            return Ok(());
        }
    }
}
