//! How many records a book has filed.
ghost use Rattle.std.specs.Prelude.{◌≡◌, IfOk, List, count_by, length};
ghost use Rattle.gate_journal.specs.Moments.{Told};
ghost use Rattle.gw_base.specs.declared.history.HistoryEntry.{HistoryEntry};
ghost use Rattle.gateway_book.specs.Book.{value_of};
ghost use Rattle.gateway_answer.specs.Filed.{filed};
ghost use Rattle.gateway_answer.specs.Items.{is_part, items_of, part_count};
ghost use Rattle.gateway_book.specs.Read.{HasReadCause, IsUnchanged};

use crate::ItemsFault;
use crate::book::Book;
use crate::laws::a_book_is_within_the_limits;
use area_disk::Area;
use gateway_answer::laws::a_history_filed_its_parts;
use gw_base::Item;
use std::alloc::Global;

/// How many items are read at once.
const PIECE: u32 = 4096;

/// A history has no more items than the longest area has octets.
const MOST_ITEMS: u64 = 268_435_456;

/// How many records the firm entries of a gateway's history have filed. It reads the area, and ends at the first read
/// that fails. After `Device`, for which the count of the device's faults rose, or `NoMemory` the book is as before.
pub fn count_records<A: Area>(alloc: Global, book: &mut Book<A>) -> Result<usize, ItemsFault>
    ensures records { Told A.Area → IfOk result (λ n. n ≡ part_count (items_of (value_of book.old).firm)) }
    ensures cause { HasReadCause book.old book.new result }
    ensures same { IsUnchanged book.old book.new }
{
    a_book_is_within_the_limits::<A>();
    let mut from = 0u64;
    let mut records = 0usize;
    'pieces: while from <= MOST_ITEMS {
        let items = book.items(alloc, from, PIECE)?;
        records = records.saturating_add(record_count(&items));
        if items.len() < PIECE as usize {
            return Ok(records);
        }
        from += PIECE as u64;
    }
    Ok(records)
}

/// How many records there are among items: of all items of a history, how many it filed.
pub fn record_count(items: &[Item]) -> usize
    ensures parts { result ≡ count_by is_part items.now }
    ensures records { (h : List HistoryEntry) → items.now ≡ items_of h → result ≡ length (filed h) }
{
    a_history_filed_its_parts();
    let mut records = 0;
    for item in items {
        if let Item::Part { .. } = item {
            records += 1;
        }
    }
    records
}
