//! How far the items of a history were told.
ghost use Rattle.std.specs.Prelude.{◌≡◌, ◌<◌, ◌≤◌, ◌+◌, ℕ, List, true, false, All, IfOk, Ok, OnOk, OnErr};
ghost use Rattle.gate_journal.specs.Moments.{Told};
ghost use Rattle.cgf_journal.specs.Trail.{firm_length};
ghost use Rattle.gw_base.specs.Entry.{act_view};
ghost use Rattle.gw_base.specs.declared.history.HistoryEntry.{HistoryEntry};
ghost use Rattle.gateway_book.specs.Cursor.{HasPassed, HasStayed, IsAt, IsBegun, IsWithin, StandsIn, gathered_at_last};
ghost use Rattle.gateway_answer.specs.Items.{IsWritable, items_between};
ghost use Rattle.gateway_book.specs.Read.{HasCauseOf, IsRead, RunsOn};

use crate::ItemsFault;
use crate::entry_items::add_items;
use crate::gathering::Gathering;
use crate::held_copies::HeldCopies;
use crate::reading::{EntryBuffers, read_entry};
use area_disk::Area;
use cgf_journal::Trail;
use gw_base::{Act, Item, NoMemory};
use std::alloc::Global;

/// A place between the entries of a history.
#[derive(Drop)]
pub(crate) struct Cursor {
    /// How many entries stand before it.
    entry: u64,
    /// How many items these make. It stands still at 2^64 - 1.
    items: u64,
    /// The copies that they hold.
    copies: HeldCopies,
}

impl Cursor {
    /// The place before all entries. It takes no memory.
    pub(crate) fn new(alloc: Global) -> Cursor
        ensures { IsBegun result }
    {
        Cursor {
            entry: 0,
            items: 0,
            copies: HeldCopies::new(alloc),
        }
    }

    // Goes back before all entries, where the item with this number stands before it, or where it doesn't know how many
    // items do.
    fn rewind(&mut self, alloc: Global, item: u64)
        ensures within { (n : ℕ) → IsWithin n self.old → IsWithin n self.new }
        ensures at { (h : List HistoryEntry) → IsAt h self.old → IsAt h self.new }
        ensures before { self.new.items ≤ item }
        ensures exact { self.new.items < 18446744073709551615 }
    {
        if self.items == u64::MAX {
            *self = Cursor::new(alloc);
            return;
        }
        if item < self.items {
            *self = Cursor::new(alloc);
        }
    }

    // Passes an entry that makes so many items. Without memory it stays.
    fn pass(&mut self, act: &Act<'_>, items: u64) -> Result<(), NoMemory>
        requires { self.old.entry < 18446744073709551615 }
        ensures ok { OnOk result (HasPassed (act_view act.now) items self.old self.new) }
        ensures err { OnErr result (HasStayed self.old self.new) }
    {
        self.copies.note(self.entry, act)?;
        self.entry += 1;
        self.items = self.items.saturating_add(items);
        Ok(())
    }
}

// Gathers the items of the entry behind a cursor, and passes it, where there is room for more items then. It answers
// whether it did.
fn step<A: Area>(
    trail: &mut Trail<A>,
    cursor: &mut Cursor,
    entries: &mut EntryBuffers,
    held: &mut EntryBuffers,
    into: &mut Gathering,
) -> Result<bool, ItemsFault>
    requires within { IsWithin (firm_length trail.old) cursor.old }
    requires before { cursor.old.entry < firm_length trail.old }
    ensures gathered { Told A.Area → (h : List HistoryEntry) → StandsIn trail.old h cursor.old → OnOk result
        (gathered_at_last h cursor.new.entry into.new ≡ gathered_at_last h cursor.old.entry into.old) }
    ensures passed { result ≡ Ok true → cursor.new.entry ≡ cursor.old.entry + 1 }
    ensures full { result ≡ Ok false → into.new.room ≡ 0 }
    ensures within { IsWithin (firm_length trail.old) cursor.new }
    ensures at { Told A.Area → (h : List HistoryEntry) → StandsIn trail.old h cursor.old → IsAt h cursor.new }
    ensures read { IsRead trail.old trail.new }
    ensures cause { HasCauseOf trail.old trail.new result }
    ensures runs { RunsOn trail.old result }
{
    let _firm = trail.firm();
    let entry = match read_entry(trail, cursor.entry, entries) {
        Ok(entry) => entry,
        Err(fault) => return Err(fault),
    };
    let (skip, count) = (into.skip(), into.count());
    add_items(trail, &cursor.copies, held, &entry, into)?;
    if into.is_full() {
        return Ok(false);
    }
    let skipped = skip.saturating_sub(into.skip());
    let taken = into.count().saturating_sub(count) as u64;
    match cursor.pass(&entry.act, skipped.saturating_add(taken)) {
        Ok(()) => Ok(true),
        Err(NoMemory) => Err(ItemsFault::NoMemory),
    }
}

// Gathers the items of the firm entries behind a cursor, of all or until there is no room for more, and leaves the
// cursor behind the last entry whose items were all gathered.
fn gather<A: Area>(
    alloc: Global,
    trail: &mut Trail<A>,
    cursor: &mut Cursor,
    into: &mut Gathering,
) -> Result<(), ItemsFault>
    requires within { IsWithin (firm_length trail.old) cursor.old }
    ensures gathered { Told A.Area → (h : List HistoryEntry) → StandsIn trail.old h cursor.old → OnOk result
        (into.new.items ≡ gathered_at_last h cursor.old.entry into.old) }
    ensures within { IsWithin (firm_length trail.old) cursor.new }
    ensures at { Told A.Area → (h : List HistoryEntry) → StandsIn trail.old h cursor.old → IsAt h cursor.new }
    ensures read { IsRead trail.old trail.new }
    ensures cause { HasCauseOf trail.old trail.new result }
    ensures runs { RunsOn trail.old result }
{
    let mut entries = EntryBuffers::new(alloc);
    let mut held = EntryBuffers::new(alloc);
    while cursor.entry < trail.firm() {
        if !step(trail, cursor, &mut entries, &mut held, into)? {
            return Ok(());
        }
    }
    Ok(())
}

/// Gives the items of the firm entries from number `from` on, at most `max`, and leaves the cursor behind the last
/// entry whose items were all told.
pub(crate) fn items_from<A: Area>(
    alloc: Global,
    trail: &mut Trail<A>,
    cursor: &mut Cursor,
    from: u64,
    max: u32,
) -> Result<Vec<Item>, ItemsFault>
    requires within { IsWithin (firm_length trail.old) cursor.old }
    ensures items { Told A.Area → (h : List HistoryEntry) → StandsIn trail.old h cursor.old →
        IfOk result (λ items. items.items ≡ items_between from max h) }
    ensures writable { IfOk result (λ items. All IsWritable items.items) }
    ensures within { IsWithin (firm_length trail.old) cursor.new }
    ensures at { Told A.Area → (h : List HistoryEntry) → StandsIn trail.old h cursor.old → IsAt h cursor.new }
    ensures read { IsRead trail.old trail.new }
    ensures cause { HasCauseOf trail.old trail.new result }
    ensures runs { RunsOn trail.old result }
{
    cursor.rewind(alloc, from);
    let skip = from - cursor.items;
    // Most entries make an item or more.
    let left = trail.firm().saturating_sub(cursor.entry);
    let mut gathering = Gathering::new(alloc, skip, max as usize, left as usize);
    gather(alloc, trail, cursor, &mut gathering)?;
    Ok(gathering.into_items())
}
