// What a writer of files is told of a book.
ghost use Rattle.std.specs.Prelude.{◌≡◌, IsTrue, IfOk, All};
ghost use Rattle.gate_journal.specs.Moments.{Kept, Told};
ghost use Rattle.gateway_answer.specs.Items.{IsWritable, items_between};

use crate::ItemsFault;
use crate::book::Book;
use crate::cursor::items_from;
use area_disk::Area;
use gw_base::Item;
use std::alloc::Global;

impl<A: Area> Book<A> {
    ghost use Rattle.gateway_book.specs.Book.{area_of, value_of};
    ghost use Rattle.gateway_book.specs.Read.{HasReadCause, IsUnchanged, ReadsAsPlanned};

    /// The firm records and marks from number `from` on, `max` of them, or all where there are fewer: each record that
    /// the firm entries file, and each Tick and Close among them, in their order and numbered from 0 on. An item keeps
    /// its number, since firm entries stay. What waits or is torn makes none yet, and a broken book isn't opened again.
    ///
    /// It goes on where the call before ended, where `from` isn't before that, and else begins with the first entry: to
    /// go through all items takes as many steps as there are entries, by whatever `max`.
    ///
    /// It reads the area and makes no other call of the device. After `Device` or `NoMemory` the book is as before.
    pub fn items(&mut self, alloc: Global, from: u64, max: u32) -> Result<Vec<Item>, ItemsFault>
        ensures items { Told A.Area → IfOk result (λ items. items.items ≡
            items_between from max (value_of self.old).firm) }
        // What a writer of files asks of each item.
        ensures writable { IfOk result (λ items. All IsWritable items.items) }
        ensures unchanged { IsUnchanged self.old self.new }
        // What a read gives and what a crash leaves is as before at any moment of the call, no call is counted, and
        // what is planned goes on.
        ensures area { Kept A.Area (area_of self.old) (area_of self.new) }
        ensures cause { HasReadCause self.old self.new result }
        ensures planned { IsTrue A.tells_fate → ReadsAsPlanned self.old self.new result }
    {
        items_from(alloc, &mut self.trail, &mut self.cursor, from, max)
    }
}
