// Who writes the files.
ghost use Rattle.std.specs.Prelude.{◌≡◌, IsSome, Some};

use crate::filing::Filing;
use crate::giving::{MOST_TAKEN, give, make_ready};
use crate::listing::Listing;
use area_disk::Area;
use cdr_shelf::Shelf;
use file_writer::{ShelfFault, Writer};
use gateway_answer::laws::filed_records_stay;
use gateway_book::laws::a_book_is_within_the_limits;
use gateway_book::{Book, ItemsFault};
use gw_base::Item;
use std::alloc::Global;
use std::sync::Wait;
use turn_cell::{Pass, TurnCell};

/// How many items a step takes at most.
const MOST_ITEMS: u32 = 64;

/// Takes the firm items of a book to a writer of files.
#[derive(Drop)]
pub struct FileActor<F: Shelf> {
    pub(crate) pass: Option<Pass>,
    pub(crate) writer: Writer<F>,
    ghost has: { IsSome pass },
}

impl<F: Shelf> FileActor<F> {
    ghost use Rattle.node_session.specs.Writing.{pass_of, writer_of};

    /// One with this pass and this writer.
    pub fn new(pass: Pass, writer: Writer<F>) -> FileActor<F>
        ensures pass { pass_of result ≡ Some pass }
        ensures writer { writer_of result ≡ writer }
    {
        FileActor {
            pass: Some(pass),
            writer,
        }
    }

    /// Its pass and its writer.
    pub fn into_parts(self) -> (Pass, Writer<F>)
        ensures pass { pass_of self ≡ Some result.0 }
        ensures writer { writer_of self ≡ result.1 }
    {
        let FileActor { pass, writer } = self;
        let Some(pass) = pass else {
            unreachable!();
        };
        (pass, writer)
    }
}

impl<F: Shelf> FileActor<F> {
    ghost use Rattle.std.specs.Prelude.{◌≤◌};
    ghost use Rattle.gateway_book.specs.Turning.{tells_lists};
    ghost use Rattle.gw_base.specs.Facts.{WhereTold};
    ghost use Rattle.gw_base.specs.Owes.{Begins as BeginsWith};
    ghost use Rattle.file_writer.specs.Writer.{settings_in, shelf_of, taken_of};
    ghost use Rattle.node_session.specs.Asking.{ListsIn};
    ghost use Rattle.node_session.specs.Writing.{IsActorOf, IsWriterOf, KeepsFiles, KeepsListing, TellsOf, knowledge_of, most_items, writer_of};

    /// Takes at most 64 firm items in a turn, those behind the items that its writer has taken, and gives them to the
    /// writer without a turn. A broken writer recovers first, and begins anew. A writer takes fewer than 2^31 items,
    /// and the history of an area that tells what it holds has fewer.
    pub fn step<A: Area, R: Wait>(
        &mut self,
        rt: &R,
        alloc: Global,
        cell: &TurnCell<Book<A>>,
    ) -> Filing
        requires own { IsActorOf cell.now self.old }
        requires writer { IsWriterOf (tells_lists A.Area) (knowledge_of self.old).known (writer_of self.old) }
        ensures own { IsActorOf cell.now self.new }
        ensures writer { IsWriterOf (tells_lists A.Area) (knowledge_of self.new).known (writer_of self.new) }
        ensures settings { settings_in (writer_of self.new) ≡ settings_in (writer_of self.old) }
        ensures later { F.faults (shelf_of (writer_of self.old)) ≤ F.faults (shelf_of (writer_of self.new)) }
        ensures grows { WhereTold (tells_lists A.Area)
            (BeginsWith (knowledge_of self.old).known (knowledge_of self.new).known) }
        ensures turns { KeepsListing (knowledge_of self.old) (knowledge_of self.new) }
        ensures tells { TellsOf F.Shelf (tells_lists A.Area) (knowledge_of self.old) (knowledge_of self.new)
            (writer_of self.old) (writer_of self.new) result }
        // The files of the shelf stay the first ones of those that the items of the history, and more, are divided
        // into.
        ensures files { WhereTold (tells_lists A.Area) (KeepsFiles F.Shelf (knowledge_of self.new).known
            (writer_of self.old) (writer_of self.new)) }
    {
        filed_records_stay();
        a_book_is_within_the_limits::<A>();
        let Ok(()) = make_ready(&mut self.writer) else {
            return Filing::Shelf;
        };
        let items = match self.list(rt, alloc, cell) {
            Ok(items) => items,
            Err(ItemsFault::Device) => return Filing::Area,
            Err(ItemsFault::NoMemory) => return Filing::NoMemory,
        };
        let taken = self.writer.taken().saturating_add(items.len() as u64);
        if taken > MOST_TAKEN {
            return Filing::Took { items: 0 };
        }
        match give(&mut self.writer, &items) {
            Ok(()) => Filing::Took {
                items: items.len() as u64,
            },
            Err(ShelfFault::Device) => Filing::Shelf,
            Err(ShelfFault::NoMemory) => Filing::NoMemory,
        }
    }

    // Takes firm items in a turn.
    fn list<A: Area, R: Wait>(
        &mut self,
        rt: &R,
        alloc: Global,
        cell: &TurnCell<Book<A>>,
    ) -> Result<Vec<Item>, ItemsFault>
        requires own { IsActorOf cell.now self.old }
        ensures own { IsActorOf cell.now self.new }
        ensures rest { writer_of self.new ≡ writer_of self.old }
        ensures lists { ListsIn A.Area (taken_of (writer_of self.old)) most_items (λ items. items.items)
            (knowledge_of self.old) result (knowledge_of self.new) }
    {
        let from = self.writer.taken();
        let Some(pass) = self.pass.take() else {
            unreachable!();
        };
        let turn = Listing {
            alloc,
            from,
            max: MOST_ITEMS,
        };
        let (listed, pass) = cell.with(rt, pass, turn);
        self.pass = Some(pass);
        listed
    }
}
