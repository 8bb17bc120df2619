//! How a book is opened.
ghost use Rattle.std.specs.Prelude.{◌≡◌, ◌≤◌, ℕ, IsTrue, false, [], List, IfErr, IfOk};
ghost use Rattle.gate_journal.specs.Format.{Starts, fewest_octets, header, most_octets};
ghost use Rattle.gate_journal.specs.Moments.{Told};
ghost use Rattle.cgf_journal.specs.Trail.{area_of as trail_area, firm_entries, is_closed, waiting, waiting_octets};
ghost use Rattle.gw_base.specs.declared.history.HistoryEntry.{HistoryEntry};
ghost use Rattle.gateway_book.specs.Begun.{IsBegun, IsStarted};
ghost use Rattle.gateway_book.specs.Faults.{book_fault};
ghost use Rattle.gateway_answer.specs.FitHistory.{AllFit};
ghost use Rattle.gateway_book.specs.Judging.{IsJudging};
ghost use Rattle.gateway_book.specs.OpenPlan.{OpensAsPlanned, is_memory};
ghost use Rattle.gateway_book.specs.Opened.{FindsHistory, IsMadeAnew, IsNotOurs, IsOpened, IsRefused, OnArea, RefusesForeign, StandsFitFor};

use crate::adding::record;
use crate::book::Book;
use crate::cursor::Cursor;
use crate::judge::FitJudge;
use crate::{BookFault, Setup};
use area_disk::Area;
use cgf_journal::{OpenFault, Trail};
use gateway_answer::Scratch;
use gateway_index::laws::an_index_tells_its_history;
use gw_base::{Act, Caller, Entry};
use std::alloc::Global;

impl<A: Area> Book<A> {
    /// Opens a gateway's history on an area, for its address, and adds a Start where there is room for one, which isn't
    /// firm yet. It makes one sync and reads; an area whose making began, or whose octet 0 is 0, is made anew with four
    /// calls of the device more, and has no entry. The area has from 100 to 268,435,456 octets.
    ///
    /// It refuses an area that stands for no history of fit entries with `NotOurs` and the place that shows it: the
    /// first octet of the header that differs, or the first open gate whose batch isn't whole or holds an entry that
    /// isn't fit. It hands the area back where it fails; after `NotOurs` and `NoMemory` nothing was written.
    pub fn open(alloc: Global, area: A, setup: Setup) -> Result<Book<A>, (BookFault, A)>
        requires long { fewest_octets ≤ A.size area }
        requires short { A.size area ≤ most_octets }

        // The book has the history that the area stands for, or the area was made anew.
        ensures ok { let h = header (A.size area) setup.address 0 in IfOk result (IsOpened h area setup.open_time) }
        ensures err { let h = header (A.size area) setup.address 0 in IfErr result (IsRefused A.Area area h) }
        // The history found is the one that the area stands for.
        ensures reads { Told A.Area → (h : List HistoryEntry) →
            StandsFitFor (header (A.size area) setup.address 0) (A.octets area) h → FindsHistory area result h }
        ensures anew { Told A.Area → Starts (header (A.size area) setup.address 0) (A.octets area) →
            IsMadeAnew area result (header (A.size area) setup.address 0) }
        ensures foreign { Told A.Area → (at : ℕ) →
            IsNotOurs (header (A.size area) setup.address 0) (A.octets area) at → RefusesForeign area result at }
        ensures size { OnArea result (λ now. A.size now ≡ A.size area) }
        ensures planned { IsTrue A.tells_fate → is_memory result ≡ false →
            OpensAsPlanned area result (header (A.size area) setup.address 0) }
    {
        let Ok(mut judge) = FitJudge::new(alloc) else {
            return Err((BookFault::NoMemory, area));
        };
        let Ok(scratch) = Scratch::new(alloc) else {
            return Err((BookFault::NoMemory, area));
        };
        match Trail::open_judged(alloc, area, setup.address, 0, &mut judge) {
            Ok(trail) => {
                let book = Book::begin(alloc, trail, judge, scratch, setup.open_time);
                Ok(book)
            }
            Err((fault, area)) => Err((fault_of(fault), area)),
        }
    }

    // A book over a trail that was opened, with a Start where there is room for one.
    fn begin(
        alloc: Global,
        trail: Trail<A>,
        judge: FitJudge,
        scratch: Scratch,
        open_time: u64,
    ) -> Book<A>
        requires short { A.size (trail_area trail) ≤ most_octets }
        requires ready { is_closed trail ≡ false }
        requires none { waiting trail ≡ [] }
        requires emptied { waiting_octets trail ≡ 0 }
        requires fit { Told A.Area → AllFit (A.size (trail_area trail)) (firm_entries trail) }
        requires follows { Told A.Area → IsJudging judge (firm_entries trail) }

        ensures { IsBegun trail open_time result }
    {
        let FitJudge {
            mut index,
            costs: _,
        } = judge;
        index.keep(false);
        let mut book = Book {
            trail,
            index,
            scratch,
            open_time,
            cuts: 0,
            kept: 0,
            cursor: Cursor::new(alloc),
        };
        book.start();
        // Its clause says what a crash leaves.
        let _broken = book.is_broken();
        book
    }

    // Adds a Start where there is room for one.
    fn start(&mut self)
        requires ready { is_closed self.old.trail ≡ false }
        requires emptied { waiting_octets self.old.trail ≡ 0 }
        ensures { IsStarted self.old self.new }
    {
        an_index_tells_its_history();
        let entry = Entry {
            moment: self.index.totals(false).moment,
            caller: Caller::NONE,
            act: Act::Start,
        };
        if !self.trail.room(&entry) {
            return;
        }
        record(&mut self.trail, &mut self.index, &entry);
    }
}

/// The fault of a book whose trail wasn't opened.
fn fault_of(fault: OpenFault) -> BookFault
    ensures { result ≡ book_fault fault }
{
    match fault {
        OpenFault::Device => BookFault::Device,
        OpenFault::NotOurs { at } => BookFault::NotOurs { at },
        OpenFault::NoMemory => BookFault::NoMemory,
    }
}
