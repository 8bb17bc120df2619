// That the clauses of a book's calls suffice: by what is armed, a gateway that is up is up after a call, or is cut, and
// then its area is that of a gateway that is down. Nothing else is used of the calls.
ghost use Rattle.std.specs.Prelude.{◌≡◌, ◌≢◌, ℕ, Err, IfOk, IsTrue, Bool, ◌&&◌, if◌then◌else◌, List, ◌++◌};
ghost use Rattle.area_disk.specs.Armed.{Armed};
ghost use Rattle.area_disk.specs.declared.plan.Outcome3.{Outcome3};
ghost use Rattle.gate_journal.specs.Moments.{Told};
ghost use Rattle.gate_journal.specs.Planned.{is_new};
ghost use Rattle.gw_base.specs.declared.history.HistoryEntry.{HistoryEntry};
ghost use Rattle.gateway_book.specs.Book.{size_of};
ghost use Rattle.gateway_book.specs.Calls.{commit_left, taken};
ghost use Rattle.gateway_answer.specs.Items.{items_between};
ghost use Rattle.gateway_book.specs.Opened.{StandsFitFor};
ghost use Rattle.gateway_answer.specs.Preparing.{prepared_of};
ghost use Rattle.gateway_book.specs.Up.{HasLeft, HoldsHistory, IsCut, IsUp, commit_sequel_of, fortune_by, ready_sequel_of};
ghost use Rattle.gateway_answer.specs.Value.{BookValue};

use crate::book::Book;
use crate::laws::{
    a_gateway_goes_as_armed, a_gateway_stays_up_as_it_is_read, what_a_gateway_leaves,
};
use crate::{Broken, ItemsFault, Outcome};
use area_disk::Area;
use gateway_answer::Prepared;
use gw_base::{Addr, Caller, Item, Moment};
use std::alloc::Global;

// A commit.
fn committed<A: Area>(book: &mut Book<A>) -> Result<u64, Broken>
    ensures { Told A.Area → IsTrue A.tells_fate → (header : List ℕ) (v : BookValue) (armed : Armed) (at_last : Bool) →
        IsUp header v armed at_last book.old → let sequel = commit_sequel_of armed at_last v in
        HasLeft header sequel (commit_left (fortune_by at_last sequel) v) book.new result }
{
    a_gateway_goes_as_armed::<A>();
    book.commit()
}

// A datagram that is taken.
fn delivered<A: Area>(
    book: &mut Book<A>,
    from: Addr,
    request: &Prepared<'_>,
    now: Moment,
    who: Caller,
) -> Outcome
    ensures { Told A.Area → IsTrue A.tells_fate → (header : List ℕ) (v : BookValue)
        (armed : Armed) (at_last : Bool) → IsUp header v armed at_last book.old →
        let sequel = ready_sequel_of armed at_last v in HasLeft header sequel
        (taken (fortune_by at_last sequel) from (prepared_of request.now) (size_of book.old) now who v) book.new
        result }
{
    a_gateway_goes_as_armed::<A>();
    book.take(from, request, now, who)
}

// The items of a gateway that is up.
fn told<A: Area>(
    book: &mut Book<A>,
    alloc: Global,
    from: u64,
    max: u32,
) -> Result<Vec<Item>, ItemsFault>
    ensures { Told A.Area → IsTrue A.tells_fate → (header : List ℕ) (v : BookValue) (armed : Armed) (at_last : Bool) →
        IsUp header v armed at_last book.old → IsUp header v armed at_last book.new × (result ≢ Err ItemsFault.Device)
        × IfOk result (λ items. items.items ≡ items_between from max v.firm) }
{
    a_gateway_stays_up_as_it_is_read::<A>();
    book.items(alloc, from, max)
}

// The area of a gateway that is cut, and of one that is up.
fn given_up<A: Area>(book: Book<A>) -> A
    ensures cut { Told A.Area → IsTrue A.tells_fate → (header : List ℕ) (h : List HistoryEntry) →
        IsCut header h book → HoldsHistory A.Area header h result }
    ensures stop { Told A.Area → IsTrue A.tells_fate → (header : List ℕ) (v : BookValue) (armed : Armed)
        (at_last : Bool) → IsUp header v armed at_last book → (outcome : Outcome3) →
        StandsFitFor header ((A.fate result).leaves outcome)
        (if v.is_broken && (at_last && is_new outcome) then v.firm ++ v.rest else v.firm) }
{
    what_a_gateway_leaves::<A>();
    book.into_area()
}
