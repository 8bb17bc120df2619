//! Laws of the definitions that the book's calls cite. Each stands on a function that does nothing.

ghost use Rattle.std.specs.Prelude.{◌≡◌, ◌≤◌, [], ◌++◌, ℕ, IsTrue, Bool, true, false, ◌&&◌, if◌then◌else◌, List, Option, Some, None, Result, length};
ghost use Rattle.area_disk.specs.Armed.{Armed, ReadsRun};
ghost use Rattle.area_disk.specs.Course.{IsTied};
ghost use Rattle.area_disk.specs.declared.plan.Outcome3.{Outcome3};
ghost use Rattle.entry_codec.specs.Room.{capacity_of};
ghost use Rattle.gate_journal.specs.Format.{Starts, header, most_octets};
ghost use Rattle.cgf_journal.specs.Trail.{stop_stands};
ghost use Rattle.gate_journal.specs.Moments.{Kept, Told};
ghost use Rattle.gate_journal.specs.Planned.{is_new};
ghost use Rattle.gtpp_message.specs.Message.{MessageValue};
ghost use Rattle.gtpp_message.specs.Writing.{written};
ghost use Rattle.gw_base.specs.Known.{known_nodes};
ghost use Rattle.gw_base.specs.Observed.{Observed};
ghost use Rattle.gw_base.specs.Owes.{base};
ghost use Rattle.gw_base.specs.declared.address.Addr.{Addr};
ghost use Rattle.gw_base.specs.declared.history.Caller.{Caller};
ghost use Rattle.gw_base.specs.declared.history.HistoryAct.{HistoryAct};
ghost use Rattle.gw_base.specs.declared.history.HistoryEntry.{HistoryEntry};
ghost use Rattle.gateway_answer.specs.Answer.{answer_by, decided};
ghost use Rattle.gateway_answer.specs.Answered.{act_decided};
ghost use Rattle.gateway_book.specs.Book.{HasCause, IsLeft, Stays, area_of, fortune_of, size_of, value_of};
ghost use Rattle.gateway_book.specs.Calls.{cause_in, cause_of, closed, commit_left, given_at, taken, ticked};
ghost use Rattle.gateway_book.specs.Comes.{AsPlanned, LeavesFit, asked_to_commit, asked_to_ready, plan_of};
ghost use Rattle.gateway_answer.specs.Items.{items_of};
ghost use Rattle.gateway_index.specs.Limits.{most_nodes};
ghost use Rattle.gateway_answer.specs.Marks.{close_mark, tick_mark};
ghost use Rattle.gateway_book.specs.Opened.{IsNotOurs, IsOpened, StandsFitFor};
ghost use Rattle.gateway_answer.specs.Preparing.{PreparedValue, prepared_of};
ghost use Rattle.gateway_book.specs.Read.{IsUnchanged};
ghost use Rattle.gateway_answer.specs.Recording.{tells_a_fault};
ghost use Rattle.gateway_book.specs.Turning.{IsTurn, act_in, added_to, drops_of, facts_of};
ghost use Rattle.gateway_book.specs.Up.{HasLeft, HoldsHistory, IsCut, IsUp, commit_sequel_of, fortune_by, ready_sequel_of};
ghost use Rattle.gateway_answer.specs.Value.{BookValue, history_of, readied};
ghost use Rattle.gateway_book.specs.declared.book.Book.{Book};
ghost use Rattle.gateway_book.specs.declared.outcome.Broken.{Broken};
ghost use Rattle.gateway_book.specs.declared.outcome.Marked.{Marked};
ghost use Rattle.gateway_book.specs.declared.outcome.Outcome.{Outcome};

use area_disk::Area;

/// A gateway that is ready says that its device failed, by the cause system failure or by dropping what isn't a
/// request, only where its book is broken.
pub fn only_a_broken_gateway_tells_a_fault()
    ensures running { (o : Observed) (from : Addr) (octets : List ℕ) (may : HistoryAct → Bool) →
        tells_a_fault (answer_by o from (prepared_of octets) may) ≡ false }
    ensures broken { (ready : BookValue) (from : Addr) (octets : List ℕ) (size : ℕ) →
        tells_a_fault (given_at ready from (prepared_of octets) size) ≡ true → ready.is_broken ≡ true }
{}

/// The firm entries of a book make no more items than its area, which is no longer than one may be, has octets behind
/// the header; and its history knows no more nodes than a gateway may.
pub fn a_book_is_within_the_limits<A: Area>()
    ensures short { (book : Book A A.Area) → size_of book ≤ most_octets }
    ensures items { Told A.Area → (book : Book A A.Area) →
        length (items_of (value_of book).firm) ≤ capacity_of (size_of book) }
    ensures nodes { Told A.Area → (book : Book A A.Area) →
        length (known_nodes (history_of (value_of book))) ≤ most_nodes }
{
    gateway_answer::laws::items_are_fewer_than_octets();
}

/// What is armed for the calls of the device decides what a call makes of a gateway that is up, and what it answers.
pub fn a_gateway_goes_as_armed<A: Area>()
    ensures commit { Told A.Area → IsTrue A.tells_fate → (header : List ℕ) (v : BookValue) (armed : Armed)
        (at_last : Bool) (old new : Book A A.Area) (result : Result ℕ Broken) → IsUp header v armed at_last old →
        IsLeft old new (commit_left (fortune_of old new) (value_of old)) result → Stays old new →
        AsPlanned old new (asked_to_commit (value_of old)) → let sequel = commit_sequel_of armed at_last v in
        HasLeft header sequel (commit_left (fortune_by at_last sequel) v) new result }
    ensures take { Told A.Area → IsTrue A.tells_fate → (header : List ℕ) (v : BookValue) (armed : Armed)
        (at_last : Bool) (old new : Book A A.Area) (result : Outcome) (from : Addr) (datagram : PreparedValue)
        (size now : ℕ) (who : Caller) → IsUp header v armed at_last old →
        IsLeft old new (taken (fortune_of old new) from datagram size now who (value_of old)) result → Stays old new →
        AsPlanned old new (asked_to_ready (value_of old)) → let sequel = ready_sequel_of armed at_last v in
        HasLeft header sequel (taken (fortune_by at_last sequel) from datagram size now who v) new result }
    ensures tick { Told A.Area → IsTrue A.tells_fate → (header : List ℕ) (v : BookValue) (armed : Armed)
        (at_last : Bool) (old new : Book A A.Area) (result : Marked) (open_time size now : ℕ) (who : Caller) →
        IsUp header v armed at_last old →
        IsLeft old new (ticked (fortune_of old new) open_time size now who (value_of old)) result → Stays old new →
        AsPlanned old new (asked_to_ready (value_of old)) → let sequel = ready_sequel_of armed at_last v in
        HasLeft header sequel (ticked (fortune_by at_last sequel) open_time size now who v) new result }
    ensures close { Told A.Area → IsTrue A.tells_fate → (header : List ℕ) (v : BookValue) (armed : Armed)
        (at_last : Bool) (old new : Book A A.Area) (result : Marked) (now : ℕ) (who : Caller) →
        IsUp header v armed at_last old →
        IsLeft old new (closed (fortune_of old new) now who (value_of old)) result → Stays old new →
        AsPlanned old new (asked_to_ready (value_of old)) → let sequel = ready_sequel_of armed at_last v in
        HasLeft header sequel (closed (fortune_by at_last sequel) now who v) new result }
{}

/// What each call of a book does, as its own clauses say it, is a turn of a value that many use: what it owes then, and
/// which entries it added behind which. A call that had no memory left the book ready. A book that was made ready
/// stands for the list behind which entries are added; one that is broken then adds none.
pub fn a_turn_owes<A: Area>()
    ensures ready { (old new : Book A A.Area) (session : Option ℕ) → Stays old new → HasCause old new →
        (Told A.Area → value_of new ≡ readied (fortune_of old new) (value_of old)) → IsTurn old new session [] }
    ensures commit { (old new : Book A A.Area) (result : Result ℕ Broken) (session : Option ℕ) →
        Stays old new → HasCause old new →
        (Told A.Area → IsLeft old new (commit_left (fortune_of old new) (value_of old)) result) →
        IsTurn old new session [] }
    ensures take { (old new : Book A A.Area) (result : Outcome) (from : Addr) (datagram : PreparedValue)
        (size now : ℕ) (who : Caller) → Stays old new → HasCause old new → (Told A.Area →
        IsLeft old new (taken (fortune_of old new) from datagram size now who (value_of old)) result) →
        let ready = readied (fortune_of old new) (value_of old) in IsTurn old new (Some who.session)
        (added_to ready now who (act_decided (decided (given_at ready from datagram size)))) }
    ensures tick { (old new : Book A A.Area) (result : Marked) (open_time size now : ℕ) (who : Caller) →
        Stays old new → HasCause old new → (Told A.Area →
        IsLeft old new (ticked (fortune_of old new) open_time size now who (value_of old)) result) →
        let ready = readied (fortune_of old new) (value_of old) in IsTurn old new (Some who.session)
        (added_to ready now who (act_in ready (tick_mark open_time now (history_of ready) size))) }
    ensures close { (old new : Book A A.Area) (result : Marked) (now : ℕ) (who : Caller) →
        Stays old new → HasCause old new → (Told A.Area →
        IsLeft old new (closed (fortune_of old new) now who (value_of old)) result) →
        let ready = readied (fortune_of old new) (value_of old) in IsTurn old new (Some who.session)
        (added_to ready now who (act_in ready (close_mark (history_of ready)))) }
    ensures items { (old new : Book A A.Area) (session : Option ℕ) → IsUnchanged old new →
        A.faults (area_of old) ≤ A.faults (area_of new) → IsTurn old new session [] }
    ensures behind { (old new : Book A A.Area) → let ready = readied (fortune_of old new) (value_of old) in
        ready.is_broken ≡ false →
        history_of ready ≡ base (drops_of (fortune_of old new) (value_of old)) (facts_of old) }
    ensures failed { (ready : BookValue) (from : Addr) (datagram : PreparedValue) (size : ℕ) →
        ready.is_broken ≡ true → act_decided (decided (given_at ready from datagram size)) ≡ None }
{}

/// The cause in a reply is that of its message, where that is a Data Record Transfer Response.
pub fn a_reply_has_its_cause()
    ensures { (number : ℕ) (message : MessageValue) → cause_in (written number message) ≡ cause_of message }
{}

/// No read fails of a gateway that is up, and it is up as before after its items are read.
pub fn a_gateway_stays_up_as_it_is_read<A: Area>()
    ensures runs { IsTrue A.tells_fate → (header : List ℕ) (v : BookValue) (armed : Armed) (at_last : Bool)
        (book : Book A A.Area) → IsUp header v armed at_last book → ReadsRun (A.fate (area_of book)).schedule }
    ensures up { Told A.Area → IsTrue A.tells_fate → (header : List ℕ) (v : BookValue) (armed : Armed)
        (at_last : Bool) (old new : Book A A.Area) → IsUp header v armed at_last old → IsUnchanged old new →
        Kept A.Area (area_of old) (area_of new) →
        ((outcome : Outcome3) → stop_stands outcome new.trail ≡ stop_stands outcome old.trail) →
        IsUp header v armed at_last new }
{}

/// A gateway that was cut leaves the area of one that is down; one that is up, and is stopped between two calls, leaves
/// the firm entries, and the torn ones where the stop keeps what was written and a commit's last call failed; and one
/// that was opened is up.
pub fn what_a_gateway_leaves<A: Area>()
    ensures cut { Told A.Area → IsTrue A.tells_fate → (header : List ℕ) (book : Book A A.Area)
        (h : List HistoryEntry) → LeavesFit book → IsCut header h book → HoldsHistory A.Area header h (area_of book) }
    ensures stop { Told A.Area → IsTrue A.tells_fate → (header : List ℕ) (book : Book A A.Area) (v : BookValue)
        (armed : Armed) (at_last : Bool) → LeavesFit book → IsUp header v armed at_last book → (outcome : Outcome3) →
        StandsFitFor header ((A.fate (area_of book)).leaves outcome)
        (if v.is_broken && (at_last && is_new outcome) then v.firm ++ v.rest else v.firm) }
    ensures opened { (header : List ℕ) (area : A) (open_time : ℕ) (book : Book A A.Area) (w : BookValue)
        (armed : Armed) → IsOpened header area open_time book → value_of book ≡ w → IsTied armed (plan_of book) →
        (w.is_broken ≡ false) × IsUp header w armed false book }
{}

/// An area that stands for a history of fit entries neither starts nor is another's: it is opened, and not refused.
/// What is another's doesn't start.
pub fn what_stands_is_ours()
    ensures starts { (size address : ℕ) (octets : List ℕ) (h : List HistoryEntry) →
        StandsFitFor (header size address 0) octets h → ¬ (Starts (header size address 0) octets) }
    ensures ours { (size address : ℕ) (octets : List ℕ) (h : List HistoryEntry) (at : ℕ) →
        StandsFitFor (header size address 0) octets h → ¬ (IsNotOurs (header size address 0) octets at) }
    ensures others { (size address : ℕ) (octets : List ℕ) (at : ℕ) → IsNotOurs (header size address 0) octets at →
        ¬ (Starts (header size address 0) octets) }
{
    cgf_journal::laws::what_stands_is_ours();
    entry_codec::laws::entries_are_read_back();
}
