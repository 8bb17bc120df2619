//! The marks that close files.
ghost use Rattle.std.specs.Prelude.{◌≡◌, ◌≢◌, ◌≤◌, ◌+◌, true, false};
ghost use Rattle.gate_journal.specs.Format.{longest_batch};
ghost use Rattle.gate_journal.specs.Moments.{Told};
ghost use Rattle.entry_codec.specs.Spelling.{entry_length};
ghost use Rattle.cgf_journal.specs.Trail.{has_room_of, is_closed, waiting_octets};
ghost use Rattle.gw_base.specs.Entry.{act_view, entry_view};
ghost use Rattle.gw_base.specs.History.{is_close_due};
ghost use Rattle.gw_base.specs.TickDue.{is_tick_due};
ghost use Rattle.gateway_answer.specs.Answered.{room_for};
ghost use Rattle.gateway_book.specs.Caller.{IsMarkTold};
ghost use Rattle.gateway_book.specs.Calls.{closed, marked_at, ticked};
ghost use Rattle.gateway_book.specs.Comes.{asked_to_ready};
ghost use Rattle.gateway_answer.specs.Fit.{IsFit};
ghost use Rattle.gateway_book.specs.Followed.{all_entries};
ghost use Rattle.gateway_index.specs.Index.{MayCome};
ghost use Rattle.gateway_book.specs.Marking.{IsMark, IsQuiet, OnlyAdds, with_entry};
ghost use Rattle.gateway_answer.specs.Marks.{close_mark, made_if, tick_mark};
ghost use Rattle.gateway_answer.specs.Value.{history_of, most_for_one};

use crate::Marked;
use crate::adding::record;
use crate::book::Book;
use area_disk::Area;
use gateway_answer::laws::a_due_close_has_room;
use gateway_index::laws::an_index_tells_its_history;
use gw_base::scan::is_long_ago;
use gw_base::{Act, Caller, Entry, Moment};

impl<A: Area> Book<A> {
    ghost use Rattle.gateway_book.specs.Book.{CrashLeaves, HasCause, IsLeft, Stays, fortune_of, open_time_of, size_of, value_of};
    ghost use Rattle.gateway_book.specs.Comes.{AsPlanned};

    /// Records a Tick where one is due and there is room for it: where a file with records is open, and no Tick was
    /// made since the last Close, or the last one at least the open time ago. A broken book is opened again first, with
    /// one call of the device; one of whose batch fewer than 270,000 octets are free commits first, with four.
    ///
    /// It takes no memory. After `Device` the book is broken.
    pub fn tick(&mut self, now: Moment, who: Caller) -> Marked
        ensures ticked { Told A.Area → IsLeft self.old self.new
            (ticked (fortune_of self.old self.new) (open_time_of self.old) (size_of self.old) now who
            (value_of self.old)) result }
        // A crash at any moment of the call leaves the firm entries, or these with those behind them.
        ensures any_moment { CrashLeaves self.old self.new }
        ensures stays { Stays self.old self.new }
        ensures cause { HasCause self.old self.new }
        // Over every area, also one that tells nothing.
        ensures everywhere { IsMarkTold self.new result }
        ensures planned { AsPlanned self.old self.new (asked_to_ready (value_of self.old)) }
    {
        match self.ready() {
            Ok(()) => self.tick_if_due(now, who),
            Err(_) => Marked::Device,
        }
    }

    /// Records a Close where one is due: where a file with records is open. There is always room for it then. A broken
    /// book is opened again first, with one call of the device; one of whose batch fewer than 270,000 octets are free
    /// commits first, with four.
    ///
    /// It takes no memory. After `Device` the book is broken.
    pub fn close(&mut self, now: Moment, who: Caller) -> Marked
        ensures closed { Told A.Area → IsLeft self.old self.new
            (closed (fortune_of self.old self.new) now who (value_of self.old)) result }
        // A crash at any moment of the call leaves the firm entries, or these with those behind them.
        ensures any_moment { CrashLeaves self.old self.new }
        ensures stays { Stays self.old self.new }
        ensures cause { HasCause self.old self.new }
        // Over every area, also one that tells nothing.
        ensures everywhere { IsMarkTold self.new result × (result ≢ Marked.NoRoom) }
        ensures planned { AsPlanned self.old self.new (asked_to_ready (value_of self.old)) }
    {
        match self.ready() {
            Ok(()) => self.close_if_due(now, who),
            Err(_) => Marked::Device,
        }
    }

    // Whether a Tick is due.
    fn is_tick_due(&self, now: Moment) -> bool
        ensures { Told A.Area → result ≡ is_tick_due (open_time_of self.now) now (all_entries self.now.trail) }
    {
        an_index_tells_its_history();
        let totals = self.index.totals(false);
        if !totals.is_close_due {
            return false;
        }
        match totals.last_tick {
            Some(moment) => is_long_ago(self.open_time, self.moment_after(now), moment),
            None => true,
        }
    }

    // Whether a Close is due.
    fn is_close_due(&self) -> bool
        ensures { Told A.Area → result ≡ is_close_due (all_entries self.now.trail) }
    {
        an_index_tells_its_history();
        self.index.totals(false).is_close_due
    }

    // Records a Tick of a book that is ready, where one is due and there is room for it.
    fn tick_if_due(&mut self, now: Moment, who: Caller) -> Marked
        requires ready { is_closed self.old.trail ≡ false }
        requires free { waiting_octets self.old.trail + most_for_one ≤ longest_batch }
        ensures left { Told A.Area → IsLeft self.old self.new
            (marked_at (value_of self.old) now who (tick_mark (open_time_of self.old) now
            (history_of (value_of self.old)) (size_of self.old))) result }
        ensures adds { OnlyAdds self.old self.new }
        ensures stays { Stays self.old self.new }
        ensures quiet { IsQuiet self.new result }
    {
        if !self.is_tick_due(now) {
            return Marked::NotDue;
        }
        self.mark(Act::Tick, now, who)
    }

    // Records a Close of a book that is ready, where one is due.
    fn close_if_due(&mut self, now: Moment, who: Caller) -> Marked
        requires ready { is_closed self.old.trail ≡ false }
        requires free { waiting_octets self.old.trail + most_for_one ≤ longest_batch }
        ensures left { Told A.Area → IsLeft self.old self.new
            (marked_at (value_of self.old) now who (close_mark (history_of (value_of self.old)))) result }
        ensures adds { OnlyAdds self.old self.new }
        ensures stays { Stays self.old self.new }
        ensures quiet { IsQuiet self.new result }
        ensures has_room { result ≢ Marked.NoRoom }
    {
        a_due_close_has_room();
        if !self.is_close_due() {
            return Marked::NotDue;
        }
        match self.mark(Act::Close, now, who) {
            // That can't be where the area tells what it holds.
            Marked::NoRoom => Marked::NotDue,
            marked => marked,
        }
    }

    // Records a mark of a book that is ready, where there is room for it.
    fn mark(&mut self, act: Act<'_>, now: Moment, who: Caller) -> Marked
        requires ready { is_closed self.old.trail ≡ false }
        requires free { waiting_octets self.old.trail + most_for_one ≤ longest_batch }
        requires closes { IsMark (act_view act) }
        ensures left { Told A.Area → IsLeft self.old self.new
            (marked_at (value_of self.old) now who (made_if
            (room_for (all_entries self.old.trail) (size_of self.old) (act_view act.entry)) (act_view act.entry)))
            result }
        ensures adds { OnlyAdds self.old self.new }
        ensures stays { Stays self.old self.new }
        ensures quiet { IsQuiet self.new result }
    {
        let moment = self.moment_after(now);
        let entry = Entry {
            moment,
            caller: who,
            act,
        };
        if !self.trail.room(&entry) {
            return Marked::NoRoom;
        }
        self.put(&entry);
        Marked::Made {
            front: self.trail.length(),
            faults: self.cuts,
        }
    }

    // Adds an entry that is fit, for which there is room. It takes no memory.
    fn put(&mut self, entry: &Entry<'_>)
        requires ready { is_closed self.old.trail ≡ false }
        requires room { has_room_of self.old.trail (entry_view entry.now) ≡ true }
        requires may_come { MayCome (act_view entry.now.act) self.old.index }
        requires free { waiting_octets self.old.trail + entry_length (entry_view entry.now) ≤ longest_batch }
        requires fit { Told A.Area → IsFit (size_of self.old) (all_entries self.old.trail) (entry_view entry.now) }
        ensures added { value_of self.new ≡ with_entry (value_of self.old) (entry_view entry.now) }
        ensures adds { OnlyAdds self.old self.new }
        ensures stays { Stays self.old self.new }
    {
        let (trail, index) = (&mut self.trail, &mut self.index);
        record(trail, index, entry);
    }
}
