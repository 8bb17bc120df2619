// What a gateway does: it commits, makes marks and redirects, and sends the answers that waited.
ghost use Rattle.std.specs.Prelude.{◌≡◌, ℕ, IfOk, List, OnOk, [], ◌∷◌, ◌++◌, false, filter, if◌then◌else◌, map, nat_le, not};
ghost use Rattle.file_writer.specs.Streams.{Settings};
ghost use Rattle.gateway_book.specs.Comes.{asked_to_commit};
ghost use Rattle.gateway_book.specs.Up as up;
ghost use Rattle.gateway_book.specs.Up.{Sequel, fortune_by};
ghost use Rattle.gateway_answer.specs.Value.{BookValue, after_commit};
ghost use Rattle.gw_base.specs.declared.history.HistoryEntry.{HistoryEntry};
ghost use Rattle.gw_base.specs.declared.item.Item.{Item};
ghost use Rattle.once_core.specs.Gateway.{Gateway};
ghost use Rattle.once_core.specs.Messages.{failing, is_response};
ghost use Rattle.replay_gateway.specs.Asking.{asked_by, asked_move, asked_value};
ghost use Rattle.replay_gateway.specs.Called.{AfterCall, BookStands, IsCalled, SiteIsCalled, SiteIsCut, SiteIsDown, firm_in};
ghost use Rattle.replay_gateway.specs.Device.{sequel_on};
ghost use Rattle.replay_gateway.specs.Moves.{GoesAsArmed, came_of};
ghost use Rattle.replay_gateway.specs.Setup.{Setup};
ghost use Rattle.replay_gateway.specs.Standing.{MachineStands, StandsUp};
ghost use Rattle.replay_gateway.specs.Machine.{Filing, Machine as MachineValue, ended};
ghost use Rattle.replay_gateway.specs.Written.{FilesStand};

use crate::machine::{Came, Machine, Sent};
use crate::messages::{failure, kept};
use crate::site::Site;
use crate::writing::what_was_written_stays;
use area_disk::MemoryArea;
use gateway_answer::laws::filed_records_stay;
use gateway_book::Book;
use gateway_book::laws::{a_gateway_goes_as_armed, what_a_gateway_leaves};
use gw_base::{Caller, Moment, NoMemory};
use once_core::{Message, Waiting, parted};
use std::alloc::Global;
use std::mem;

/// What is asked of a gateway's book.
#[derive(Clone, Copy)]
pub enum GatewayCall {
    /// To make its history firm, or to open the journal of a broken gateway again.
    Commit,
    /// To make a Tick, where one is due.
    Mark,
    /// To make a Close, where one is due.
    Close,
}

impl Machine {
    /// Its book is asked for this at this moment. What comes of it is what its area made of it, and the messages that
    /// the gateway sends then: answers whose entries are firm now, and failures of a gateway that broke. `NoMemory`:
    /// there was no memory for them, and a part of this may have been done.
    pub fn ask(&mut self, alloc: Global, call: GatewayCall, now: Moment) -> Result<Sent, NoMemory>
        ensures { (setup : Setup) (place : ℕ) (g : Gateway) (m : MachineValue) →
            MachineStands setup place g m self.old → g.is_down ≡ false → IfOk result (λ sent. GoesAsArmed setup place
            (asked_by call g.book) (asked_move setup now call) g m sent self.new) }
    {
        self.asked(call, now);
        self.after_call(alloc)
    }

    // The same, before what comes of it is sent.
    fn asked(&mut self, call: GatewayCall, now: Moment)
        ensures { (setup : Setup) (place : ℕ) (g : Gateway) (m : MachineValue) →
            MachineStands setup place g m self.old → g.is_down ≡ false →
            let sequel = sequel_on m (asked_by call g.book) in IsCalled setup place g m
            (asked_value setup now call (fortune_by m.at_last sequel) g.book) sequel self.new }
    {
        filed_records_stay();
        what_was_written_stays();
        match &mut self.site {
            Some(site) => site.ask(call, now),
            None => {}
        }
    }

    /// What a call of the area leads to: answers that are firm now are sent; those of a gateway that broke are failures
    /// or given up; and one that was stopped is down.
    pub(crate) fn after_call(&mut self, alloc: Global) -> Result<Sent, NoMemory>
        ensures { (setup : Setup) (place : ℕ) (g : Gateway) (m : MachineValue) (book : BookValue) (sequel : Sequel) →
            IsCalled setup place g m book sequel self.old →
            IfOk result (λ sent. AfterCall setup place g m book sequel
            sent self.new) }
    {
        match self.came() {
            Came::Went => {
                let messages = self.release(alloc)?;
                Ok(Sent {
                    came: Came::Went,
                    messages,
                })
            }
            Came::Failed => {
                let waiting = mem::replace(&mut self.waiting, Vec::new(alloc));
                let messages = failures(alloc, waiting)?;
                Ok(Sent {
                    came: Came::Failed,
                    messages,
                })
            }
            Came::Stopped => {
                self.cut(alloc);
                Ok(Sent {
                    came: Came::Stopped,
                    messages: Vec::new(alloc),
                })
            }
        }
    }

    // What the area made of the last call.
    fn came(&self) -> Came
        ensures { (setup : Setup) (place : ℕ) (value : BookValue) (sequel : Sequel) →
            SiteIsCalled setup place value sequel self.now.site → result ≡ came_of sequel }
    {
        let Some(Site::Up(book)) = &self.site else {
            return Came::Went;
        };
        came_of(book)
    }

    // The area has stopped it.
    fn cut(&mut self, alloc: Global)
        ensures down { (setup : Setup) (place : ℕ) (h : List HistoryEntry) → SiteIsCut setup place h self.old.site →
            SiteIsDown setup place h self.new.site × (self.new.waiting.items ≡ []) }
        ensures files { (setup : Setup) (place : ℕ) (h : List HistoryEntry) (settings : Settings) (f : Filing)
            (items : List Item) → SiteIsCut setup place h self.old.site →
            FilesStand settings f items self.old.files → FilesStand settings (ended f) items self.new.files }
        ensures rest { self.new ≡
            record self.old { site = self.new.site; waiting = self.new.waiting; files = self.new.files } }
    {
        what_a_gateway_leaves::<MemoryArea>();
        let Some(book) = self.take_book() else {
            return;
        };
        self.leave(alloc, book.into_area());
    }

    // The waiting answers whose entries are firm, which wait no more.
    pub(crate) fn release(&mut self, alloc: Global) -> Result<Vec<Message>, NoMemory>
        ensures due { IfOk result (λ due. due.items ≡
            map (λ w. w.message) (filter (λ w. nat_le w.front (firm_in self.old.site)) self.old.waiting.items)) }
        ensures later { OnOk result (self.new.waiting.items ≡
            filter (λ w. not (nat_le w.front (firm_in self.old.site))) self.old.waiting.items) }
        ensures rest { self.new ≡ record self.old { waiting = self.new.waiting } }
    {
        let firm = self.firm_count();
        let waiting = mem::replace(&mut self.waiting, Vec::new(alloc));
        let parts = parted(alloc, firm, waiting)?;
        let (due, later) = parts;
        self.waiting = later;
        Ok(due)
    }

    // How many entries are firm, of one that is up.
    fn firm_count(&self) -> u64
        ensures { result ≡ firm_in self.now.site }
    {
        let Some(Site::Up(book)) = &self.site else {
            return 0;
        };
        book.counts().firm
    }
}

/// A book is asked to commit.
pub(crate) fn commit(book: &mut Book<MemoryArea>)
    ensures { (setup : Setup) (place : ℕ) (g : Gateway) (m : MachineValue) → StandsUp setup place g m book.old →
        let sequel = sequel_on m (asked_to_commit g.book) in
        BookStands setup place (after_commit (fortune_by m.at_last sequel) g.book) sequel book.new }
{
    a_gateway_goes_as_armed::<MemoryArea>();
    let _answer = book.commit();
}

/// A book is asked for this.
pub(crate) fn ask(book: &mut Book<MemoryArea>, call: GatewayCall, now: Moment)
    ensures { (setup : Setup) (place : ℕ) (g : Gateway) (m : MachineValue) → StandsUp setup place g m book.old →
        let sequel = sequel_on m (asked_by call g.book) in
        BookStands setup place (asked_value setup now call (fortune_by m.at_last sequel) g.book) sequel book.new }
{
    a_gateway_goes_as_armed::<MemoryArea>();
    match call {
        GatewayCall::Commit => commit(book),
        GatewayCall::Mark => {
            let _marked = book.tick(now, Caller::NONE);
        }
        GatewayCall::Close => {
            let _marked = book.close(now, Caller::NONE);
        }
    }
}

/// What the area of a book made of the last call.
fn came_of(book: &Book<MemoryArea>) -> Came
    ensures { (header : List ℕ) (value : BookValue) (sequel : Sequel) → up.StandsAfter header sequel value book.now →
        result ≡ came_of sequel }
{
    if book.stopped() {
        return Came::Stopped;
    }
    if book.is_broken() {
        Came::Failed
    } else {
        Came::Went
    }
}

/// The messages by which a gateway that broke tells of the failure to those whose requests wait for these answers.
fn failures(alloc: Global, waiting: Vec<Waiting>) -> Result<Vec<Message>, NoMemory>
    ensures { IfOk result (λ messages. messages.items ≡
        map (λ w. failing w.message) (filter (λ w. is_response w.message) waiting.items)) }
{
    let mut messages = Vec::new(alloc);
    for w in waiting {
        fail(alloc, w, &mut messages)?;
    }
    Ok(messages)
}

/// The request that waits for an answer is told of the failure.
fn fail(alloc: Global, w: Waiting, messages: &mut Vec<Message>) -> Result<(), NoMemory>
    ensures { OnOk result (messages.new.items ≡
        messages.old.items ++ (if is_response w.message then failing w.message ∷ [] else [])) }
{
    let mut message = w.message;
    if !message.is_response() {
        return Ok(());
    }
    message.octets = kept(alloc, &failure(message.number))?;
    messages.push(message)?;
    Ok(())
}
