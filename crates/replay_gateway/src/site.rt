// Where a gateway is: it is up, with its book open on its area, or down, with its area alone.
ghost use Rattle.std.specs.Prelude.{◌≡◌, ◌≢◌, ◌+◌, ◌<◌, ◌≤◌, ◌^◌, ℕ, All, IfOk, MatchOption, OnOk, Some, false, length};
ghost use Rattle.area_disk.specs.Armed.{Armed};
ghost use Rattle.file_writer.specs.AllStreams.{IsFit};
ghost use Rattle.gateway_answer.specs.Answered.{no_caller};
ghost use Rattle.gateway_book.specs.Calls.{taken};
ghost use Rattle.gateway_answer.specs.Items.{items_of};
ghost use Rattle.gateway_book.specs.OpenPlan.{is_memory_fault};
ghost use Rattle.gateway_answer.specs.Preparing.{prepared_of};
ghost use Rattle.gateway_book.specs.Up.{fortune_by, ready_sequel_of};
ghost use Rattle.once_core.specs.Addresses.{gateway_address};
ghost use Rattle.once_core.specs.Beginning.{first_gateway};
ghost use Rattle.once_core.specs.Gateway.{Gateway};
ghost use Rattle.replay_gateway.specs.Asking.{asked_by, asked_value};
ghost use Rattle.replay_gateway.specs.Called.{SiteIsCalled};
ghost use Rattle.replay_gateway.specs.Device.{sequel_on};
ghost use Rattle.replay_gateway.specs.Opening.{ArmsAs, SiteIsOpened, begun_gateway};
ghost use Rattle.replay_gateway.specs.HandedOut.{IsAreaOf};
ghost use Rattle.replay_gateway.specs.Parts.{IsPart};
ghost use Rattle.replay_gateway.specs.Setup.{Setup as SetupValue, rules_in};
ghost use Rattle.replay_gateway.specs.Standing.{SiteStands, StandsDown, StandsUp, area_tells};
ghost use Rattle.replay_gateway.specs.Machine.{Machine as MachineValue, first_machine};

use crate::calls::{GatewayCall, ask, commit};
use crate::fallen::Fallen;
use crate::plans::calm;
use crate::taking::take;
use crate::writing::items_from;
use area_disk::laws::{arms_fail, arms_nothing, arms_stop};
use area_disk::{MemoryArea, Plan};
use gateway_book::laws::{what_a_gateway_leaves, what_stands_is_ours};
use gateway_book::{Book, BookFault, Outcome, Prepared, Setup};
use gtpp_message::Why;
use gw_base::{Addr, Item, Moment, NoMemory};
use std::alloc::Global;

/// A gateway that is up has its book open; one that is down has an area alone.
#[derive(Drop)]
pub(crate) enum Site {
    Up(Book<MemoryArea>),
    Down(Fallen),
}

// What is asked of a gateway that is up. One that is down does nothing.
impl Site {
    /// Arms this for the calls of its area.
    pub fn arm(&mut self, plan: Plan)
        ensures { (setup : SetupValue) (place : ℕ) (g : Gateway) (m : MachineValue) (armed : Armed) →
            ArmsAs armed plan → g.is_down ≡ false → SiteStands setup place g m (Some self.old) →
            SiteStands setup place g (record m { armed = armed }) (Some self.new) }
    {
        arms_nothing();
        arms_fail();
        arms_stop();
        match self {
            Site::Up(book) => book.arm(plan),
            Site::Down(_) => {}
        }
    }

    /// Its book is asked for this.
    pub fn ask(&mut self, call: GatewayCall, now: Moment)
        ensures { (setup : SetupValue) (place : ℕ) (g : Gateway) (m : MachineValue) → g.is_down ≡ false →
            SiteStands setup place g m (Some self.old) → let sequel = sequel_on m (asked_by call g.book) in
            SiteIsCalled setup place (asked_value setup now call (fortune_by m.at_last sequel) g.book) sequel
            (Some self.new) }
    {
        match self {
            Site::Up(book) => ask(book, call, now),
            Site::Down(_) => {}
        }
    }

    /// Its book takes a datagram.
    pub fn take(&mut self, from: Addr, request: &Prepared<'_>, now: Moment) -> Outcome
        ensures { (setup : SetupValue) (place : ℕ) (g : Gateway) (m : MachineValue) → g.is_down ≡ false →
            SiteStands setup place g m (Some self.old) →
            let sequel = ready_sequel_of m.armed m.at_last g.book in
            let fortune = fortune_by m.at_last sequel in
            let left = taken fortune from (prepared_of request.now) setup.size now no_caller g.book in
            SiteIsCalled setup place left.value sequel (Some self.new) × (result ≡ left.answer) }
    {
        match self {
            Site::Up(book) => take(book, from, request, now),
            Site::Down(_) => Outcome::Drop(Why::Device),
        }
    }

    /// At most so many items of its firm entries, from this one on.
    pub fn items(&mut self, alloc: Global, from: u64, most: u32) -> Result<Vec<Item>, NoMemory>
        requires { from < 2 ^ 31 }
        ensures items { (setup : SetupValue) (place : ℕ) (g : Gateway) (m : MachineValue) → g.is_down ≡ false →
            SiteStands setup place g m (Some self.old) → IfOk result (λ items.
            IsPart from most (items_of g.book.firm) items.items × SiteStands setup place g m (Some self.new)) }
        ensures short { IfOk result (λ items. length items.items ≤ most) }
        ensures few { IfOk result (λ items. from + length items.items < 2 ^ 31) }
        ensures fit { IfOk result (λ items. All IsFit items.items) }
    {
        match self {
            Site::Up(book) => items_from(alloc, book, from, most),
            Site::Down(_) => Ok(Vec::new(alloc)),
        }
    }
}

/// The book of a gateway that was down, or its area again.
pub(crate) fn reopened(alloc: Global, fallen: Fallen, setup: Setup) -> (Site, Result<(), NoMemory>)
    ensures { (s : SetupValue) (place : ℕ) (g : Gateway) (m : MachineValue) →
        StandsDown s place g m area_tells fallen.area →
        setup ≡ record { address = (gateway_address place).ip; open_time = s.limits.open_time } →
        OnOk result.1 (SiteIsOpened s place g (Some result.0)) }
{
    what_stands_is_ours();
    what_a_gateway_leaves::<MemoryArea>();
    match Book::open(alloc, fallen.area, setup) {
        Ok(book) => (Site::Up(book), Ok(())),
        Err((fault, area)) => (Site::Down(Fallen { area }), refused(fault)),
    }
}

/// An opening that was refused, unless there was no memory.
fn refused(fault: BookFault) -> Result<(), NoMemory>
    ensures { OnOk result (is_memory_fault fault ≡ false) }
{
    match fault {
        BookFault::NoMemory => Err(NoMemory),
        BookFault::Device | BookFault::NotOurs { .. } => Ok(()),
    }
}

/// A book that is opened on an empty area of so many octets, from 100 to 268,435,456, whose Start is firm.
pub(crate) fn opened(alloc: Global, setup: Setup, size: u64) -> Result<Book<MemoryArea>, NoMemory>
    requires long { 100 ≤ size }
    requires short { size ≤ 268435456 }
    ensures { (s : SetupValue) (place : ℕ) → setup ≡ record {
      address = (gateway_address place).ip;
      open_time = s.limits.open_time;
    } → size ≡ s.size → IfOk result
        (StandsUp s place (first_gateway (rules_in s)) first_machine) }
{
    let mut book = begun(alloc, setup, size)?;
    commit(&mut book);
    Ok(book)
}

/// The same, whose Start isn't firm yet.
fn begun(alloc: Global, setup: Setup, size: u64) -> Result<Book<MemoryArea>, NoMemory>
    requires long { 100 ≤ size }
    requires short { size ≤ 268435456 }
    ensures { (s : SetupValue) (place : ℕ) → setup ≡ record {
      address = (gateway_address place).ip;
      open_time = s.limits.open_time;
    } → size ≡ s.size → IfOk result
        (StandsUp s place (begun_gateway s) first_machine) }
{
    arms_nothing();
    what_stands_is_ours();
    what_a_gateway_leaves::<MemoryArea>();
    let plan = calm(alloc);
    let Ok(area) = MemoryArea::new(alloc, size, plan) else {
        return Err(NoMemory);
    };
    match Book::open(alloc, area, setup) {
        Ok(book) => Ok(book),
        Err((BookFault::NoMemory, _)) => Err(NoMemory),
        Err((BookFault::Device, _)) => unreachable!(),
        Err((BookFault::NotOurs { .. }, _)) => unreachable!(),
    }
}

/// The area of a gateway that is somewhere.
pub(crate) fn area_of(site: Option<Site>) -> Option<MemoryArea>
    ensures { (setup : SetupValue) (place : ℕ) (g : Gateway) (m : MachineValue) → SiteStands setup place g m site →
        MatchOption result ⊥ (IsAreaOf setup place g) }
{
    match site {
        Some(Site::Up(book)) => Some(book.into_area()),
        Some(Site::Down(fallen)) => Some(fallen.area),
        None => None,
    }
}
