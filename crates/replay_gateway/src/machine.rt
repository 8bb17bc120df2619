// A gateway as it runs: its book on an area, the writer of its files on a shelf, and the answers that wait.
ghost use Rattle.std.specs.Prelude.{◌≡◌, ◌≤◌, ℕ, [], IfOk, List, MatchOption, None, Ok, OnOk, Some, false, true};
ghost use Rattle.area_disk.specs.Armed.{Armed};
ghost use Rattle.file_writer.specs.Streams.{Settings as FileSettings};
ghost use Rattle.gateway_book.specs.Up.{HoldsHistory};
ghost use Rattle.gw_base.specs.declared.item.Item.{Item};
ghost use Rattle.gw_base.specs.declared.history.HistoryEntry.{HistoryEntry};
ghost use Rattle.once_core.specs.Beginning.{first_gateway};
ghost use Rattle.once_core.specs.Gateway.{Gateway, cut, opened};
ghost use Rattle.replay_gateway.specs.Called.{SiteIsDown, book_in};
ghost use Rattle.replay_gateway.specs.Opening.{ArmsAs, IsOpenedForCounts};
ghost use Rattle.replay_gateway.specs.HandedOut.{IsHandedOut};
ghost use Rattle.replay_gateway.specs.Settings.{AreSet, AreSound};
ghost use Rattle.replay_gateway.specs.Setup.{Setup as SetupValue, rules_in};
ghost use Rattle.replay_gateway.specs.Standing.{MachineStands, area_tells, header_at};
ghost use Rattle.replay_gateway.specs.Machine.{Filing, Machine as MachineValue, disarmed, ended, first_machine, shelf_armed, unarmed};
ghost use Rattle.replay_gateway.specs.Written.{FilesStand};
ghost use Rattle.replay_gateway.specs.declared.site.Site.TheVariants.{Up};

use crate::fallen::Fallen;
use crate::files::Files;
use crate::plans::calm;
use crate::settings::Settings;
use crate::site::{Site, area_of, opened, reopened};
use crate::writing::what_was_written_stays;
use area_disk::laws::arms_nothing;
use area_disk::{Drill, MemoryArea, Outcome3, Plan};
use cdr_shelf::MemoryShelf;
use file_writer::Writer;
use gateway_answer::laws::filed_records_stay;
use gateway_book::laws::what_a_gateway_leaves;
use gateway_book::{Book, Setup};
use gw_base::NoMemory;
use once_core::{Message, Waiting, gateway_address};
use route_filter::Rules;
use std::alloc::Global;

/// What the area made of a call.
#[derive(Clone, Copy, PartialEq, Eq)]
pub enum Came {
    /// It went on.
    Went,
    /// The area failed, and the book is broken.
    Failed,
    /// The area stopped, and the gateway is down.
    Stopped,
}

/// What a call made of a gateway: what the area made of it, and the messages that it sent.
#[derive(Drop)]
pub struct Sent {
    pub came: Came,
    pub messages: Vec<Message>,
}

/// A gateway: up, with its book, or down, with its area alone; the writer of its files; and the answers that wait.
#[derive(Drop)]
pub struct Machine {
    pub(crate) setup: Setup,
    /// Where it is: between two calls always somewhere.
    pub(crate) site: Option<Site>,
    pub(crate) files: Files,
    /// The answers that wait for entries to be firm.
    pub(crate) waiting: Vec<Waiting>,
    /// How often it has redirected since it was opened, modulo 65,536.
    pub(crate) redirects: u16,
}

impl Machine {
    /// A gateway in this place, from 0, that is opened on an empty area, whose Start is firm. `NoMemory`: there was no
    /// memory for it.
    pub fn new(
        alloc: Global,
        place: u8,
        settings: &Settings,
        rules: Rules,
    ) -> Result<Machine, NoMemory>
        requires { AreSound settings.now }
        ensures { (setup : SetupValue) → AreSet setup settings.now → setup.rules ≡ rules →
            IfOk result (MachineStands setup place
            (first_gateway (rules_in setup)) first_machine) }
    {
        let setup = Setup {
            address: gateway_address(place).ip,
            open_time: settings.limits.open_time,
        };
        let address = setup.address;
        let book = opened(alloc, setup, settings.size)?;
        arms_nothing();
        let plan = calm(alloc);
        let Ok(shelf) = MemoryShelf::new(alloc, plan) else {
            return Err(NoMemory);
        };
        let writer = Writer::new(
            shelf,
            rules,
            settings.limits,
            settings.offset,
            address,
            settings.profile,
        );
        let files = Files::new(writer);
        Ok(Machine {
            setup,
            site: Some(Site::Up(book)),
            files,
            waiting: Vec::new(alloc),
            redirects: 0,
        })
    }

    /// Whether it is down.
    pub fn is_down(&self) -> bool
        ensures { (setup : SetupValue) (place : ℕ) (g : Gateway) (m : MachineValue) →
            MachineStands setup place g m self.now → result ≡ g.is_down }
    {
        match &self.site {
            Some(Site::Up(_)) => false,
            _ => true,
        }
    }

    /// Arms this for the calls of its area, of one that is up.
    pub fn arm(&mut self, plan: Plan)
        ensures { (setup : SetupValue) (place : ℕ) (g : Gateway) (m : MachineValue) (armed : Armed) →
            ArmsAs armed plan →
            g.is_down ≡ false →
            MachineStands setup place g m self.old →
            MachineStands setup place g (record m { armed = armed })
            self.new }
    {
        if let Some(site) = &mut self.site {
            site.arm(plan);
        }
    }

    /// Arms this for the calls of its shelf, of one that is up.
    pub fn arm_shelf(&mut self, plan: Plan)
        ensures { (setup : SetupValue) (place : ℕ) (g : Gateway) (m : MachineValue) (armed : Armed) →
            ArmsAs armed plan → g.is_down ≡ false →
            MachineStands setup place g m self.old →
            MachineStands setup place g (shelf_armed armed m) self.new }
    {
        self.files.arm(plan);
    }

    /// Nothing is armed for the calls of its area and of its shelf any more; of one that is down nothing is.
    pub fn disarm(&mut self, alloc: Global)
        ensures { (setup : SetupValue) (place : ℕ) (g : Gateway) (m : MachineValue) →
            MachineStands setup place g m self.old →
            MachineStands setup place g (unarmed m) self.new }
    {
        if self.is_down() {
            return;
        }
        self.arm(calm(alloc));
        self.arm_shelf(calm(alloc));
    }

    /// Stops it between two calls: it keeps what is firm. One that is down is left as it is.
    pub fn stop(&mut self, alloc: Global)
        ensures stops { (setup : SetupValue) (place : ℕ) (g : Gateway) (m : MachineValue) →
            MachineStands setup place g m self.old →
            g.is_down ≡ false → MachineStands setup place
            (cut 0 g) (disarmed m) self.new }
        ensures down { (setup : SetupValue) (place : ℕ) (g : Gateway) (m : MachineValue) →
            MachineStands setup place g m self.old → g.is_down ≡ true → self.new ≡ self.old }
    {
        what_a_gateway_leaves::<MemoryArea>();
        let Some(book) = self.take_book() else {
            return;
        };
        let mut area = book.into_area();
        area.stop(Outcome3::Old);
        self.leave(alloc, area);
    }

    // It is down, with this area; nothing is armed, no answer waits, and the writer of its files has to recover.
    pub(crate) fn leave(&mut self, alloc: Global, area: MemoryArea)
        requires long { 100 ≤ area_tells.size area }
        requires short { area_tells.size area ≤ 268435456 }
        ensures down { (setup : SetupValue) (place : ℕ) (h : List HistoryEntry) →
            HoldsHistory area_tells (header_at setup place) h area → area_tells.size area ≡ setup.size →
            SiteIsDown setup place h self.new.site }
        ensures none { self.new.waiting.items ≡ [] }
        ensures files { (settings : FileSettings) (f : Filing) (items : List Item) →
            FilesStand settings f items self.old.files → FilesStand settings (ended f) items self.new.files }
        ensures rest { self.new ≡
            record self.old { site = self.new.site; waiting = self.new.waiting; files = self.new.files } }
    {
        arms_nothing();
        let mut area = area;
        area.revive();
        area.arm(calm(alloc));
        self.site = Some(Site::Down(Fallen { area }));
        self.waiting.clear();
        self.files.end(alloc);
    }

    /// Opens it again. One that is up is left as it is. `NoMemory`: there was no memory for that, and it is down still.
    pub fn open(&mut self, alloc: Global) -> Result<(), NoMemory>
        ensures opens { (setup : SetupValue) (place : ℕ) (g : Gateway) (m : MachineValue) →
            MachineStands setup place g m self.old →
            g.is_down ≡ true → OnOk result (MachineStands setup place
            (opened (rules_in setup) g) m self.new) }
        ensures up { (setup : SetupValue) (place : ℕ) (g : Gateway) (m : MachineValue) →
            MachineStands setup place g m self.old → g.is_down ≡ false → (result ≡ Ok tt) × (self.new ≡ self.old) }
    {
        if !self.is_down() {
            return Ok(());
        }
        filed_records_stay();
        what_was_written_stays();
        self.open_book(alloc)?;
        self.redirects = 0;
        Ok(())
    }

    /// Opens the book of one that is down.
    pub(crate) fn open_book(&mut self, alloc: Global) -> Result<(), NoMemory>
        ensures { (setup : SetupValue) (place : ℕ) (g : Gateway) (m : MachineValue) →
            MachineStands setup place g m self.old →
            g.is_down ≡ true → OnOk result (IsOpenedForCounts setup place g self.old self.new) }
    {
        let fallen = match self.site.take() {
            Some(Site::Down(fallen)) => fallen,
            other => {
                self.site = other;
                return Ok(());
            }
        };
        let (site, opened) = reopened(alloc, fallen, self.setup);
        self.site = Some(site);
        opened
    }

    /// Closes the book again, with nothing but what is firm.
    pub(crate) fn close_book(&mut self)
        ensures { (setup : SetupValue) (place : ℕ) (g : Gateway) (m : MachineValue) (before : Machine) →
            MachineStands setup place g m before → g.is_down ≡ true →
            IsOpenedForCounts setup place g before self.old →
            MachineStands setup place g m self.new }
    {
        let Some(book) = self.take_book() else {
            return;
        };
        let area = book.into_area();
        self.site = Some(Site::Down(Fallen { area }));
    }

    // Takes out the book of one that is up. One that is down is left as it is.
    pub(crate) fn take_book(&mut self) -> Option<Book<MemoryArea>>
        ensures { MatchOption result ((book_in self.old.site ≡ None) × (self.new ≡ self.old))
            (λ book. (self.old.site ≡ Some (Up book)) × (self.new ≡ record self.old { site = None })) }
    {
        match self.site.take() {
            Some(Site::Up(book)) => Some(book),
            other => {
                self.site = other;
                None
            }
        }
    }

    /// Its area and its shelf, as they are.
    pub fn into_parts(self) -> (Option<MemoryArea>, MemoryShelf)
        ensures { (setup : SetupValue) (place : ℕ) (g : Gateway) (m : MachineValue) →
            MachineStands setup place g m self →
            MatchOption result.0 ⊥ (λ area. IsHandedOut setup place g m area result.1) }
    {
        let Machine {
            setup: _,
            site,
            files,
            waiting: _,
            redirects: _,
        } = self;
        (area_of(site), files.writer.into_shelf())
    }
}
