// A gateway of a world, as plain lists.
ghost use Rattle.std.specs.Prelude.{◌≡◌, [], ◌||◌, false, true, IfOk, OnOk};
ghost use Rattle.gateway_answer.specs.Value.{is_batch_full};
ghost use Rattle.once_core.specs.HistoryKept.{is_kept_act};

use crate::due::{joined, parted};
use crate::message::{Message, Waiting};
use crate::room::{SIZE, first_moment, is_rest_full};
use gateway_answer::has_room;
use gw_base::{Act, Caller, HistoryAct, HistoryEntry, Moment, NoMemory, scan};
use std::alloc::Global;
use std::marker::Model;
use std::mem;

/// A gateway of a world. Its journal never fails.
#[derive(Drop)]
pub struct KeptGateway {
    pub(crate) history: Vec<HistoryEntry>,
    /// How many of its entries are firm.
    pub(crate) firm: usize,
    /// The answers that wait, in their order.
    pub(crate) waiting: Vec<Waiting>,
    pub(crate) is_down: bool,
    /// How often it has redirected since it was opened, modulo 65,536.
    pub(crate) redirects: u16,
}

impl Model for KeptGateway {
    ghost use Rattle.once_core.specs.Gateway.{Gateway};

    ghost Value = { Gateway };

    ghost use Rattle.once_core.specs.GatewayFields.{IsSoundGateway, gateway_value};

    ghost view = { gateway_value };

    ghost invariant = { IsSoundGateway };
}

impl KeptGateway {
    ghost use Rattle.once_core.specs.Beginning.{default_rules, first_gateway};
    ghost use Rattle.once_core.specs.Gateway.{committing, cut, opened, readying, settling};
    ghost use Rattle.once_core.specs.Moves.{HasMoved, once_started, with_entry};
    ghost use Rattle.once_core.specs.Standing.{quiet};

    /// The entries that every crash leaves.
    pub fn firm(&self) -> &[HistoryEntry]
        ensures { result.now ≡ self.now.book.firm }
    {
        let (firm, _) = self.history.split_at(self.firm);
        firm
    }

    /// The entries that wait for a commit.
    pub fn rest(&self) -> &[HistoryEntry]
        ensures { result.now ≡ self.now.book.rest }
    {
        let (_, rest) = self.history.split_at(self.firm);
        rest
    }

    /// A gateway that was opened on an empty journal, and its Start committed.
    pub(crate) fn new(alloc: Global) -> Result<KeptGateway, NoMemory>
        ensures { IfOk result (λ gateway. gateway ≡ first_gateway default_rules) }
    {
        let mut gateway = KeptGateway {
            history: Vec::new(alloc),
            firm: 0,
            waiting: Vec::new(alloc),
            is_down: false,
            redirects: 0,
        };
        gateway.start(alloc)?;
        gateway.firm = gateway.history.len();
        Ok(gateway)
    }

    /// One more entry, which waits.
    pub(crate) fn record(&mut self, now: Moment, act: HistoryAct) -> Result<(), NoMemory>
        requires { is_kept_act act ≡ true }
        ensures { OnOk result (self.new ≡ with_entry now act self.old) }
    {
        let moment = scan::moment_after(&self.history, now);
        self.history.push(HistoryEntry {
            moment,
            caller: Caller::NONE,
            act,
        })?;
        Ok(())
    }

    /// A Start, where there is room for it.
    fn start(&mut self, alloc: Global) -> Result<(), NoMemory>
        ensures { OnOk result (self.new ≡ once_started self.old) }
    {
        if has_room(alloc, &self.history, &Act::Start, SIZE)? {
            self.record(first_moment(), HistoryAct::Start)?;
        }
        Ok(())
    }

    /// Sends the answers whose front is firm, in their order.
    pub(crate) fn settle(&mut self, alloc: Global, sends: &mut Vec<Message>) -> Result<(), NoMemory>
        ensures { OnOk result (HasMoved (settling self.old) self.new sends.old.items sends.new.items) }
    {
        let waiting = mem::replace(&mut self.waiting, Vec::new(alloc));
        let (due, later) = parted(alloc, self.firm as u64, waiting)?;
        self.waiting = later;
        let before = mem::replace(sends, Vec::new(alloc));
        *sends = joined(before, due)?;
        Ok(())
    }

    /// Makes the whole history firm.
    pub(crate) fn commit(&mut self, alloc: Global, sends: &mut Vec<Message>) -> Result<(), NoMemory>
        ensures { OnOk result (HasMoved (committing quiet self.old) self.new sends.old.items sends.new.items) }
    {
        self.firm = self.history.len();
        self.settle(alloc, sends)
    }

    /// Commits where the batch is full.
    pub(crate) fn ready(&mut self, alloc: Global, sends: &mut Vec<Message>) -> Result<(), NoMemory>
        ensures { OnOk result (HasMoved (readying default_rules quiet self.old) self.new sends.old.items
            sends.new.items) }
    {
        if self.is_full() {
            self.commit(alloc, sends)
        } else {
            Ok(())
        }
    }

    /// Whether the entries that wait fill their batch.
    fn is_full(&self) -> bool
        ensures { result ≡ (self.now.book.is_broken || is_batch_full self.now.book) }
    {
        let (_, rest) = self.history.split_at(self.firm);
        is_rest_full(rest)
    }

    /// Whether it is stopped.
    pub(crate) fn is_down(&self) -> bool
        ensures { result ≡ self.now.is_down }
    {
        self.is_down
    }

    /// Stops: so many entries are left, and the firm ones in any case.
    pub(crate) fn cut(&mut self, keep: u64)
        ensures { self.new ≡ cut keep self.old }
    {
        let all = self.history.len();
        let left = self.firm.max(keep.min(all as u64) as usize);
        self.history.truncate(left);
        give_up(&mut self.waiting);
        self.is_down = true;
    }

    /// Begins to run again.
    pub(crate) fn open(&mut self, alloc: Global) -> Result<(), NoMemory>
        ensures { OnOk result (self.new ≡ opened default_rules self.old) }
    {
        self.firm = self.history.len();
        self.waiting = Vec::new(alloc);
        self.is_down = false;
        self.redirects = 0;
        self.start(alloc)
    }
}

/// Gives up all answers.
fn give_up(answers: &mut Vec<Waiting>)
    ensures { answers.new.items ≡ [] }
{
    answers.clear();
}
