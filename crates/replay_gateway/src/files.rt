// The writer of a gateway's files, which goes on behind the items that it has taken.
ghost use Rattle.std.specs.Prelude.{◌≡◌, ◌+◌, ◌<◌, ◌^◌, ℕ, All, IfOk, IfSome, List, None, Some, drop, false, length};
ghost use Rattle.std.proofs.Props.{props};
ghost use Rattle.file_writer.specs.AllStreams.{IsFit};
ghost use Rattle.file_writer.specs.Streams.{Settings};
ghost use Rattle.file_writer.specs.Writer.{is_broken, shelf_of, taken_of};
ghost use Rattle.file_writer.specs.declared.fault.ShelfFault.{ShelfFault};
ghost use Rattle.gw_base.specs.declared.item.Item.{Item as ItemValue};

use crate::plans::calm;
use crate::site::Site;
use crate::writing::give_all;
use area_disk::Plan;
use area_disk::laws::{arms_fail, arms_nothing, arms_stop};
use cdr_shelf::MemoryShelf;
use file_writer::laws::{
    calls_seal_files_of_streams, first_files_are_counted, open_files_go_on,
    sealed_files_get_no_call, shut_streams_come_to_open_files,
};
use file_writer::{ShelfFault, Writer};
use gw_base::{Item, NoMemory};
use std::alloc::Global;

/// What came of a write.
#[derive(Clone, Copy)]
pub enum Wrote {
    /// All items were written.
    All,
    /// The shelf failed, and the writer has to recover.
    Failed,
    /// The shelf stopped, and runs again. The gateway is up still: who asked for the write stops it.
    Stopped,
}

/// A writer, and how many items it has taken since it recovered; none where it has to recover first.
#[derive(Drop)]
pub(crate) struct Files {
    pub writer: Writer<MemoryShelf>,
    pub taken: Option<u64>,
    ghost ready: { IfSome taken (λ n. is_broken writer ≡ false) } by { Prim.hlevel props },
    ghost counted: { IfSome taken (λ n. (taken_of writer ≡ n) × (n < 2 ^ 31)) } by { Prim.hlevel props },
}

impl Files {
    ghost use Rattle.area_disk.specs.Armed.{Armed};
    ghost use Rattle.gateway_answer.specs.Items.{items_of};
    ghost use Rattle.once_core.specs.Gateway.{Gateway};
    ghost use Rattle.replay_gateway.specs.Opening.{ArmsAs};
    ghost use Rattle.replay_gateway.specs.Setup.{Setup};
    ghost use Rattle.replay_gateway.specs.Standing.{SiteStands};
    ghost use Rattle.replay_gateway.specs.Machine.{Filing, Machine, resting};
    ghost use Rattle.replay_gateway.specs.Written.{BreaksOff, FilesStand, HasWritten, ShelfHolds, shelf_tells};

    /// Those of a writer that hasn't recovered yet.
    pub fn new(writer: Writer<MemoryShelf>) -> Files
        ensures is { result.writer ≡ writer }
        ensures begins { result.taken ≡ None }
    {
        Files {
            writer,
            taken: None,
        }
    }

    /// This is armed for the calls of its shelf.
    pub fn arm(&mut self, plan: Plan)
        ensures { (settings : Settings) (armed : Armed) (f : Filing) (items : List ItemValue) →
            ArmsAs armed plan → FilesStand settings f items self.old →
            FilesStand settings (record f { armed = armed }) items self.new }
    {
        arms_nothing();
        arms_fail();
        arms_stop();
        self.writer.arm(plan);
    }

    /// Its gateway stops: nothing is armed for its shelf, which runs, and the writer has to recover.
    pub fn end(&mut self, alloc: Global)
        ensures { (settings : Settings) (sealed : ℕ → ℕ) (items : List ItemValue) →
            (shelf_tells.plan (shelf_of self.old.writer)).stopped ≡ false →
            ShelfHolds shelf_tells settings sealed items self.old.writer →
            FilesStand settings (resting sealed) items self.new }
    {
        arms_nothing();
        self.taken = None;
        self.writer.arm(calm(alloc));
    }

    /// It takes these items, which are those behind the items that it has taken, of which there are so many.
    pub fn go_on(&mut self, alloc: Global, taken: u64, items: &[Item]) -> Result<Wrote, NoMemory>
        requires taken { self.old.taken ≡ Some taken }
        requires few { taken + length items.now < 2 ^ 31 }
        requires fit { All IsFit items.now }
        ensures { (settings : Settings) (f : Filing) (all : List ItemValue) →
            FilesStand settings f all self.old → items.now ≡ drop taken all →
            IfOk result (λ wrote. HasWritten settings all f wrote self.new) }
    {
        calls_seal_files_of_streams();
        sealed_files_get_no_call();
        open_files_go_on();
        self.taken = None;
        match self.writer.advance(items) {
            Ok(_taken) => {
                self.taken = Some(taken + items.len() as u64);
                Ok(Wrote::All)
            }
            Err(fault) => self.broken(alloc, fault),
        }
    }

    /// A writer that has to recover does so, and takes all items of a site's gateway, from the first. After `Failed`,
    /// `Stopped` and `NoMemory` it has to recover again.
    pub fn begin(&mut self, alloc: Global, site: &mut Site) -> Result<Wrote, NoMemory>
        requires taken { self.old.taken ≡ None }
        ensures { (setup : Setup) (place : ℕ) (g : Gateway) (m : Machine) (settings : Settings) (f : Filing) →
            g.is_down ≡ false → SiteStands setup place g m (Some site.old) →
            FilesStand settings f (items_of g.book.firm) self.old → IfOk result (λ wrote.
            HasWritten settings (items_of g.book.firm) f wrote self.new
            × SiteStands setup place g m (Some site.new)) }
    {
        first_files_are_counted();
        calls_seal_files_of_streams();
        sealed_files_get_no_call();
        shut_streams_come_to_open_files();
        match self.writer.recover() {
            Ok(()) => {}
            // No read is planned to fail.
            Err(fault) => return self.broken(alloc, fault),
        }
        match give_all(alloc, site, &mut self.writer)? {
            Ok(taken) => {
                self.taken = Some(taken);
                Ok(Wrote::All)
            }
            Err(fault) => self.broken(alloc, fault),
        }
    }

    // What came of a write that had this fault. A shelf that stopped goes on for the gateway that is opened next, and
    // nothing is armed for it.
    fn broken(&mut self, alloc: Global, fault: ShelfFault) -> Result<Wrote, NoMemory>
        ensures { IfOk result (λ wrote. BreaksOff fault self.old wrote self.new) }
    {
        match fault {
            ShelfFault::NoMemory => return Err(NoMemory),
            ShelfFault::Device => {}
        }
        if !self.writer.stopped() {
            return Ok(Wrote::Failed);
        }
        self.writer.revive();
        self.end(alloc);
        Ok(Wrote::Stopped)
    }
}
