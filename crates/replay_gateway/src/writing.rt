// What a gateway gives the writer of its files.
ghost use Rattle.std.specs.Prelude.{◌≡◌, ◌+◌, ◌++◌, ◌<◌, ◌≤◌, ◌^◌, ℕ, [], All, IfOk, List, None, Some, drop, false, length};
ghost use Rattle.file_writer.specs.AllStreams.{IsFit};
ghost use Rattle.file_writer.specs.Streams.{Settings};
ghost use Rattle.file_writer.specs.Writer.{IsAt, is_broken, settings_in, taken_of};
ghost use Rattle.gateway_answer.specs.Items.{items_of};
ghost use Rattle.gw_base.specs.declared.item.Item.{Item as ItemValue};
ghost use Rattle.once_core.specs.Gateway.{Gateway};
ghost use Rattle.replay_gateway.specs.Parts.{IsGivenAll, IsPart};
ghost use Rattle.replay_gateway.specs.Setup.{Setup};
ghost use Rattle.replay_gateway.specs.Standing.{MachineStands, SiteStands, StandsUp};
ghost use Rattle.replay_gateway.specs.Machine.{Filing, Machine as MachineValue};
ghost use Rattle.replay_gateway.specs.WritingFiles.{WritesFiles};
ghost use Rattle.replay_gateway.specs.Written.{FilesStand};
ghost use Rattle.replay_gateway.specs.declared.files.Files.{Files as FilesValue};

use crate::files::Wrote;
use crate::machine::Machine;
use crate::site::Site;
use area_disk::MemoryArea;
use cdr_shelf::MemoryShelf;
use file_writer::laws::{begun_files_only_grow, files_only_grow, parts_go_as_one};
use file_writer::{ShelfFault, Writer};
use gateway_book::laws::{a_book_is_within_the_limits, a_gateway_stays_up_as_it_is_read};
use gateway_book::{Book, ItemsFault};
use gw_base::{Item, NoMemory};
use std::alloc::Global;

/// More items change nothing of what was written.
pub(crate) fn what_was_written_stays()
    ensures { (settings : Settings) (f : Filing) (items more : List ItemValue) (r : FilesValue) →
        FilesStand settings f items r → FilesStand settings f (items ++ more) r }
{
    files_only_grow();
    begun_files_only_grow();
}

impl Machine {
    /// Gives the writer the items of the firm entries that it doesn't have yet, of one that is up. It is up still where
    /// its shelf stopped. `NoMemory`: there was no memory for that, and a part may be written.
    pub fn write(&mut self, alloc: Global) -> Result<Wrote, NoMemory>
        ensures { (setup : Setup) (place : ℕ) (g : Gateway) (m : MachineValue) →
            MachineStands setup place g m self.old → g.is_down ≡ false →
            IfOk result (λ wrote. WritesFiles setup place g m wrote self.new) }
    {
        match self.files.taken {
            Some(taken) => self.write_on(alloc, taken),
            None => self.write_anew(alloc),
        }
    }

    // The same of a writer that has taken so many items.
    fn write_on(&mut self, alloc: Global, taken: u64) -> Result<Wrote, NoMemory>
        requires { self.old.files.taken ≡ Some taken }
        ensures { (setup : Setup) (place : ℕ) (g : Gateway) (m : MachineValue) →
            MachineStands setup place g m self.old → g.is_down ≡ false →
            IfOk result (λ wrote. WritesFiles setup place g m wrote self.new) }
    {
        let later = self.firm_items(alloc, taken)?;
        self.files.go_on(alloc, taken, &later)
    }

    // The same of one that has to recover first.
    fn write_anew(&mut self, alloc: Global) -> Result<Wrote, NoMemory>
        requires { self.old.files.taken ≡ None }
        ensures { (setup : Setup) (place : ℕ) (g : Gateway) (m : MachineValue) →
            MachineStands setup place g m self.old → g.is_down ≡ false →
            IfOk result (λ wrote. WritesFiles setup place g m wrote self.new) }
    {
        match &mut self.site {
            Some(site) => self.files.begin(alloc, site),
            None => Ok(Wrote::All),
        }
    }

    // The items of the firm entries from this one on.
    pub(crate) fn firm_items(&mut self, alloc: Global, from: u64) -> Result<Vec<Item>, NoMemory>
        requires { from < 2 ^ 31 }
        ensures items { (setup : Setup) (place : ℕ) (g : Gateway) (m : MachineValue) →
            SiteStands setup place g m self.old.site → g.is_down ≡ false → IfOk result (λ items.
            (items.items ≡ drop from (items_of g.book.firm)) × SiteStands setup place g m self.new.site) }
        ensures rest { self.new ≡ record self.old { site = self.new.site } }
        ensures few { IfOk result (λ items. from + length items.items < 2 ^ 31) }
        ensures fit { IfOk result (λ items. All IsFit items.items) }
    {
        match &mut self.site {
            Some(site) => site.items(alloc, from, u32::MAX),
            None => Ok(Vec::new(alloc)),
        }
    }
}

/// At most so many items of the firm entries of a book, from this one on; it is read for them.
pub(crate) fn items_from(
    alloc: Global,
    book: &mut Book<MemoryArea>,
    from: u64,
    most: u32,
) -> Result<Vec<Item>, NoMemory>
    requires { from < 2 ^ 31 }
    ensures items { (setup : Setup) (place : ℕ) (g : Gateway) (m : MachineValue) → StandsUp setup place g m book.old →
        IfOk result (λ items.
        IsPart from most (items_of g.book.firm) items.items × StandsUp setup place g m book.new) }
    ensures short { IfOk result (λ items. length items.items ≤ most) }
    ensures few { IfOk result (λ items. from + length items.items < 2 ^ 31) }
    ensures fit { IfOk result (λ items. All IsFit items.items) }
{
    a_gateway_stays_up_as_it_is_read::<MemoryArea>();
    a_book_is_within_the_limits::<MemoryArea>();
    match book.items(alloc, from, most) {
        Ok(items) => Ok(items),
        Err(ItemsFault::NoMemory) => Err(NoMemory),
        // No read is planned to fail.
        Err(ItemsFault::Device) => Ok(Vec::new(alloc)),
    }
}

/// How many items a writer is given at once. They stay near the processor until it has taken them.
const PART: u32 = 64;

/// Gives a writer that recovered all items of a site's gateway, and says how many it has taken. The inner error is the
/// writer's, which is broken then. The outer one is that there was no memory to read the items.
pub(crate) fn give_all(
    alloc: Global,
    site: &mut Site,
    writer: &mut Writer<MemoryShelf>,
) -> Result<Result<u64, ShelfFault>, NoMemory>
    requires ready { is_broken writer.old ≡ false }
    requires none { taken_of writer.old ≡ 0 }
    ensures given { (setup : Setup) (place : ℕ) (g : Gateway) (m : MachineValue) → g.is_down ≡ false →
        SiteStands setup place g m (Some site.old) → IsAt writer.old (λ s. 0) [] → IfOk result (λ given.
        IsGivenAll (items_of g.book.firm) writer.old writer.new given × SiteStands setup place g m (Some site.new)) }
    ensures settings { settings_in writer.new ≡ settings_in writer.old }
    ensures count { IfOk result (λ given. IfOk given (λ n. (taken_of writer.new ≡ n) × (n < 2 ^ 31))) }
    ensures ready { IfOk result (λ given. IfOk given (λ n. is_broken writer.new ≡ false)) }
{
    parts_go_as_one::<MemoryShelf>();
    let mut taken = 0;
    let mut count = PART;
    while count == PART {
        let items = site.items(alloc, taken, PART)?;
        match writer.advance(&items) {
            Ok(_) => {}
            Err(fault) => return Ok(Err(fault)),
        }
        count = items.len() as u32;
        taken += u64::from(count);
    }
    Ok(Ok(taken))
}
