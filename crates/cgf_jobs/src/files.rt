//! The CDR files of a feed.
ghost use Rattle.std.specs.Prelude.{◌≡◌, ◌<◌, ℕ, [], IfOk, OnOk, false, length};
ghost use Rattle.cdr_shelf.specs.Files.{in_stream};
ghost use Rattle.file_writer.specs.Files.{stream_files};
ghost use Rattle.file_writer.specs.Parts.{HasAdvanced};
ghost use Rattle.file_writer.specs.Streams.{stream_count};
ghost use Rattle.file_writer.specs.Writer.{IsAt, is_broken, settings_in, taken_of};
ghost use Rattle.gateway_answer.specs.Filed.{filed};
ghost use Rattle.gateway_answer.specs.Items.{items_of};
ghost use Rattle.replay_gateway.specs.Settings.{AreSound};
ghost use Rattle.replay_gateway.specs.Setup.{files_in};
ghost use Rattle.cgf_jobs.specs.Steps.{setup_seen};

use crate::gateway::{GATEWAY, Gateway};
use cdr_shelf::{QuietShelf, Shelf};
use file_writer::laws::parts_go_as_one;
use file_writer::{ShelfFault, Writer};
use gateway_answer::laws::a_history_filed_its_parts;
use gateway_book::record_count;
use gw_base::NoMemory;
use replay_gateway::Settings;
use route_filter::Rules;
use std::alloc::Global;

/// How many items a writer is given at once. They stay near the processor until it has taken them, and the entry of a
/// long release isn't read for each few of its items.
const PART: u32 = 4096;

/// A shelf with the sealed files of a gateway's items, and how many records these have.
pub fn write_files(
    alloc: Global,
    settings: Settings,
    rules: Rules,
    gateway: &mut Gateway,
) -> Result<(QuietShelf, usize), NoMemory>
    requires sound { AreSound settings }
    ensures files { IfOk result (λ made. (s : ℕ) → s < stream_count →
        in_stream s (⟦<QuietShelf as Shelf>⟧.files made.0)
        ≡ stream_files (files_in (setup_seen settings rules) 0) s (items_of gateway.old.history)) }
    ensures records { IfOk result (λ made. made.1 ≡ length (filed gateway.old.history)) }
    ensures same { gateway.new ≡ gateway.old }
{
    let shelf = QuietShelf::new(alloc);
    let mut writer = Writer::new(
        shelf,
        rules,
        settings.limits,
        settings.offset,
        GATEWAY,
        settings.profile,
    );
    match writer.recover() {
        Ok(()) => {}
        Err(ShelfFault::NoMemory) => return Err(NoMemory),
        Err(ShelfFault::Device) => unreachable!(),
    }
    let records = give_all(alloc, gateway, &mut writer)?;
    Ok((writer.into_shelf(), records))
}

/// Gives a writer that recovered all items of a gateway, and says how many records these have.
fn give_all(
    alloc: Global,
    gateway: &mut Gateway,
    writer: &mut Writer<QuietShelf>,
) -> Result<usize, NoMemory>
    requires ready { is_broken writer.old ≡ false }
    requires none { taken_of writer.old ≡ 0 }
    requires at { IsAt writer.old (λ s. 0) [] }
    ensures given { OnOk result (HasAdvanced ⟦<QuietShelf as Shelf>⟧ (λ s. 0) (items_of gateway.old.history)
        writer.old writer.new) }
    ensures records { IfOk result (λ records. records ≡ length (filed gateway.old.history)) }
    ensures settings { settings_in writer.new ≡ settings_in writer.old }
    ensures same { gateway.new ≡ gateway.old }
{
    parts_go_as_one::<QuietShelf>();
    a_history_filed_its_parts();
    let mut taken = 0;
    let mut records = 0;
    let mut count = PART;
    while count == PART {
        let items = gateway.items(alloc, taken, PART)?;
        match writer.advance(&items) {
            Ok(_) => {}
            Err(ShelfFault::NoMemory) => return Err(NoMemory),
            Err(ShelfFault::Device) => unreachable!(),
        }
        records += record_count(&items);
        count = items.len() as u32;
        taken += u64::from(count);
    }
    Ok(records)
}
