// How a writer of files is given items.
ghost use Rattle.std.specs.Prelude.{◌≡◌, ◌+◌, ◌<◌, ◌≤◌, ◌^◌, All, Bool, Err, IsTrue, List, OnErr, OnOk, false, is_err, length, true};
ghost use Rattle.area_disk.specs.Disk.{Rose};
ghost use Rattle.file_writer.specs.AllStreams.{IsFit};
ghost use Rattle.file_writer.specs.Writer.{IsAt, is_broken, settings_in, shelf_of, taken_of};
ghost use Rattle.file_writer.specs.declared.fault.ShelfFault.TheVariants.{Device};
ghost use Rattle.gateway_answer.specs.Items.{items_of};
ghost use Rattle.gw_base.specs.declared.history.HistoryEntry.{HistoryEntry};
ghost use Rattle.gw_base.specs.declared.item.Item.{Item as ItemValue};
ghost use Rattle.node_session.specs.Writing.{AreNext, Begins, HoldsFilesOf, IsWriterOf, none_closed, taken_before};

use cdr_shelf::Shelf;
use file_writer::{ShelfFault, Writer};
use gw_base::{Failed, Item};

/// How many items a writer takes at most. A history in one area has fewer.
pub(crate) const MOST_TAKEN: u64 = 2_147_483_647;

/// Lets a broken writer recover, which begins anew then.
pub(crate) fn make_ready<F: Shelf>(writer: &mut Writer<F>) -> Result<(), Failed>
    ensures broken { is_broken writer.new ≡ is_err result }
    ensures settings { settings_in writer.new ≡ settings_in writer.old }
    ensures taken { OnOk result (taken_of writer.new ≡ taken_before writer.old) }
    ensures shelf { OnErr result (Rose (F.faults (shelf_of writer.old)) (F.faults (shelf_of writer.new))) }
    ensures still { OnOk result (F.faults (shelf_of writer.new) ≡ F.faults (shelf_of writer.old)) }
    ensures later { F.faults (shelf_of writer.old) ≤ F.faults (shelf_of writer.new) }
    ensures writer { (told : Bool) (h : List HistoryEntry) → IsWriterOf told h writer.old →
        IsWriterOf told h writer.new }
    ensures files { IsTrue F.tells_files → (all : List ItemValue) → HoldsFilesOf all writer.old →
        HoldsFilesOf all writer.new }
{
    if !writer.is_broken() {
        return Ok(());
    }
    match writer.recover() {
        Ok(()) => Ok(()),
        Err(_) => Err(Failed),
    }
}

/// Gives a writer the items behind those that it has taken.
pub(crate) fn give<F: Shelf>(writer: &mut Writer<F>, items: &[Item]) -> Result<(), ShelfFault>
    requires ready { is_broken writer.old ≡ false }
    requires few { taken_of writer.old + length items.now < 2 ^ 31 }
    requires fit { All IsFit items.now }
    ensures count { OnOk result ((is_broken writer.new ≡ false)
        × (taken_of writer.new ≡ taken_of writer.old + length items.now) × (taken_of writer.new < 2 ^ 31)) }
    ensures settings { settings_in writer.new ≡ settings_in writer.old }
    ensures later { (taken : List ItemValue) → IsAt writer.old none_closed taken →
        F.faults (shelf_of writer.old) ≤ F.faults (shelf_of writer.new) }
    ensures shelf { result ≡ Err Device → (taken : List ItemValue) → IsAt writer.old none_closed taken →
        Rose (F.faults (shelf_of writer.old)) (F.faults (shelf_of writer.new)) }
    ensures still { OnOk result ((taken : List ItemValue) → IsAt writer.old none_closed taken →
        F.faults (shelf_of writer.new) ≡ F.faults (shelf_of writer.old)) }
    ensures writer { (told : Bool) (h : List HistoryEntry) → IsWriterOf told h writer.old →
        AreNext told h (taken_of writer.old) items.now → IsWriterOf told h writer.new }
    ensures files { IsTrue F.tells_files → (h : List HistoryEntry) (all : List ItemValue) →
        IsWriterOf true h writer.old → AreNext true h (taken_of writer.old) items.now → Begins (items_of h) all →
        HoldsFilesOf all writer.old → HoldsFilesOf all writer.new }
{
    match writer.advance(items) {
        Ok(_) => Ok(()),
        Err(fault) => Err(fault),
    }
}
