//! The items that an entry makes.
ghost use Rattle.std.specs.Prelude.{◌≡◌, ◌≢◌, List, [], ◌∷◌, Err, OnOk, map};
ghost use Rattle.gate_journal.specs.Moments.{Told};
ghost use Rattle.cgf_journal.specs.Trail.{firm_length};
ghost use Rattle.gtpp_message.specs.Values.{lent};
ghost use Rattle.gw_base.specs.Entry.{act_view, entry_view};
ghost use Rattle.gw_base.specs.declared.history.HistoryEntry.{HistoryEntry};
ghost use Rattle.gw_base.specs.declared.history.PacketKey.{PacketKey};
ghost use Rattle.gateway_book.specs.Cursor.{AreHeldIn, NamesOnce};
ghost use Rattle.gateway_answer.specs.Filed.{filed_under, packet_of_hold, released_by, released_records};
ghost use Rattle.gateway_book.specs.Gathering.{gathered};
ghost use Rattle.gateway_book.specs.HeldCopies.{AreBelow, places_of};
ghost use Rattle.gateway_answer.specs.Items.{IsWritable, items_by, part_of};
ghost use Rattle.gateway_book.specs.Read.{HasCauseOf, IsRead, RunsOn};

use crate::ItemsFault;
use crate::gathering::Gathering;
use crate::held_copies::HeldCopies;
use crate::reading::{EntryBuffers, read_entry};
use area_disk::Area;
use cgf_journal::Trail;
use gtpp_message::Packet;
use gw_base::{Absolute, Act, Entry, Item, Moment, NoMemory, NodeId};

// Gathers the items of a packet that is filed at a moment.
#[tactic(auto, using(crate::proofs::ItemsLemmas::items_of_packet, crate::proofs::ItemsLemmas::no_items_of_packet, crate::proofs::ItemsLemmas::none_more))]
fn add_packet(packet: &[u8], moment: Moment, into: &mut Gathering) -> Result<(), ItemsFault>
    ensures items { (key : PacketKey) → OnOk result (into.new ≡
        gathered (map part_of (filed_under key moment packet.now)) into.old) }
    ensures memory { result ≢ Err ItemsFault.Device }
{
    let Some(packet) = Packet::of(packet) else {
        return Ok(());
    };
    match into.add_packet(packet, moment) {
        Ok(()) => Ok(()),
        Err(NoMemory) => Err(ItemsFault::NoMemory),
    }
}

// Gathers a mark.
fn add_mark(mark: Item, into: &mut Gathering) -> Result<(), ItemsFault>
    requires { IsWritable mark }
    ensures items { OnOk result (into.new ≡ gathered (mark ∷ []) into.old) }
    ensures memory { result ≢ Err ItemsFault.Device }
{
    match into.add(mark) {
        Ok(()) => Ok(()),
        Err(NoMemory) => Err(ItemsFault::NoMemory),
    }
}

// The packet of an entry that holds one.
fn held_packet<'a>(act: &Act<'a>) -> Option<&'a [u8]>
    ensures { lent result ≡ packet_of_hold (act_view act.now) }
{
    match *act {
        Act::Hold { packet, .. } => Some(packet),
        _ => None,
    }
}

// Gathers the items of the copy that is held under a node's number, where one is, as it is released at a moment.
fn add_copy<A: Area>(
    trail: &mut Trail<A>,
    copies: &HeldCopies,
    held: &mut EntryBuffers,
    node: NodeId,
    number: Absolute,
    moment: Moment,
    into: &mut Gathering,
) -> Result<(), ItemsFault>
    requires { AreBelow (firm_length trail.old) (places_of copies.now) }
    ensures items { Told A.Area → (before : List HistoryEntry) → AreHeldIn trail.old (places_of copies.now) before →
        OnOk result (into.new ≡ gathered (map part_of (released_records before moment node number)) into.old) }
    ensures read { IsRead trail.old trail.new }
    ensures cause { HasCauseOf trail.old trail.new result }
    ensures runs { RunsOn trail.old result }
{
    let Some(k) = copies.find(node, number) else {
        return Ok(());
    };
    let entry = match read_entry(trail, k, held) {
        Ok(entry) => entry,
        Err(fault) => return Err(fault),
    };
    let Some(packet) = held_packet(&entry.act) else {
        return Ok(());
    };
    add_packet(packet, moment, into)
}

// Gathers the items of the copies that are held under these numbers of a node, as they are released at a moment.
fn add_copies<A: Area>(
    trail: &mut Trail<A>,
    copies: &HeldCopies,
    held: &mut EntryBuffers,
    node: NodeId,
    numbers: &[Absolute],
    moment: Moment,
    into: &mut Gathering,
) -> Result<(), ItemsFault>
    requires { AreBelow (firm_length trail.old) (places_of copies.now) }
    ensures items { Told A.Area → (before : List HistoryEntry) → AreHeldIn trail.old (places_of copies.now) before →
        OnOk result (into.new ≡ gathered (map part_of (released_by before moment node numbers.now)) into.old) }
    ensures read { IsRead trail.old trail.new }
    ensures cause { HasCauseOf trail.old trail.new result }
    ensures runs { RunsOn trail.old result }
{
    for number in numbers {
        add_copy(trail, copies, held, node, *number, moment, into)?;
    }
    Ok(())
}

/// Gathers the items of an entry behind those whose held copies these are.
pub(crate) fn add_items<A: Area>(
    trail: &mut Trail<A>,
    copies: &HeldCopies,
    held: &mut EntryBuffers,
    entry: &Entry<'_>,
    into: &mut Gathering,
) -> Result<(), ItemsFault>
    requires { AreBelow (firm_length trail.old) (places_of copies.now) }
    ensures items { Told A.Area → (before : List HistoryEntry) → AreHeldIn trail.old (places_of copies.now) before →
        NamesOnce (act_view entry.now.act) →
        OnOk result (into.new ≡ gathered (items_by before (entry_view entry.now)) into.old) }
    ensures read { IsRead trail.old trail.new }
    ensures cause { HasCauseOf trail.old trail.new result }
    ensures runs { RunsOn trail.old result }
{
    let moment = entry.moment;
    match entry.act {
        Act::File { packet, .. } => add_packet(packet, moment, into),
        Act::Release { node, numbers } => {
            add_copies(trail, copies, held, node, numbers, moment, into)
        }
        Act::Tick => add_mark(Item::Tick { moment }, into),
        Act::Close => add_mark(Item::Close { moment }, into),
        Act::Start | Act::Path { .. } | Act::Hold { .. } | Act::Seal { .. } | Act::Cancel { .. } =>
            Ok(()),
    }
}
