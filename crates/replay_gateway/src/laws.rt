//! Laws of gateways, and of what scripts say of them. Each stands on a function that does nothing.

ghost use Rattle.std.specs.Prelude.{◌≡◌, ◌≤◌, ℕ, List, Ok, false, length};
ghost use Rattle.area_disk.specs.declared.memory.MemoryArea.{MemoryArea};
ghost use Rattle.cdr_shelf.specs.declared.memory.MemoryShelf.{MemoryShelf};
ghost use Rattle.gateway_answer.specs.Items.{items_of};
ghost use Rattle.gw_base.specs.History.{is_close_due};
ghost use Rattle.gw_base.specs.declared.history.HistoryEntry.{HistoryEntry};
ghost use Rattle.once_core.specs.Gateway.{Gateway};
ghost use Rattle.replay_gateway.specs.AtRest.{AreShut, IsAllWritten, IsAtRest, IsRead};
ghost use Rattle.replay_gateway.specs.GatewayReport.{book_of, gateway_report, gateway_text};
ghost use Rattle.replay_gateway.specs.HandedOut.{IsHandedOut};
ghost use Rattle.replay_gateway.specs.Machine.{Machine};
ghost use Rattle.replay_gateway.specs.Setup.{Setup, files_in, setup_of};
ghost use Rattle.world_script.specs.Script.{most_text, script_in};
ghost use Rattle.world_script.specs.declared.kind.ScriptKind.{ScriptKind};
ghost use Rattle.world_script.specs.declared.line.Line.{Line};

use gw_base::Octets;

/// Where no Close is due of a history, none of its records stands in a file that is open, whatever decides the files.
pub fn no_file_is_open_where_no_close_is_due()
    ensures { (h : List HistoryEntry) → is_close_due h ≡ false → AreShut (items_of h) }
{
    gateway_answer::laws::filed_records_stay();
    file_rotate::division_goes_on::<Octets>();
}

/// The text of a script has no more octets than it may have, and it has no more lines than that.
#[tactic(auto, using(crate::proofs::RangeLemmas::script_within, crate::proofs::RangeLemmas::script_few))]
pub fn a_script_is_short()
    ensures text { (of : ScriptKind) (text : List ℕ) (lines : List Line) →
        script_in of text ≡ Ok lines → length text ≤ most_text }
    ensures lines { (of : ScriptKind) (text : List ℕ) (lines : List Line) →
        script_in of text ≡ Ok lines → length lines ≤ most_text }
{}

/// What is reported of a gateway that has written all are the files that all its items make, and its counts. Once its
/// area and its shelf are handed out it is at rest.
pub fn a_gateway_that_wrote_all_rests()
    ensures reports { (setup : Setup) (place : ℕ) (g : Gateway) (m : Machine) →
        IsAllWritten (files_in setup place) g m →
        gateway_text setup place g m ≡ gateway_report setup place (items_of g.book.firm) (book_of g) }
    ensures rests { (setup : Setup) (place : ℕ) (g : Gateway) (m : Machine) (area : MemoryArea) (shelf : MemoryShelf) →
        IsAllWritten (files_in setup place) g m → IsHandedOut setup place g m area shelf →
        IsAtRest setup place g area shelf }
{}

/// Each record that a gateway filed is read at its place in the files of its shelf, once it is at rest, where a script
/// has said its settings.
pub fn what_a_gateway_at_rest_filed_is_read()
    ensures { (of : ScriptKind) (text : List ℕ) (lines : List Line) (place : ℕ) (g : Gateway) (area : MemoryArea)
        (shelf : MemoryShelf) → script_in of text ≡ Ok lines → IsAtRest (setup_of lines) place g area shelf →
        IsRead (files_in (setup_of lines) place) g.book.firm shelf }
{
    once_core::world_laws::what_stands_at_a_place_was_filed();
    once_core::reading_laws::what_a_history_files_is_read();
}
