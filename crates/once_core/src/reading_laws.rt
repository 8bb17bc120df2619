//! A law of what CDR files are read as. It holds for all settings, and stands on a function that does nothing.

ghost use Rattle.std.specs.Prelude.{◌≤◌, ℕ, Contains, List, length};
ghost use Rattle.cdr_shelf.specs.Files.{SealedFile};
ghost use Rattle.file_writer.specs.Files.{AreFilesOf};
ghost use Rattle.file_writer.specs.Places.{FilePlace};
ghost use Rattle.file_writer.specs.Reading.{ReadsAt};
ghost use Rattle.file_writer.specs.Streams.{Settings, closed_of, stream_record};
ghost use Rattle.gate_journal.specs.Format.{most_octets};
ghost use Rattle.gateway_answer.specs.FitHistory.{StandsFitFor};
ghost use Rattle.gateway_answer.specs.Items.{items_of};
ghost use Rattle.gateway_answer.specs.declared.filing.FiledRecord.{FiledRecord};
ghost use Rattle.gw_base.specs.declared.history.HistoryEntry.{HistoryEntry};
ghost use Rattle.once_core.specs.FilePlaces.{placed};
ghost use Rattle.once_core.specs.Readable.{AreFileSettings};

use crate::world_laws::what_stands_at_a_place_was_filed;

/// Where an area stands for a history and files are those of its items, each record of a closed one is read where it
/// stands: the file of the place's name, as `file_in` of `cdr_file` reads it, has the record's CDR at the place's index.
pub fn what_a_history_files_is_read()
    ensures { (settings : Settings) (header octets : List ℕ) (h : List HistoryEntry) (files : List SealedFile)
        (place : FilePlace) (filing : FiledRecord) → AreFileSettings settings → StandsFitFor header octets h →
        length octets ≤ most_octets → AreFilesOf settings (items_of h) files →
        place.sequence ≤ closed_of settings place.stream (items_of h) → Contains (placed settings h) (place, filing) →
        ReadsAt files place (stream_record settings.profile filing.kind filing.octets filing.moment) }
{
    cdr_file::each_stamp_fits();
    file_writer::places::a_record_is_read_at_its_place();
    gateway_answer::laws::items_are_fewer_than_octets();
    what_stands_at_a_place_was_filed();
}
