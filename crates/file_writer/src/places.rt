//! Laws of the places of records. Each holds for all items, and stands on a function that does nothing.
ghost use Rattle.std.specs.Prelude.{◌≡◌, ◌^◌, ◌<◌, ◌≤◌, ◌++◌, ℕ, All, List, Option, Some, slice_get};
ghost use Rattle.file_rotate.specs.Items.{AreLimits, Filed};
ghost use Rattle.gw_base.specs.declared.item.Item.{Item};
ghost use Rattle.gw_base.specs.declared.item.Item.TheVariants as item;
ghost use Rattle.gw_base.specs.declared.kind.CdrKind.{CdrKind};
ghost use Rattle.gw_base.specs.declared.tag.Tag.{Tag};
ghost use Rattle.file_writer.specs.AllStreams.{IsFit};
ghost use Rattle.file_writer.specs.Files.{stream_files};
ghost use Rattle.file_writer.specs.Places.{FilePlace, HasPlace, place_in, record_at};
ghost use Rattle.file_writer.specs.Reading.{IsStamped, ReadsAt};
ghost use Rattle.file_writer.specs.Streams.{Settings, closed_of};

use cdr_file::what_is_written_is_read;
use file_rotate::{division_closes_where_files_end, division_goes_on};
use gw_base::Octets;

/// A record's place stays, whatever items come after those that gave it: what was closed stays, and the file that was
/// open goes on.
pub fn a_place_stays()
    ensures { (settings : Settings) (items more : List Item) (k : ℕ) (place : FilePlace)
        → place_in settings items k ≡ Some place → place_in settings (items ++ more) k ≡ Some place }
{
    division_goes_on::<Octets>();
}

/// Each item that is a record has a place and stands there, and no two have one place.
pub fn each_record_has_one_place()
    ensures has { (settings : Settings) (items : List Item) (k : ℕ)
        (kind : CdrKind) (tag : Option Tag) (octets : List ℕ) (moment : ℕ)
        → slice_get items k ≡ Some (item.Part kind tag octets moment)
        → HasPlace settings items k kind tag octets moment }
    ensures only { (settings : Settings) (items : List Item) (k l : ℕ) (place : FilePlace)
        → place_in settings items k ≡ Some place → place_in settings items l ≡ Some place → k ≡ l }
{
    division_closes_where_files_end::<Octets>();
}

/// Where the files have a record, it is that of an item: one with this place, and by the law before the only one. So
/// the files have no record but those of the items.
pub fn each_place_is_of_an_item()
    ensures { (settings : Settings) (items : List Item) (place : FilePlace) (filed : Filed (List ℕ))
        → record_at settings items place ≡ Some filed
        → (k : ℕ) × (place_in settings items k ≡ Some place) }
{
    division_closes_where_files_end::<Octets>();
}

/// The record at a place of a closed file is read there: the file of that name, as `file_in` of `cdr_file` reads it,
/// has the record's CDR at the place's index. The limits, the records and their moments are such as a writer takes, and
/// the file's number fits its field.
pub fn a_record_is_read_at_its_place()
    ensures { (settings : Settings) (items : List Item) (place : FilePlace) (filed : Filed (List ℕ))
        → AreLimits settings.limits → All IsFit items → All (IsStamped settings.file) items
        → place.sequence < 2 ^ 32 → place.sequence ≤ closed_of settings place.stream items
        → record_at settings items place ≡ Some filed
        → ReadsAt (stream_files settings place.stream items) place filed }
{
    what_is_written_is_read();
}
