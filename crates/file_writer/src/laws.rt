//! Laws of the files that items are divided into. Each holds for all items, and stands on a function that does nothing.
ghost use Rattle.std.specs.Prelude.{◌≡◌, ◌-◌, ◌+◌, ◌<◌, ◌≤◌, ◌++◌, ℕ, List, [], Option, Ok, Err, drop, length, max, take};
ghost use Rattle.gw_base.specs.declared.item.Item.{Item};
ghost use Rattle.file_rotate.specs.Division.{divided_from};
ghost use Rattle.file_rotate.specs.Items.{Filed};
ghost use Rattle.file_rotate.specs.Items as stream;
ghost use Rattle.cdr_shelf.specs.Files.{SealedFile, UnsealedFile, greatest_in, in_stream};
ghost use Rattle.file_writer.specs.Advancing.{Advances};
ghost use Rattle.file_writer.specs.Calls.{calls_from, calls_of, seals};
ghost use Rattle.file_writer.specs.Files.{AreOfStreams, files_from, later_division, later_files, stream_files};
ghost use Rattle.file_writer.specs.Leaving.{AreOpenFiles, AreShut, LeavesUnsealed, begun_after};
ghost use Rattle.file_writer.specs.Parts.{HasAdvanced, part_of};
ghost use Rattle.file_writer.specs.Streams.{Settings, closed_of, stream_count};
ghost use Rattle.file_writer.specs.Writer.{IsAt, settings_in};
ghost use Rattle.file_writer.specs.declared.fault.ShelfFault.{ShelfFault};
ghost use Rattle.file_writer.specs.declared.writer.Writer.{Writer};

use cdr_shelf::Shelf;
use file_rotate::division_goes_on;
use gw_base::Octets;

/// Files only grow: more items close more files behind those that the first ones close.
pub fn files_only_grow()
    ensures { (settings : Settings) (s : ℕ) (items more : List Item)
        → stream_files settings s (items ++ more) ≡ stream_files settings s items ++ later_files settings s items more }
{
    division_goes_on::<Octets>();
}

/// What calls for items of a stream seal is what is closed, but for the files that are sealed already.
pub fn calls_seal_what_is_closed()
    ensures { (settings : Settings) (s sealed closed : ℕ) (run : List (Filed (List ℕ)))
        (items : List (stream.Item (List ℕ)))
        → seals (calls_from settings s sealed closed run items)
        ≡ drop (sealed - closed)
        (files_from settings.file s (closed + 1) (divided_from settings.limits run items).closed) }
{}

/// What the calls for items that come in after others seal of a stream is what those items close, but for the files
/// that are sealed already.
pub fn calls_seal_what_items_close()
    ensures { (settings : Settings) (closed sealed : ℕ → ℕ) (before items : List Item) (s : ℕ) → s < stream_count
        → in_stream s (seals (calls_of settings closed sealed before items))
        ≡ drop (sealed s - (closed s + closed_of settings s before))
        (files_from settings.file s (closed s + closed_of settings s before + 1)
        (later_division settings s before items).closed) }
{
    division_goes_on::<Octets>();
}

/// The calls for items that come in after others tell nothing of files that are sealed already, but for those behind the
/// files that are closed before: these get no call.
pub fn sealed_files_get_no_call()
    ensures { (settings : Settings) (closed sealed other : ℕ → ℕ) (before items : List Item)
        → ((s : ℕ) → s < stream_count → max (sealed s) (closed s + closed_of settings s before)
        ≡ max (other s) (closed s + closed_of settings s before))
        → calls_of settings closed sealed before items ≡ calls_of settings closed other before items }
{
    division_goes_on::<Octets>();
}

/// However many of the calls for items are made, each file that they seal is of one of the streams that there are.
pub fn calls_seal_files_of_streams()
    ensures { (settings : Settings) (closed sealed : ℕ → ℕ) (before items : List Item) (k : ℕ)
        → AreOfStreams (seals (take k (calls_of settings closed sealed before items))) }
{}

/// A shelf that isn't empty: where the first files of a stream are its sealed ones, as any crash leaves them, the
/// greatest number of the stream there is how many they are.
pub fn first_files_are_counted()
    ensures { (settings : Settings) (s m : ℕ) (items : List Item) (files : List SealedFile)
        → in_stream s files ≡ take m (stream_files settings s items) → m ≤ closed_of settings s items
        → greatest_in s files ≡ m }
{}

/// The unsealed files are the open ones, and stay so. Where they are those that some items leave open, and the files
/// that were sealed are among those that these close, then after calls for these items, or the last of them, and more,
/// the unsealed files are those that all items leave open. So it is too where a writer recovers, and takes all anew.
pub fn open_files_go_on()
    ensures { (settings : Settings) (closed sealed : ℕ → ℕ) (before front rest : List Item)
        (old new : ℕ → Option UnsealedFile)
        → ((s : ℕ) → s < stream_count → sealed s ≤ closed s + closed_of settings s (before ++ front))
        → AreOpenFiles settings closed (before ++ front) old
        → LeavesUnsealed settings closed sealed before ((before ++ front) ++ rest) old new
        → AreOpenFiles settings closed ((before ++ front) ++ rest) new }
{
    division_goes_on::<Octets>();
}

/// Files that are begun only grow: more items begin no fewer, so streams that are shut stay so.
pub fn begun_files_only_grow()
    ensures begun { (settings : Settings) (closed : ℕ → ℕ) (items more : List Item) (s : ℕ)
        → begun_after settings closed items s ≤ begun_after settings closed (items ++ more) s }
    ensures shut { (settings : Settings) (closed : ℕ → ℕ) (items more : List Item)
        (files : List SealedFile) (unsealed : ℕ → Option UnsealedFile)
        → AreShut (begun_after settings closed items) files unsealed
        → AreShut (begun_after settings closed (items ++ more)) files unsealed }
{
    division_goes_on::<Octets>();
}

/// Streams are shut whose unsealed files are those that items leave open, where no file is sealed that the items don't
/// close.
pub fn open_files_leave_streams_shut()
    ensures { (settings : Settings) (closed : ℕ → ℕ) (items : List Item)
        (files : List SealedFile) (unsealed : ℕ → Option UnsealedFile)
        → ((s : ℕ) → s < stream_count → greatest_in s files ≤ closed s + closed_of settings s items)
        → AreOpenFiles settings closed items unsealed → AreShut (begun_after settings closed items) files unsealed }
{}

/// Where it is so, and a writer takes all items anew, the unsealed files are those that the items leave open, whatever
/// calls that failed or stopped have left before.
pub fn shut_streams_come_to_open_files()
    ensures { (settings : Settings) (closed sealed : ℕ → ℕ) (items : List Item)
        (files : List SealedFile) (old new : ℕ → Option UnsealedFile)
        → ((s : ℕ) → s < stream_count → (closed s ≤ sealed s) × (sealed s ≤ closed s + closed_of settings s items)
        × (sealed s ≡ greatest_in s files))
        → AreShut (begun_after settings closed items) files old
        → LeavesUnsealed settings closed sealed [] items old new → AreOpenFiles settings closed items new }
{}

/// A writer that is told all items in parts, each at most so many from where the one before ended, takes them as in one
/// call: when it began it has taken none, and behind each part it has taken that too. A part that has a fault has it as
/// a call for all items has.
pub fn parts_go_as_one<F: Shelf>()
    ensures none { (closed : ℕ → ℕ) (writer : Writer F F.Shelf) → IsAt writer closed []
        → HasAdvanced F.Shelf closed [] writer writer }
    ensures more { (closed : ℕ → ℕ) (all : List Item) (from most n : ℕ) (first now later : Writer F F.Shelf)
        → settings_in now ≡ settings_in first → HasAdvanced F.Shelf closed (take from all) first now
        → Advances F.Shelf closed (take from all) (part_of from most all) now later (Ok n)
        → HasAdvanced F.Shelf closed (take (from + length (part_of from most all)) all) first later }
    ensures broken { (closed : ℕ → ℕ) (all : List Item) (from most : ℕ) (first now later : Writer F F.Shelf)
        (fault : ShelfFault) → settings_in now ≡ settings_in first
        → HasAdvanced F.Shelf closed (take from all) first now
        → Advances F.Shelf closed (take from all) (part_of from most all) now later (Err fault)
        → Advances F.Shelf closed [] all first later (Err fault) }
{
    division_goes_on::<Octets>();
}
