// The contents of batches, entry by entry.
ghost use Rattle.std.specs.Prelude.{◌≡◌, ◌≤◌, ◌<◌, ◌+◌, ◌*◌, ◌^◌, ◌++◌, true, false, List, length, None, Ok, IfOk, IfSome};
ghost use Rattle.gw_base.specs.declared.history.HistoryEntry.{HistoryEntry};
ghost use Rattle.entry_codec.specs.Content.{IsContent, entries_of};
ghost use Rattle.entry_codec.specs.Fault.{BeginsWith};
ghost use Rattle.cgf_journal.specs.Contents.{IsTakenIn};
ghost use Rattle.cgf_journal.specs.Judged.{IsJudged, IsJudgedEntry, IsUnfitIn};
ghost use Rattle.cgf_journal.specs.Sound.{places_from};
ghost use Rattle.cgf_journal.specs.Tally.{tally_behind_all};

use crate::judge::Judge;
use crate::places::Places;
use crate::tally::Tally;
use entry_codec::laws::{entries_are_read_back, entries_divide};
use entry_codec::read;
use gw_base::{NoMemory, Place};

/// Takes in the entries of a batch's content, which begins at octet `at` of the area: asks of each whether it is fit, adds
/// its place and counts it. It answers whether the content is fit entries, at least one, and nothing else; where it isn't,
/// those in front may have been taken in, as they may where there is no memory.
///
/// `numbers` needs an eighth as many places as there are octets.
pub(crate) fn take_in<J: Judge>(
    judge: &mut J,
    content: &[u8],
    at: u64,
    size: u64,
    numbers: &mut [u64],
    places: &mut Places,
    tally: &mut Tally,
) -> Result<bool, NoMemory>
    requires numbers { length content.now ≤ 8 * length numbers.old }
    requires costs { tally.old.live.costs + 2 * length content.now < 2 ^ 64 }
    requires inside { at + length content.now < 2 ^ 32 }
    ensures taken { result ≡ Ok true → IsContent content.now }
    ensures places { result ≡ Ok true →
        places.new.items ≡ places.old.items ++ places_from at (entries_of content.now) }
    ensures reserved { places.new.reserved ≡ places.old.reserved }
    ensures tally { result ≡ Ok true →
        tally.new ≡ record {
          firm = tally.old.firm;
          live = tally_behind_all tally.old.live (entries_of content.now);
          reserved = tally.old.reserved;
        } }
    ensures fit { (h : List HistoryEntry) → result ≡ Ok true → IsJudged J.Judge size judge.old h →
        IsJudged J.Judge size judge.new (h ++ entries_of content.now) }
    ensures unfit { result ≡ Ok false → IsContent content.now → (h : List HistoryEntry) →
        IsJudged J.Judge size judge.old h → IsUnfitIn (J.fits size) (h ++ entries_of content.now) }
    ensures numbers { length numbers.new ≡ length numbers.old }
{
    entries_are_read_back();
    entries_divide();
    let mut rest = content;
    let mut from = at;
    while !rest.is_empty() {
        let Some(count) = take_entry(judge, rest, from, size, numbers, places, tally)? else {
            return Ok(false);
        };
        rest = rest.split_at(count).1;
        from += count as u64;
    }
    Ok(!content.is_empty())
}

/// Takes in the entry that the octets begin with, and answers how many octets it has; none where it isn't fit, or where
/// they begin with no entry.
fn take_entry<J: Judge>(
    judge: &mut J,
    octets: &[u8],
    at: u64,
    size: u64,
    numbers: &mut [u64],
    places: &mut Places,
    tally: &mut Tally,
) -> Result<Option<usize>, NoMemory>
    requires numbers { length octets.now ≤ 8 * length numbers.old }
    requires costs { tally.old.live.costs + 2 * length octets.now < 2 ^ 64 }
    requires inside { at + length octets.now < 2 ^ 32 }
    ensures some { IfOk result (λ found. IfSome found (λ count.
        IsTakenIn octets.now at count places.old places.new tally.old tally.new)) }
    ensures fit { IfOk result (λ found. IfSome found (λ count.
        IsJudgedEntry J.Judge size judge.old judge.new octets.now count)) }
    ensures within { IfOk result (λ found. IfSome found (λ count. (25 ≤ count) × (count ≤ length octets.now))) }
    ensures none { result ≡ Ok None → (e : HistoryEntry) → BeginsWith octets.now e → (h : List HistoryEntry) →
        J.follows judge.old h → ¬ (J.fits size h e) }
    ensures reserved { places.new.reserved ≡ places.old.reserved }
    ensures numbers { length numbers.new ≡ length numbers.old }
{
    let Ok((entry, count)) = read(octets, numbers) else {
        return Ok(None);
    };
    if !judge.take(&entry, size)? {
        return Ok(None);
    }
    let place = Place {
        at,
        length: count as u32,
    };
    tally.add(&entry)?;
    places.push(place)?;
    Ok(Some(count))
}
