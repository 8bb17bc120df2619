// Two lists of kept keys made one.
ghost use Rattle.std.specs.Prelude.{◌≡◌, ◌+◌, ◌<◌, ◌≤◌, ◌^◌, ◌∷◌, length, drop, vec_capacity, OnOk, OnErr};
ghost use Rattle.cgf_journal.specs.Merged.{merged, moved_keys};

use crate::key::KeptKey;
use gw_base::NoMemory;

/// The next key of two lists that are in order, from these places on, and the places after it. Those of the second
/// list are of round `from`, and the key is of round `to`.
fn next_of(
    keys: &[KeptKey],
    others: &[KeptKey],
    places: (usize, usize),
    from: u16,
    to: u16,
) -> (KeptKey, (usize, usize))
    requires first { places.0 ≤ length keys.now }
    requires second { places.1 < length others.now }
    ensures next { merged to (drop places.0 keys.now) (moved_keys from to (drop places.1 others.now)) ≡
        result.0 ∷ merged to (drop result.1.0 keys.now) (moved_keys from to (drop result.1.1 others.now)) }
    ensures first { result.1.0 ≤ length keys.now }
    ensures second { result.1.1 ≤ length others.now }
    ensures past { places.0 + places.1 < result.1.0 + result.1.1 }
{
    let (i, j) = places;
    let other = others[j].moved(from, to);
    if i == keys.len() {
        return (other, (i, j + 1));
    }
    let kept = keys[i];
    if kept.is_before(other.node, other.number) {
        return (kept, (i + 1, j));
    }
    if other.is_before(kept.node, kept.number) {
        return (other, (i, j + 1));
    }
    (kept.joined(other, to), (i + 1, j + 1))
}

/// Writes two lists that are in order as one in the place of what `into` has. It takes memory only where there is
/// none for all of them.
pub(crate) fn merge(
    keys: &[KeptKey],
    others: &[KeptKey],
    from: u16,
    to: u16,
    into: &mut Vec<KeptKey>,
) -> Result<(), NoMemory>
    requires small { length keys.now + length others.now < 2 ^ 64 }
    ensures ok { OnOk result (into.new.items ≡ merged to keys.now (moved_keys from to others.now)) }
    ensures capacity { vec_capacity into.old ≤ vec_capacity into.new }
    ensures full { OnErr result (vec_capacity into.old < length keys.now + length others.now) }
{
    into.clear();
    let mut places = (0, 0);
    while places.1 < others.len() {
        let (kept, next) = next_of(keys, others, places, from, to);
        into.push(kept)?;
        places = next;
    }
    let (_, rest) = keys.split_at(places.0);
    into.extend_from_slice(rest)?;
    Ok(())
}
