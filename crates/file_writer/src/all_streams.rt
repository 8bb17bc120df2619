//! All streams of a writer: each item goes to one of them or to all.
ghost use Rattle.std.specs.Prelude.{◌≡◌, ◌+◌, ◌-◌, ◌<◌, ◌^◌, ◌++◌, ◌∷◌, [], ℕ, List, OnOk, All, length};
ghost use Rattle.gw_base.specs.CdrKind.{IsCdrKind};
ghost use Rattle.gw_base.specs.declared.item.Item.{Item};
ghost use Rattle.file_writer.specs.AllStreams.{AllAt, EachAt, EachBelow, EachSafe, Goes, GoesTo, IsFit, StillLeft, part_of, mark_told, up_to};
ghost use Rattle.file_writer.specs.Calls.{calls_below, calls_of, stream_calls};
ghost use Rattle.file_writer.specs.Shutting.{StaysShut};
ghost use Rattle.file_writer.specs.Streams.{Settings, stream_count, stream_record};
ghost use Rattle.file_writer.specs.Writing.{settings_of};

use crate::fault::ShelfFault;
use crate::gateway::Gateway;
use crate::progress::NextRecord;
use crate::stream::{Stream, mark, put};
use cdr_shelf::Shelf;
use file_rotate::division_goes_on;
use gw_base::{Item, Moment, Octets, Tag};
use route_filter::Rules;

/// One stream takes a mark.
fn mark_one<F: Shelf>(
    shelf: &mut F,
    gateway: &Gateway,
    streams: &mut [Stream],
    s: u8,
    closes: bool,
    moment: Moment,
) -> Result<(), ShelfFault>
    requires safe { EachSafe F.Shelf streams.old shelf.old }
    requires few { EachBelow (2 ^ 32 - 2) streams.old }
    requires sixteen { length streams.old ≡ stream_count }
    requires within { s < stream_count }
    ensures takes { (settings : Settings) (closed sealed : ℕ → ℕ) (before : List Item) →
        settings.file ≡ settings_of gateway.now →
        EachAt F.Shelf settings closed sealed (up_to s before (mark_told closes moment)) streams.old shelf.old →
        Goes F.Shelf settings closed sealed
        (stream_calls settings closed sealed before (mark_told closes moment ∷ []) s)
        (up_to (s + 1) before (mark_told closes moment)) streams.new shelf.old shelf.new result }
    ensures safe { OnOk result (EachSafe F.Shelf streams.new shelf.new) }
    ensures below { (most : ℕ) → EachBelow most streams.old → OnOk result (EachBelow most streams.new) }
    ensures left { OnOk result (StillLeft F.Shelf streams.old streams.new shelf.old shelf.new) }
    ensures sixteen { length streams.new ≡ stream_count }
    ensures shut { StaysShut F.Shelf shelf.old shelf.new }
{
    division_goes_on::<Octets>();
    let stream = streams[s as usize];
    streams[s as usize] = mark(shelf, gateway, s, stream, closes, moment)?;
    Ok(())
}

/// Each stream takes a mark, in the order of their numbers.
fn mark_all<F: Shelf>(
    shelf: &mut F,
    gateway: &Gateway,
    streams: &mut [Stream],
    closes: bool,
    moment: Moment,
) -> Result<(), ShelfFault>
    requires safe { EachSafe F.Shelf streams.old shelf.old }
    requires few { EachBelow (2 ^ 32 - 2) streams.old }
    requires sixteen { length streams.old ≡ stream_count }
    ensures takes { (settings : Settings) (closed sealed : ℕ → ℕ) (before : List Item) →
        settings.file ≡ settings_of gateway.now →
        AllAt F.Shelf settings closed sealed before streams.old shelf.old →
        Goes F.Shelf settings closed sealed
        (calls_below stream_count settings closed sealed before (mark_told closes moment))
        (λ s. before ++ mark_told closes moment ∷ []) streams.new shelf.old shelf.new result }
    ensures safe { OnOk result (EachSafe F.Shelf streams.new shelf.new) }
    ensures below { (most : ℕ) → EachBelow most streams.old → OnOk result (EachBelow most streams.new) }
    ensures left { OnOk result (StillLeft F.Shelf streams.old streams.new shelf.old shelf.new) }
    ensures sixteen { length streams.new ≡ stream_count }
{
    for s in 0..16u8 {
        mark_one(shelf, gateway, streams, s, closes, moment)?;
    }
    Ok(())
}

/// A stream takes a record that the rules send there.
fn put_one<F: Shelf>(
    shelf: &mut F,
    gateway: &Gateway,
    streams: &mut [Stream],
    s: u8,
    next: NextRecord<'_>,
) -> Result<(), ShelfFault>
    requires safe { EachSafe F.Shelf streams.old shelf.old }
    requires few { EachBelow (2 ^ 32 - 2) streams.old }
    requires sixteen { length streams.old ≡ stream_count }
    requires within { s < stream_count }
    requires kind { IsCdrKind next.kind }
    requires length { length next.octets.now < 2 ^ 16 }
    ensures takes { (settings : Settings) (closed sealed : ℕ → ℕ) (before : List Item) (item : Item) →
        settings.file ≡ settings_of gateway.now →
        GoesTo settings.profile settings.rules item s
        (stream_record settings.profile next.entry.kind next.entry.octets.now next.entry.moment) →
        AllAt F.Shelf settings closed sealed before streams.old shelf.old →
        Goes F.Shelf settings closed sealed (calls_below stream_count settings closed sealed before item)
        (λ t. before ++ item ∷ []) streams.new shelf.old shelf.new result }
    ensures safe { OnOk result (EachSafe F.Shelf streams.new shelf.new) }
    ensures below { (most : ℕ) → EachBelow most streams.old → OnOk result (EachBelow (most + 1) streams.new) }
    ensures left { OnOk result (StillLeft F.Shelf streams.old streams.new shelf.old shelf.new) }
    ensures sixteen { length streams.new ≡ stream_count }
{
    division_goes_on::<Octets>();
    let NextRecord {
        kind,
        octets,
        moment,
    } = next;
    let stream = streams[s as usize];
    let next = NextRecord {
        kind,
        octets,
        moment,
    };
    streams[s as usize] = put(shelf, gateway, s, stream, next)?;
    Ok(())
}

/// An item goes where the rules send it.
fn take_item<F: Shelf>(
    shelf: &mut F,
    gateway: &Gateway,
    rules: &Rules,
    streams: &mut [Stream],
    item: &Item,
) -> Result<(), ShelfFault>
    requires safe { EachSafe F.Shelf streams.old shelf.old }
    requires few { EachBelow (2 ^ 32 - 2) streams.old }
    requires sixteen { length streams.old ≡ stream_count }
    requires fit { IsFit item.now }
    ensures takes { (settings : Settings) (closed sealed : ℕ → ℕ) (before : List Item) →
        settings.file ≡ settings_of gateway.now →
        settings.rules ≡ rules.now → AllAt F.Shelf settings closed sealed before streams.old shelf.old →
        Goes F.Shelf settings closed sealed (calls_below stream_count settings closed sealed before item.now)
        (λ s. before ++ item.now ∷ []) streams.new shelf.old shelf.new result }
    ensures safe { OnOk result (EachSafe F.Shelf streams.new shelf.new) }
    ensures below { (most : ℕ) → EachBelow most streams.old → OnOk result (EachBelow (most + 1) streams.new) }
    ensures left { OnOk result (StillLeft F.Shelf streams.old streams.new shelf.old shelf.new) }
    ensures sixteen { length streams.new ≡ stream_count }
{
    match item {
        Item::Part {
            kind,
            tag,
            octets,
            moment,
        } => {
            let next = NextRecord {
                kind: *kind,
                octets: octets.octets(),
                moment: *moment,
            };
            put_by_rules(shelf, gateway, rules, streams, *tag, next)
        }
        Item::Tick { moment } => mark_all(shelf, gateway, streams, false, *moment),
        Item::Close { moment } => mark_all(shelf, gateway, streams, true, *moment),
    }
}

/// A record goes to the stream of the first rule that matches it.
fn put_by_rules<F: Shelf>(
    shelf: &mut F,
    gateway: &Gateway,
    rules: &Rules,
    streams: &mut [Stream],
    tag: Option<Tag>,
    next: NextRecord<'_>,
) -> Result<(), ShelfFault>
    requires safe { EachSafe F.Shelf streams.old shelf.old }
    requires few { EachBelow (2 ^ 32 - 2) streams.old }
    requires sixteen { length streams.old ≡ stream_count }
    requires kind { IsCdrKind next.kind }
    requires length { length next.octets.now < 2 ^ 16 }
    ensures takes { (settings : Settings) (closed sealed : ℕ → ℕ) (before : List Item) →
        settings.file ≡ settings_of gateway.now →
        settings.rules ≡ rules.now → AllAt F.Shelf settings closed sealed before streams.old shelf.old →
        Goes F.Shelf settings closed sealed
        (calls_below stream_count settings closed sealed before
        (part_of next.entry.kind tag next.entry.octets.now next.entry.moment))
        (λ s. before ++ part_of next.entry.kind tag next.entry.octets.now next.entry.moment ∷ [])
        streams.new shelf.old shelf.new result }
    ensures safe { OnOk result (EachSafe F.Shelf streams.new shelf.new) }
    ensures below { (most : ℕ) → EachBelow most streams.old → OnOk result (EachBelow (most + 1) streams.new) }
    ensures left { OnOk result (StillLeft F.Shelf streams.old streams.new shelf.old shelf.new) }
    ensures sixteen { length streams.new ≡ stream_count }
{
    division_goes_on::<Octets>();
    let NextRecord {
        kind,
        octets,
        moment,
    } = next;
    let s = rules.stream(tag, kind.format);
    let next = NextRecord {
        kind,
        octets,
        moment,
    };
    put_one(shelf, gateway, streams, s, next)
}

/// Items go where the rules send them, one after the other.
pub(crate) fn take_all<F: Shelf>(
    shelf: &mut F,
    gateway: &Gateway,
    rules: &Rules,
    streams: &mut [Stream],
    items: &[Item],
) -> Result<(), ShelfFault>
    requires safe { EachSafe F.Shelf streams.old shelf.old }
    requires few { EachBelow (2 ^ 32 - 2 - length items.now) streams.old }
    requires room { length items.now < 2 ^ 31 }
    requires sixteen { length streams.old ≡ stream_count }
    requires fit { All IsFit items.now }
    ensures takes { (settings : Settings) (closed sealed : ℕ → ℕ) (before : List Item) →
        settings.file ≡ settings_of gateway.now →
        settings.rules ≡ rules.now → AllAt F.Shelf settings closed sealed before streams.old shelf.old →
        Goes F.Shelf settings closed sealed (calls_of settings closed sealed before items.now)
        (λ s. before ++ items.now) streams.new shelf.old shelf.new result }
    ensures safe { OnOk result (EachSafe F.Shelf streams.new shelf.new) }
    ensures below { (most : ℕ) → EachBelow most streams.old →
        OnOk result (EachBelow (most + length items.now) streams.new) }
    ensures left { OnOk result (StillLeft F.Shelf streams.old streams.new shelf.old shelf.new) }
    ensures sixteen { length streams.new ≡ stream_count }
{
    division_goes_on::<Octets>();
    for item in items {
        take_item(shelf, gateway, rules, streams, item)?;
    }
    Ok(())
}
