//! Items gathered one after the other.
ghost use Rattle.std.specs.Prelude.{◌≡◌, ◌==◌, ◌<◌, [], ◌∷◌, All, OnOk, length};
ghost use Rattle.gtpp_message.specs.Packet.{IsPacket};
ghost use Rattle.gtpp_message.specs.Values.{packet_value};
ghost use Rattle.gateway_book.specs.Gathering.{gathered, packet_items, record_item};
ghost use Rattle.gateway_answer.specs.Items.{IsWritable};

use gateway_answer::record_tag;
use gtpp_message::Packet;
use gw_base::{Item, Moment, NoMemory, Octets, cdr_kind};
use std::alloc::Global;
use std::marker::Model;

/// Items that are gathered: those from a number on, and at most so many.
#[derive(Drop)]
pub(crate) struct Gathering {
    /// How many of the items that come are still left out.
    skip: u64,
    /// For how many more there is room.
    room: usize,
    items: Vec<Item>,
    alloc: Global,
}

impl Model for Gathering {
    ghost use Rattle.std.specs.Prelude.{All};
    ghost use Rattle.gateway_book.specs.Gathering.{Gathered};
    ghost use Rattle.gateway_answer.specs.Items.{IsWritable};

    ghost Value = { Gathered };

    ghost view = { λ g. record { skip = g.skip; room = g.room; items = g.items.items } };

    ghost invariant = { λ g. All IsWritable g.items.items };
}

/// No items, and memory for so many, where there is that.
fn room_for(alloc: Global, count: usize) -> Vec<Item>
    ensures { result.items ≡ [] }
{
    match Vec::with_capacity(alloc, count) {
        Ok(items) => items,
        Err(_) => Vec::new(alloc),
    }
}

impl Gathering {
    /// No items yet, of which so many are likely to come.
    pub(crate) fn new(alloc: Global, skip: u64, room: usize, likely: usize) -> Gathering
        ensures { result ≡ record { skip = skip; room = room; items = [] } }
    {
        Gathering {
            skip,
            room,
            items: room_for(alloc, likely.min(room)),
            alloc,
        }
    }

    /// How many of the items that come are still left out.
    pub(crate) fn skip(&self) -> u64
        ensures { result ≡ self.now.skip }
    {
        self.skip
    }

    /// How many items there are.
    pub(crate) fn count(&self) -> usize
        ensures { result ≡ length self.now.items }
    {
        self.items.len()
    }

    /// Whether there is room for none more.
    pub(crate) fn is_full(&self) -> bool
        ensures { result ≡ (self.now.room == 0) }
    {
        self.room == 0
    }

    /// The items.
    pub(crate) fn into_items(self) -> Vec<Item>
        ensures items { result.items ≡ self.items }
        ensures writable { All IsWritable result.items }
    {
        self.items
    }

    /// Gathers one item more.
    pub(crate) fn add(&mut self, item: Item) -> Result<(), NoMemory>
        requires { IsWritable item }
        ensures { OnOk result (self.new ≡ gathered (item ∷ []) self.old) }
    {
        if self.skip > 0 {
            self.skip -= 1;
            return Ok(());
        }
        if self.room > 0 {
            self.room -= 1;
            self.items.push(item)?;
        }
        Ok(())
    }

    /// Gathers the items of a packet that is filed at a moment.
    #[tactic(auto, using(crate::proofs::ItemsLemmas::one_and_more, crate::proofs::ItemsLemmas::none_more))]
    pub(crate) fn add_packet(&mut self, packet: Packet<'_>, moment: Moment) -> Result<(), NoMemory>
        requires { IsPacket (packet_value packet) }
        ensures { OnOk result (self.new ≡ gathered (packet_items moment (packet_value packet.entry)) self.old) }
    {
        let Packet::Full {
            format,
            version,
            ..
        } = packet
        else {
            return Ok(());
        };
        let mut records = packet.records();
        while let Some(octets) = records.next() {
            self.add_record(format, version, octets, moment)?;
        }
        Ok(())
    }

    /// Gathers the item of one record.
    fn add_record(
        &mut self,
        format: u8,
        version: u16,
        octets: &[u8],
        moment: Moment,
    ) -> Result<(), NoMemory>
        requires { length octets.now < 65536 }
        ensures { OnOk result (self.new ≡ gathered (record_item moment format version octets.now ∷ []) self.old) }
    {
        if self.skip > 0 {
            self.skip -= 1;
            return Ok(());
        }
        if self.room == 0 {
            return Ok(());
        }
        self.add(Item::Part {
            kind: cdr_kind(format, version),
            tag: record_tag(format, octets),
            octets: Octets::of(self.alloc, octets)?,
            moment,
        })
    }
}
