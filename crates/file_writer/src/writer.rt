ghost use Rattle.std.specs.Prelude.{◌≡◌, ◌+◌, ◌-◌, ◌<◌, ◌^◌, ℕ, List, OnOk, OnErr, IfErr, IfOk, All, true, false, is_err, length, min, slice_index};
ghost use Rattle.cdr_file.specs.Profile.{IsProfile};
ghost use Rattle.file_rotate.specs.Items.{AreLimits};
ghost use Rattle.gw_base.specs.declared.item.Item.{Item};
ghost use Rattle.file_writer.specs.AllStreams.{IsFit};
ghost use Rattle.file_writer.specs.Props.{sound_props};
ghost use Rattle.file_writer.specs.Sound.{IsSound};
ghost use Rattle.file_writer.specs.Streams.{stream_count};
ghost use Rattle.file_writer.specs.declared.fault.ShelfFault.TheVariants.{Device};

use crate::all_streams::take_all;
use crate::asking::ask_all;
use crate::fault::ShelfFault;
use crate::gateway::Gateway;
use crate::progress::Progress;
use crate::stream::Stream;
use cdr_file::Offset16;
use cdr_shelf::Shelf;
use file_rotate::{Cutter, Limits, division_goes_on};
use gw_base::{Item, Octets};
use route_filter::Rules;

/// How many streams there are.
const STREAMS: usize = 16;

/// Writes items into CDR files on a shelf (3GPP TS 32.297, clause 6): a record goes to the stream of the first rule
/// that matches it, and each stream is cut into files.
///
/// A writer is broken until it recovers, and after each fault: it then asks the shelf for the sealed files, and is
/// given the items anew. A file that wasn't sealed is written anew from its first octet, and one that is sealed gets
/// no call. A writer that is made takes no memory.
#[derive(Drop)]
pub struct Writer<F: Shelf> {
    pub(crate) shelf: F,
    rules: Rules,
    limits: Limits,
    profile: u8,
    gateway: Gateway,
    streams: [Stream; 16],
    /// The number of the first item.
    first: u64,
    /// How many items were taken since.
    taken: u64,
    is_broken: bool,
    ghost sound: { IsSound F.Shelf shelf limits profile streams taken is_broken } by { Prim.hlevel sound_props },
}

impl<F: Shelf> Writer<F> {
    ghost use Rattle.file_writer.specs.Writer.{IsAt, first_of, is_broken, settings_in, shelf_of, taken_of};

    /// A writer on a shelf of files of profile 1 or 2, which is broken until it recovers. It makes no call of the
    /// shelf.
    ///
    /// Of the limits, the size of a file is from 1 to 2^32 - 2^17 octets, the count of its records is at least 1, and
    /// the open time is in seconds. The offset is that of the gateway's clock from UTC, in minutes, and the address is
    /// its IPv4 address: the headers of files say them.
    pub fn new(
        shelf: F,
        rules: Rules,
        limits: Limits,
        offset: Offset16,
        address: u32,
        profile: u8,
    ) -> Writer<F>
        requires limits { AreLimits limits }
        requires profile { IsProfile profile }
        ensures broken { is_broken result ≡ true }
        ensures shelf { shelf_of result ≡ shelf }
        ensures count { (first_of result ≡ 0) × (taken_of result ≡ 0) }
        ensures settings { settings_in result ≡
            record {
              rules = rules;
              limits = limits;
              profile = profile;
              file = record { offset = offset; address = address };
            } }
    {
        let file = Progress {
            growing: None,
            closed: 0,
            sealed: 0,
        };
        let stream = Stream {
            cutter: Cutter::new(limits, profile),
            file,
        };
        Writer {
            shelf,
            rules,
            limits,
            profile,
            gateway: Gateway { offset, address },
            streams: [stream; 16],
            first: 0,
            taken: 0,
            is_broken: true,
        }
    }

    /// Whether it has to recover before it takes items.
    pub fn is_broken(&self) -> bool
        ensures { result ≡ is_broken self.now }
    {
        self.is_broken
    }

    /// How many items it has taken since it recovered. A call that failed took none.
    pub fn taken(&self) -> u64
        ensures { result ≡ taken_of self.now }
    {
        self.taken
    }

    /// The shelf.
    pub fn shelf(&self) -> &F
        ensures { result.now ≡ shelf_of self.now }
    {
        &self.shelf
    }

    /// Gives the shelf back as it is.
    pub fn into_shelf(self) -> F
        ensures { result ≡ shelf_of self }
    {
        self.shelf
    }
}

impl<F: Shelf> Writer<F> {
    ghost use Rattle.file_writer.specs.Asking.{IsAsked};
    ghost use Rattle.file_writer.specs.Advancing.{Advances, HasRecovered};
    ghost use Rattle.file_writer.specs.Writer.{IsAt, first_of, is_broken, settings_in, shelf_of, taken_of};
    ghost use Rattle.file_writer.specs.Streams.{closed_of};

    /// Asks the shelf for the sealed files, and begins the items anew: the next one is the first of all.
    ///
    /// It makes no counted call. Its one fault is `Device`, after which the writer is broken.
    pub fn recover(&mut self) -> Result<(), ShelfFault>
        ensures broken { is_broken self.new ≡ is_err result }
        ensures settings { settings_in self.new ≡ settings_in self.old }
        ensures asked { IsAsked F.Shelf (is_err result) (shelf_of self.old) (shelf_of self.new) }
        ensures cause { IfErr result (λ fault. fault ≡ Device) }
        ensures recovered { OnOk result (HasRecovered F.Shelf (λ s. 0) 0 self.old self.new) }
    {
        self.recover_from(0, [0; 16])
    }

    /// Asks the shelf for the sealed files, and begins the items anew at the one with a number: of each stream so many
    /// files were closed before it, fewer than 2^31, and none is open.
    ///
    /// It makes no counted call. Its one fault is `Device`, after which the writer is broken.
    pub fn recover_from(&mut self, item: u64, sequences: [u32; 16]) -> Result<(), ShelfFault>
        requires { (s : ℕ) → s < stream_count → slice_index sequences s < 2 ^ 31 }
        ensures broken { is_broken self.new ≡ is_err result }
        ensures settings { settings_in self.new ≡ settings_in self.old }
        ensures asked { IsAsked F.Shelf (is_err result) (shelf_of self.old) (shelf_of self.new) }
        ensures cause { IfErr result (λ fault. fault ≡ Device) }
        ensures recovered { OnOk result (HasRecovered F.Shelf (λ s. slice_index sequences s) item self.old self.new) }
    {
        self.is_broken = true;
        ask_all(
            &mut self.shelf,
            self.limits,
            self.profile,
            &sequences,
            &mut self.streams,
        )?;
        self.first = item;
        self.taken = 0;
        self.is_broken = false;
        Ok(())
    }

    /// Takes the next items, and answers how many were taken in all: the number at which the next call's items begin.
    ///
    /// Each record has at most 65,535 octets and a kind that `cdr_kind` gives, and fewer than 2^31 items are taken
    /// since it recovered. It makes the calls of `specs/Calls.antt`, one after the other. After `Device` or `NoMemory`
    /// the writer is broken, and took none.
    pub fn advance(&mut self, items: &[Item]) -> Result<u64, ShelfFault>
        requires ready { is_broken self.old ≡ false }
        requires few { taken_of self.old + length items.now < 2 ^ 31 }
        requires fit { All IsFit items.now }
        // It has taken the items then, and each file that they close is sealed.
        ensures moves { (closed_before : ℕ → ℕ) (before : List Item) → IsAt self.old closed_before before →
            Advances F.Shelf closed_before before items.now self.old self.new result }
        ensures count { IfOk result (λ n.
            (n ≡ min (first_of self.old + (taken_of self.old + length items.now)) (2 ^ 64 - 1))
            × (first_of self.new ≡ first_of self.old) × (taken_of self.new ≡ taken_of self.old + length items.now)) }
        ensures none { OnErr result
            ((first_of self.new ≡ first_of self.old) × (taken_of self.new ≡ taken_of self.old)) }
        ensures broken { is_broken self.new ≡ is_err result }
        ensures settings { settings_in self.new ≡ settings_in self.old }
    {
        division_goes_on::<Octets>();
        self.is_broken = true;
        take_all(
            &mut self.shelf,
            &self.gateway,
            &self.rules,
            &mut self.streams,
            items,
        )?;
        self.taken += items.len() as u64;
        self.is_broken = false;
        Ok(self.first.saturating_add(self.taken))
    }

    /// How many files of each stream, from stream 0 on, are closed, those before the first item included. It takes no
    /// memory. Ask a writer that isn't broken: what a broken one answers isn't to be relied on.
    pub fn closed(&self) -> [u32; 16]
        ensures { (closed : ℕ → ℕ) (items : List Item) → IsAt self.now closed items →
            (s : ℕ) → s < stream_count → slice_index result s ≡ closed s + closed_of (settings_in self.now) s items }
    {
        let mut closed = [0; 16];
        for s in 0..STREAMS {
            closed[s] = self.streams[s].file.closed;
        }
        closed
    }
}
