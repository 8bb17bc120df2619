// The report of a gateway.
ghost use Rattle.std.specs.Prelude.{◌≡◌, ◌+◌, ◌<◌, ◌^◌, ◌++◌, ℕ, IfOk, OnOk, false, take, true};
ghost use Rattle.std.specs.List.{flat_map};
ghost use Rattle.file_writer.specs.Files.{stream_files};
ghost use Rattle.file_writer.specs.Streams.{stream_count};
ghost use Rattle.gateway_book.specs.Calls.{counts_of, gateway_counts_of};
ghost use Rattle.gateway_answer.specs.Items.{items_of};
ghost use Rattle.once_core.specs.Gateway.{Gateway};
ghost use Rattle.replay_gateway.specs.GatewayReport.{book_of, counts_text, digits, file_line, file_name, gateway_text, sealed_lines};
ghost use Rattle.replay_gateway.specs.Machine.{Machine as MachineValue};
ghost use Rattle.replay_gateway.specs.Setup.{Setup, files_in};
ghost use Rattle.replay_gateway.specs.Standing.{MachineStands, SiteStands};
ghost use Rattle.replay_gateway.specs.Tells.{Tells};

use crate::machine::Machine;
use crate::site::Site;
use cdr_shelf::FileName;
use gateway_book::{Counts, GatewayCounts, record_count};
use gw_base::{NoMemory, Octets};
use std::alloc::Global;

/// How many streams a gateway has.
const STREAMS: u8 = 16;

impl Machine {
    /// Appends the lines of a gateway, which is in this place: of its sealed files, and of its counts. One that is down
    /// is opened for this alone, and its area is left as it was. `NoMemory`: a part of them may have been appended.
    pub fn report(&mut self, alloc: Global, place: u8, out: &mut Octets) -> Result<(), NoMemory>
        ensures { (setup : Setup) (g : Gateway) (m : MachineValue) →
            MachineStands setup place g m self.old → OnOk result
            (MachineStands setup place g m self.new
            × (out.new ≡ out.old ++ gateway_text setup place g m)) }
    {
        self.report_files(alloc, place, out)?;
        let tally = self.tally(alloc)?;
        print_counts(alloc, out, usize::from(place), tally)
    }

    /// What it counts. One that is down is opened for this, and its area is left as it was. `NoMemory`: there was no
    /// memory to read it.
    pub fn tally(&mut self, alloc: Global) -> Result<GatewayCounts, NoMemory>
        ensures { (setup : Setup) (place : ℕ) (g : Gateway) (m : MachineValue) →
            MachineStands setup place g m self.old →
            IfOk result (λ tally. (tally ≡ gateway_counts_of (book_of g)) × MachineStands setup place g m self.new) }
    {
        if self.is_down() {
            return self.tally_down(alloc);
        }
        let told = self.tell(alloc)?;
        let (records, counts) = told;
        Ok(counts.gateway_counts(records))
    }

    // The same of one that is down. The Start of the opening isn't firm, and doesn't count.
    fn tally_down(&mut self, alloc: Global) -> Result<GatewayCounts, NoMemory>
        ensures { (setup : Setup) (place : ℕ) (g : Gateway) (m : MachineValue) →
            MachineStands setup place g m self.old → g.is_down ≡ true →
            IfOk result (λ tally. (tally ≡ gateway_counts_of (book_of g)) × MachineStands setup place g m self.new) }
    {
        self.open_book(alloc)?;
        let told = self.tell(alloc)?;
        self.close_book();
        let (records, counts) = told;
        Ok(GatewayCounts {
            entries: counts.firm,
            records,
            held: counts.held,
            stranded: counts.stranded,
        })
    }

    // How many records the firm entries of one that is up have filed, and what its book counts.
    fn tell(&mut self, alloc: Global) -> Result<(usize, Counts), NoMemory>
        ensures told { (setup : Setup) (place : ℕ) (g : Gateway) (m : MachineValue) →
            SiteStands setup place g m self.old.site → g.is_down ≡ false →
            IfOk result (λ told. Tells g.book setup.size told.0 told.1 × SiteStands setup place g m self.new.site) }
        ensures rest { self.new ≡ record self.old { site = self.new.site } }
    {
        let items = self.firm_items(alloc, 0)?;
        let counts = self.counts();
        Ok((record_count(&items), counts))
    }

    // What its book counts, of one that is up.
    fn counts(&self) -> Counts
        ensures { (setup : Setup) (place : ℕ) (g : Gateway) (m : MachineValue) →
            SiteStands setup place g m self.now.site → g.is_down ≡ false → result ≡ counts_of g.book setup.size }
    {
        let Some(Site::Up(book)) = &self.site else {
            return Counts {
                entries: 0,
                firm: 0,
                held: 0,
                stranded: 0,
                free: 0,
            };
        };
        book.counts()
    }

    // The lines of its files.
    fn report_files(&self, alloc: Global, place: u8, out: &mut Octets) -> Result<(), NoMemory>
        ensures { (setup : Setup) (g : Gateway) (m : MachineValue) → MachineStands setup place g m self.now →
            OnOk result (out.new ≡ out.old ++ sealed_lines setup place g m) }
    {
        for stream in 0..STREAMS {
            self.report_stream(alloc, place, stream, out)?;
        }
        Ok(())
    }

    /// The lines of the files of a stream.
    fn report_stream(
        &self,
        alloc: Global,
        place: u8,
        stream: u8,
        out: &mut Octets,
    ) -> Result<(), NoMemory>
        ensures { (setup : Setup) (g : Gateway) (m : MachineValue) → stream < stream_count →
            MachineStands setup place g m self.now → OnOk result
            (out.new ≡ out.old ++ flat_map (file_line place)
            (take (m.filing.sealed stream) (stream_files (files_in setup place) stream (items_of g.book.firm)))) }
    {
        for sequence in 1..u32::MAX {
            let name = FileName { stream, sequence };
            let Some(octets) = self.files.writer.shelf().file(name) else {
                return Ok(());
            };
            print_file(alloc, out, place, name, octets)?;
        }
        // No stream has more.
        Ok(())
    }
}

/// The line of a file.
fn print_file(
    alloc: Global,
    out: &mut Octets,
    place: u8,
    name: FileName,
    octets: &[u8],
) -> Result<(), NoMemory>
    ensures { OnOk result (out.new ≡ out.old ++ file_line place (record { name = name; octets = octets.now })) }
{
    let number = u64::from(place) + 1;
    let word = format!(in alloc; "file {number} ")?;
    out.append(word.as_bytes())?;
    print_name(out, name)?;
    let digits = hex::encode_upper(alloc, octets)?;
    let last = format!(in alloc; " {digits}\n")?;
    out.append(last.as_bytes())?;
    Ok(())
}

/// Appends the name of a file: its stream in two digits, and its number in ten. `NoMemory`: a part of it may have been
/// appended.
pub fn print_name(out: &mut Octets, name: FileName) -> Result<(), NoMemory>
    ensures { OnOk result (out.new ≡ out.old ++ file_name name) }
{
    print_digits(out, 2, u32::from(name.stream))?;
    out.append(b"-")?;
    print_digits(out, 10, name.sequence)?;
    out.append(b".cdr")?;
    Ok(())
}

/// So many of the last decimal digits of a number.
fn print_digits(out: &mut Octets, count: u32, number: u32) -> Result<(), NoMemory>
    ensures { OnOk result (out.new ≡ out.old ++ digits count number) }
{
    if count == 0 {
        return Ok(());
    }
    print_digits(out, count - 1, number / 10)?;
    out.append(&[b'0' + (number % 10) as u8])?;
    Ok(())
}

/// Appends the line of what the gateway in this place counts, from 0: its entries, the records that the firm ones have
/// filed, and the copies that are held and stranded. `NoMemory`: a part of it may have been appended.
pub fn print_counts(
    alloc: Global,
    out: &mut Octets,
    place: usize,
    tally: GatewayCounts,
) -> Result<(), NoMemory>
    requires { place + 1 < 2 ^ 64 }
    ensures { OnOk result (out.new ≡ out.old ++ counts_text place tally) }
{
    let GatewayCounts {
        entries,
        records,
        held,
        stranded,
    } = tally;
    let number = place + 1;
    let line = format!(in alloc;
        "gateway {number} entries {entries} records {records} held {held} stranded {stranded}\n"
    )?;
    out.append(line.as_bytes())?;
    Ok(())
}
