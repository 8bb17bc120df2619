//! What `feed` prints for a script: a gateway in memory that is fed with the script's datagrams.
ghost use Rattle.std.specs.Prelude.{◌≡◌, ◌++◌, ◌+◌, ◌<◌, ◌≤◌, ◌^◌, ℕ, List, [], IfOk, OnOk, None, Some, length};
ghost use Rattle.cdr_shelf.specs.Files.{in_stream};
ghost use Rattle.file_writer.specs.Files.{stream_files};
ghost use Rattle.file_writer.specs.Streams.{stream_count};
ghost use Rattle.gw_base.specs.declared.item.Item.{Item as ItemValue};
ghost use Rattle.replay_gateway.specs.GatewayReport.{file_lines};
ghost use Rattle.replay_gateway.specs.Settings.{AreSound};
ghost use Rattle.replay_gateway.specs.Setup.{Setup, files_in};
ghost use Rattle.world_script.specs.Script.{most_text};
ghost use Rattle.cgf_jobs.specs.FeedReport.{after_line, end_lines, fed_of, is_earlier, printed_for, reply_line};
ghost use Rattle.cgf_jobs.specs.Gateway.{after_close, after_datagram, answered, new_gateway};
ghost use Rattle.cgf_jobs.specs.Steps.{IsFed, refusal_at, setup_seen, state_of};

use crate::files::write_files;
use crate::gateway::Gateway;
use crate::input_kind::InputKind;
use crate::printing::{make_room, print_counts, print_outcome, print_stream};
use crate::report::{Refusal, Report};
use cdr_shelf::{QuietShelf, Shelf};
use gw_base::{Addr, Moment, NoMemory};
use replay_gateway::{Settings, rules_of};
use route_filter::Rules;
use std::alloc::Global;
use world_script::{Line, Script};

/// How many streams there are.
const STREAMS: u8 = 16;

/// A gateway that is fed with the lines of a script, and what was printed for them.
#[derive(Drop)]
struct Feed {
    gateway: Gateway,
    moment: Moment,
    printed: Vec<u8>,
}

/// What is printed for the lines of a script, up to the first that can't be run.
pub fn report(alloc: Global, script: Script) -> Result<Report, NoMemory>
    requires { length script.lines ≤ most_text }
    ensures { IfOk result (λ report. IsFed (fed_of script.lines) report) }
{
    let settings = Settings::of(&script);
    let rules = rules_of(alloc, &script)?;
    let mut feed = Feed::open(alloc, &settings)?;
    let mut at = 0;
    while let Some(line) = script.line(at) {
        if feed.is_earlier(line) {
            return Ok(feed.refused(at));
        }
        feed.run(line)?;
        at += 1;
    }
    drop(script);
    feed.end(alloc, settings, rules)
}

impl Feed {
    /// A gateway that has just begun to run, at moment 0.
    fn open(alloc: Global, settings: &Settings) -> Result<Feed, NoMemory>
        requires { AreSound settings.now }
        ensures state { IfOk result (λ feed. state_of feed ≡
            record { gateway = new_gateway settings.now.size settings.now.limits.open_time; now = 0 }) }
        ensures printed { IfOk result (λ feed. feed.printed.items ≡ []) }
    {
        let Some(moment) = Moment::of(0) else {
            unreachable!();
        };
        let gateway = Gateway::open(alloc, settings.size, settings.limits.open_time)?;
        Ok(Feed {
            gateway,
            moment,
            printed: Vec::new(alloc),
        })
    }

    /// Whether a line sets a moment before the present one.
    fn is_earlier(&self, line: &Line) -> bool
        ensures { result ≡ is_earlier self.now.moment line.now }
    {
        match line {
            Line::At { moment } => *moment < self.moment,
            _ => false,
        }
    }

    /// Does what a line says.
    fn run(&mut self, line: &Line) -> Result<(), NoMemory>
        ensures state { OnOk result (state_of self.new ≡ after_line (state_of self.old) line.now) }
        ensures printed { OnOk result (self.new.printed.items ≡
            self.old.printed.items ++ printed_for (state_of self.old) line.now) }
    {
        match line {
            Line::At { moment } => {
                self.moment = *moment;
                Ok(())
            }
            Line::Datagram { from, octets } => self.take(*from, octets.octets()),
            Line::Mark { .. } => {
                self.gateway.tick(self.moment);
                Ok(())
            }
            Line::Close { .. } => {
                self.gateway.close(self.moment);
                Ok(())
            }
            // Settings were read before; the other lines are a replay's.
            _ => Ok(()),
        }
    }

    /// Takes a datagram of this sender, and prints what becomes of it.
    fn take(&mut self, from: Addr, octets: &[u8]) -> Result<(), NoMemory>
        ensures gateway { OnOk result (self.new.gateway ≡
            after_datagram self.old.gateway self.old.moment from octets.now) }
        ensures moment { self.new.moment ≡ self.old.moment }
        ensures printed { OnOk result (self.new.printed.items ≡
            self.old.printed.items ++ reply_line (answered self.old.gateway from octets.now)) }
    {
        let outcome = self.gateway.take(from, octets, self.moment);
        print_outcome(&mut self.printed, &outcome)?;
        Ok(())
    }

    /// What was printed before the line at this place, from 0, which sets a moment before the present one.
    fn refused(self, at: usize) -> Report
        requires { at + 1 < 2 ^ 64 }
        ensures printed { result.printed.items ≡ self.printed.items }
        ensures refused { result.refused ≡ refusal_at (Some (at + 1)) }
        ensures played { result.played ≡ None }
    {
        Report {
            printed: self.printed,
            refused: Some(Refusal {
                place: at as u64 + 1,
                kind: InputKind::Earlier,
            }),
            played: None,
        }
    }

    /// Closes the open files, and gives all that is printed. The gateway is let go before its files are printed.
    fn end(self, alloc: Global, settings: Settings, rules: Rules) -> Result<Report, NoMemory>
        requires { AreSound settings }
        ensures printed { IfOk result (λ report. report.printed.items ≡ self.printed.items
            ++ end_lines (setup_seen settings rules) (after_close self.gateway self.moment).history) }
        ensures refused { IfOk result (λ report. report.refused ≡ None) }
        ensures played { IfOk result (λ report. report.played ≡ None) }
    {
        let Feed {
            mut gateway,
            moment,
            mut printed,
        } = self;
        gateway.close(moment);
        let (shelf, records) = write_files(alloc, settings, rules, &mut gateway)?;
        let counts = gateway.counts();
        drop(gateway);
        print_files(alloc, &mut printed, &shelf)?;
        print_counts(alloc, &mut printed, counts.gateway_counts(records))?;
        Ok(Report {
            printed,
            refused: None,
            played: None,
        })
    }
}

/// Appends the lines of the sealed files of a shelf, stream after stream.
fn print_files(alloc: Global, printed: &mut Vec<u8>, shelf: &QuietShelf) -> Result<(), NoMemory>
    ensures { (setup : Setup) (items : List ItemValue) → ((s : ℕ) → s < stream_count →
        in_stream s (⟦<QuietShelf as Shelf>⟧.files shelf.now) ≡ stream_files (files_in setup 0) s items) →
        OnOk result (printed.new.items ≡ printed.old.items ++ file_lines setup 0 items) }
{
    make_room(printed, shelf)?;
    for stream in 0..STREAMS {
        print_stream(alloc, printed, shelf, stream)?;
    }
    Ok(())
}
