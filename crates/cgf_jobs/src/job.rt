//! Jobs over files: what a command reads is reported, and nothing else.
ghost use Rattle.std.specs.Prelude.{◌≡◌, ◌≢◌, ◌<◌, Err, IfOk, OnOk, false, length, map, string_bytes, true};
ghost use Rattle.gw_base.specs.Faults.{Rose};
ghost use Rattle.cgf_jobs.specs.Command.{IsWithin, command_of, has_input, most_read};
ghost use Rattle.cgf_jobs.specs.Ending.{DoesJob, HasCause, IsBounded, IsComplete, WordsDecide};
ghost use Rattle.cgf_jobs.specs.Job.{job_of};
ghost use Rattle.cgf_jobs.specs.NetworkReport.{HandsNetwork};
ghost use Rattle.cgf_jobs.specs.Run.{HasReported, WritesFront, is_reported, may_have_written};
ghost use Rattle.cgf_jobs.specs.Steps.{IsRefusal, IsReport, ended_by};
ghost use Rattle.cgf_jobs.specs.declared.report.Refusal.{Refusal};

use crate::command::Command;
use crate::input::{ReadEnd, read_input};
use crate::input_kind::InputKind;
use crate::output::write_all;
use crate::report::{NoReport, Refusal, Report};
use crate::status::Status;
use crate::watch::Watch;
use crate::{feed, network, show};
use gw_base::{NoMemory, Sink, Source};
use replay_gateway::laws::a_script_is_short;
use replay_world::Played;
use std::alloc::Global;
use world_script::{InputFault, Script};

/// How a job over files ended, and what it ran.
#[derive(Drop)]
pub struct JobEnd {
    /// How it ended.
    pub status: Status,
    /// The network of a `replay` or a `drill` that is done; none of another job.
    pub played: Option<Played>,
}

/// Does a job over files, and no other: `feed`, `show`, `replay`, `sample` or `drill`.
pub fn do_job<S: Source, K: Sink, W: Watch>(
    alloc: Global,
    words: &[String],
    source: &mut S,
    sink: &mut K,
    watch: &mut W,
) -> JobEnd
    ensures once { HandsNetwork (map string_bytes words.now) (S.left source.old) result.status result.played }
    ensures job { DoesJob (job_of S.Source K.Sink (map string_bytes words.now) source.old source.new sink.old sink.new)
        result.status result.played }
    ensures words { WordsDecide (command_of (map string_bytes words.now)) result.status source.old source.new }
    ensures untouched { may_have_written result.status ≡ false → sink.new ≡ sink.old }
{
    run(alloc, words, source, sink, watch)
}

/// The same, clause by clause of what a job does.
#[tactic(auto, using(crate::proofs::Ends::complete, crate::proofs::Ends::complete_by, crate::proofs::Ends::bounded_by, crate::proofs::Streams::takes_none, crate::proofs::Whole::keeps_none, crate::proofs::Whole::writes_done, crate::proofs::Whole::writes_refusal))]
fn run<S: Source, K: Sink, W: Watch>(
    alloc: Global,
    words: &[String],
    source: &mut S,
    sink: &mut K,
    watch: &mut W,
) -> JobEnd
    ensures words { WordsDecide (command_of (map string_bytes words.now)) result.status source.old source.new }
    ensures untouched { may_have_written result.status ≡ false → sink.new ≡ sink.old }
    ensures report { is_reported result.status ≡ true → HasReported
        (job_of S.Source K.Sink (map string_bytes words.now) source.old source.new sink.old sink.new) result.status
        result.played }
    ensures front { result.status ≡ Status.Write → WritesFront
        (job_of S.Source K.Sink (map string_bytes words.now) source.old source.new sink.old sink.new) }
    ensures none { result.status ≢ Status.Done → result.played ≡ None }
    ensures cause { HasCause result.status (S.faults source.old) (S.faults source.new) (K.faults sink.old)
        (K.faults sink.new) }
    ensures bound { IsBounded (map string_bytes words.now) (S.left source.old) (S.left source.new) }
    ensures complete { command_of (map string_bytes words.now) ≢ None →
        ¬ (Rose (S.faults source.old) (S.faults source.new)) → ¬ (Rose (K.faults sink.old) (K.faults sink.new)) →
        IsComplete (map string_bytes words.now) (S.left source.old) (S.left source.new) result.status }
{
    let command = match Command::of(alloc, words) {
        Ok(Some(command)) => command,
        Ok(None) => return JobEnd {
            status: Status::Words,
            played: None,
        },
        Err(NoMemory) => return JobEnd {
            status: Status::Memory,
            played: None,
        },
    };
    let octets = match read_input(alloc, source, command.most_read()) {
        Ok(octets) => octets,
        Err(ReadEnd::Failed) => return JobEnd {
            status: Status::Read,
            played: None,
        },
        Err(ReadEnd::NoMemory) => return JobEnd {
            status: Status::Memory,
            played: None,
        },
    };
    match report_of(alloc, command, octets, watch) {
        Ok(
            Report {
                printed,
                refused,
                played,
            },
        ) => match write_all(sink, &printed) {
            Ok(()) => JobEnd {
                status: ended_by(refused),
                played,
            },
            Err(_) => JobEnd {
                status: Status::Write,
                played: None,
            },
        },
        Err(NoReport::Refused(Refusal { place, kind })) => {
            JobEnd {
                status: Status::Input { place, kind },
                played: None,
            }
        }
        Err(NoReport::NoMemory) => JobEnd {
            status: Status::Memory,
            played: None,
        },
    }
}

/// How a job ends whose report was written.
fn ended_by(refused: Option<Refusal>) -> Status
    ensures { result ≡ ended_by refused }
{
    match refused {
        None => Status::Done,
        Some(Refusal { place, kind }) => Status::Input { place, kind },
    }
}

/// What a command prints for the octets of its input, or their first place that the grammar refuses. The octets are let
/// go once they are read.
fn report_of<W: Watch>(
    alloc: Global,
    command: Command,
    octets: Vec<u8>,
    watch: &mut W,
) -> Result<Report, NoReport>
    requires { IsWithin command }
    ensures within { OnOk result (has_input command ≡ true → length octets.items < most_read command) }
    ensures report { IfOk result (λ report. IsReport command octets.items report) }
    ensures refused { (refusal : Refusal) →
        result ≡ Err (NoReport.Refused refusal) → IsRefusal command octets.items refusal }
{
    match command {
        Command::Feed => feed_report_of(alloc, octets),
        Command::Show => show::report(alloc, octets),
        Command::Replay => network::replay_report_of(alloc, octets, watch),
        Command::Sample(of) => Ok(network::sample_report_of(alloc, of)?),
        Command::Drill(of) => Ok(network::drill_report_of(alloc, of, watch)?),
    }
}

/// What is printed for a script, or its first line that the grammar refuses.
#[tactic(auto, using(crate::proofs::FeedLemmas::fed_is_report, crate::proofs::FeedLemmas::refused_is))]
fn feed_report_of(alloc: Global, text: Vec<u8>) -> Result<Report, NoReport>
    ensures within { OnOk result (length text.items < most_read Command.Feed) }
    ensures report { IfOk result (λ report. IsReport Command.Feed text.items report) }
    ensures refused { (refusal : Refusal) →
        result ≡ Err (NoReport.Refused refusal) → IsRefusal Command.Feed text.items refusal }
{
    a_script_is_short();
    let read = Script::read(alloc, &text);
    drop(text);
    match read {
        Ok(script) => Ok(feed::report(alloc, script)?),
        Err(InputFault::Bad { place, kind }) => {
            let kind = InputKind::from(kind);
            Err(NoReport::Refused(Refusal { place, kind }))
        }
        Err(InputFault::NoMemory) => Err(NoReport::NoMemory),
    }
}
