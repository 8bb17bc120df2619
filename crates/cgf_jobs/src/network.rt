//! What `replay`, `sample` and `drill` print: gateways and nodes in memory, which run by the lines of a script.

ghost use Rattle.std.specs.Prelude.{◌≡◌, ◌+◌, ◌≤◌, ◌<◌, ◌^◌, ℕ, List, IfOk, OnOk, Err, None, Some, length};
ghost use Rattle.replay_world.specs.Report.{refusal_of_lines};
ghost use Rattle.replay_world.specs.Stands.{Stands};
ghost use Rattle.replay_world.specs.Value.{ReplayValue};
ghost use Rattle.world_script.specs.Script.{most_text};
ghost use Rattle.cgf_jobs.specs.Kinds.{of_world};
ghost use Rattle.cgf_jobs.specs.Command.{IsExtent, most_read};
ghost use Rattle.cgf_jobs.specs.NetworkSteps.{HasDrilled, IsReplayed, PlayedOf};
ghost use Rattle.cgf_jobs.specs.Steps.{IsRefusal, IsReport};
ghost use Rattle.cgf_jobs.specs.declared.command.Command.{Command};
ghost use Rattle.cgf_jobs.specs.declared.report.Refusal.{Refusal};

use crate::command::Seeded;
use crate::input_kind::InputKind;
use crate::report::{NoReport, Refusal, Report};
use crate::watch::Watch;
use gw_base::{NoMemory, Octets};
use once_core::WorldKind;
use replay_gateway::laws::a_script_is_short;
use replay_world::laws::{
    a_replay_files_each_record_once, a_settling_writes_all_files, no_line_of_a_sample_is_refused,
    what_is_handed_out_is_read,
};
use replay_world::{LineEnd, Replay, print_summary};
use std::alloc::Global;
use world_script::{InputFault, Script, ScriptKind, print, read, sample};

/// What is printed for the script of a network, or its first line that the grammar refuses.
#[tactic(auto, using(crate::proofs::NetworkLemmas::replay_refused))]
pub fn replay_report_of<W: Watch>(
    alloc: Global,
    text: Vec<u8>,
    watch: &mut W,
) -> Result<Report, NoReport>
    ensures within { OnOk result (length text.items < most_read Command.Replay) }
    ensures report { IfOk result (λ report. IsReport Command.Replay text.items report) }
    ensures refused { (refusal : Refusal) →
        result ≡ Err (NoReport.Refused refusal) → IsRefusal Command.Replay text.items refusal }
{
    a_script_is_short();
    let read = read(alloc, &text, ScriptKind::Replay);
    drop(text);
    match read {
        Ok(script) => Ok(replay(alloc, &script, watch)?),
        Err(InputFault::Bad { place, kind }) => {
            let kind = InputKind::from(kind);
            Err(NoReport::Refused(Refusal { place, kind }))
        }
        Err(InputFault::NoMemory) => Err(NoReport::NoMemory),
    }
}

/// The text of a seed's script.
pub fn sample_report_of(alloc: Global, of: Seeded) -> Result<Report, NoMemory>
    requires { IsExtent of }
    ensures { (octets : List ℕ) → IfOk result (IsReport (Command.Sample of) octets) }
{
    let script = sample(alloc, of.seed, of.nodes, of.gateways, of.packets)?;
    let text = print(alloc, &script)?;
    Ok(Report {
        printed: text.into_vec(),
        refused: None,
        played: None,
    })
}

/// What all gateways and nodes count once a seed's script was run.
#[tactic(auto, using(crate::proofs::NetworkLemmas::drilled_is_report))]
pub fn drill_report_of<W: Watch>(
    alloc: Global,
    of: Seeded,
    watch: &mut W,
) -> Result<Report, NoMemory>
    requires { IsExtent of }
    ensures { (octets : List ℕ) → IfOk result (IsReport (Command.Drill of) octets) }
{
    no_line_of_a_sample_is_refused();
    a_script_is_short();
    let script = sample(alloc, of.seed, of.nodes, of.gateways, of.packets)?;
    // The clause of `kind` says that its lines are read, so that there are no more of them than a text has octets.
    let _kind = script.kind();
    drill(alloc, &script, watch)
}

/// Runs the lines of a script, up to the first that the world refuses.
fn replay<W: Watch>(alloc: Global, script: &Script, watch: &mut W) -> Result<Report, NoMemory>
    requires { length script.now.lines ≤ most_text }
    ensures { IfOk result (IsReplayed script.now.lines) }
{
    a_replay_files_each_record_once();
    a_settling_writes_all_files();
    what_is_handed_out_is_read();
    // The clause of `kind` says that its lines are read, so that they end with `end`.
    let _kind = script.kind();
    let mut replay = Replay::new(alloc, script)?;
    let mut printed = Octets::from_vec(Vec::new(alloc));
    let all = script.lines().len() as u64;
    let mut at = 0;
    while let Some(line) = script.line(at) {
        watch.ran(at as u64, all);
        match replay.run_line(alloc, line, &mut printed) {
            LineEnd::Ran => at += 1,
            LineEnd::Refused(kind) => return Ok(refused(printed, at, kind)),
            LineEnd::NoMemory => return Err(NoMemory),
        }
    }
    Ok(ended(printed, replay))
}

/// What was printed for a network that ran to its end, which is handed back.
fn ended(printed: Octets, replay: Replay) -> Report
    ensures printed { result.printed.items ≡ printed }
    ensures refused { result.refused ≡ None }
    ensures played { (v : ReplayValue) → Stands v replay → PlayedOf v result.played }
{
    Report {
        printed: printed.into_vec(),
        refused: None,
        played: Some(replay.into_played()),
    }
}

/// What was printed before the line at this place, from 0, which the world refuses.
fn refused(printed: Octets, at: usize, kind: WorldKind) -> Report
    requires { at + 1 < 2 ^ 64 }
    ensures printed { result.printed.items ≡ printed }
    ensures refused { result.refused ≡ Some (record { place = at + 1; kind = of_world kind }) }
    ensures played { result.played ≡ None }
{
    Report {
        printed: printed.into_vec(),
        refused: Some(Refusal {
            place: at as u64 + 1,
            kind: InputKind::from(kind),
        }),
        played: None,
    }
}

/// Runs the lines of a script, of which the world refuses none, and counts what all have then. What lines print isn't
/// kept.
fn drill<W: Watch>(alloc: Global, script: &Script, watch: &mut W) -> Result<Report, NoMemory>
    requires few { length script.now.lines ≤ most_text }
    requires taken { refusal_of_lines script.now.lines ≡ None }
    ensures { IfOk result (HasDrilled script.now.lines) }
{
    a_replay_files_each_record_once();
    a_settling_writes_all_files();
    what_is_handed_out_is_read();
    // The clause of `kind` says that its lines are read, so that they end with `end`.
    let _kind = script.kind();
    let mut replay = Replay::new(alloc, script)?;
    let all = script.lines().len() as u64;
    let mut at = 0;
    while let Some(line) = script.line(at) {
        watch.ran(at as u64, all);
        let mut told = Octets::from_vec(Vec::new(alloc));
        match replay.run_line(alloc, line, &mut told) {
            LineEnd::Ran => at += 1,
            LineEnd::Refused(_) => unreachable!(),
            LineEnd::NoMemory => return Err(NoMemory),
        }
    }
    let summary = replay.summary(alloc)?;
    let mut sums = Octets::from_vec(Vec::new(alloc));
    print_summary(alloc, &mut sums, &summary)?;
    Ok(ended(sums, replay))
}
