//! `serve`: a gateway on links, with its journal on an area and its files on a shelf.
ghost use Rattle.std.specs.Prelude.{◌≡◌, ◌+◌, ◌≤◌, ◌<◌, ◌^◌, ℕ, List, IfErr, IfOk, None, false};
ghost use Rattle.gate_journal.specs.Format.{fewest_octets, most_octets};
ghost use Rattle.gw_base.specs.declared.address.Addr.{Addr};
ghost use Rattle.replay_gateway.specs.Setup.{setup_of};
ghost use Rattle.world_script.specs.Script.{most_text};
ghost use Rattle.cgf_jobs.specs.Run.{IsRead, TakesUpTo, may_have_written};
ghost use Rattle.cgf_jobs.specs.Job.{job_of};
ghost use Rattle.cgf_service.specs.ServeEnds.{IsUntouched, Serves, may_have_opened};
ghost use Rattle.cgf_service.specs.ServeSteps.{AreOf, CausesRead, IsSetBy, RefusesSettings, RefusesText, WritesLine};
ghost use Rattle.cgf_service.specs.Serving.{IsServingWithin};

use crate::gateway_end::GatewayEnd;
use crate::serving::Serving;
use crate::settling::serve_by;
use area_disk::Area;
use cdr_shelf::Shelf;
use cgf_jobs::{InputKind, MOST_SCRIPT_READ, ReadEnd, Status, read_input, write_all};
use gateway_book::laws::what_stands_is_ours;
use gw_base::{NoMemory, Sink, Source};
use net_link::Links;
use replay_gateway::{Settings, rules_of};
use route_filter::Rules;
use std::alloc::Global;
use std::sync::Wait;
use std::thread::Threads;
use std::time::Clock;
use world_script::{InputFault, Script, ScriptKind, read};

/// What decides the files of a gateway that serves.
#[derive(Drop)]
pub(crate) struct FileSettings {
    pub settings: Settings,
    pub rules: Rules,
}

/// Reads the settings of a gateway, opens it on the area and the shelf, lets four sessions answer for so many turns of
/// its link, settles it, and writes the counts of its history. A link or a clock that fails ends the serving, and the
/// gateway settles then. Where settings are refused or can't be read, nothing is touched.
pub fn serve_gateway<
    S: Source,
    K: Sink,
    A: Area + Send,
    F: Shelf + Send,
    L: Links,
    C: gw_base::Clock,
    R: Threads + Wait + Clock + Sync,
>(
    rt: &R,
    alloc: Global,
    serving: Serving,
    source: &mut S,
    sink: &mut K,
    area: A,
    shelf: F,
    links: &mut L,
    clock: &mut C,
) -> GatewayEnd<A, F>
where
    L::Link: Send,
    requires within { IsServingWithin serving }
    requires long { fewest_octets ≤ A.size area }
    requires short { A.size area ≤ most_octets }
    requires turns { (at : Addr) → (L.state links.old).turns at < 2 ^ 63 }
    ensures serves { (words : List (List ℕ)) → Serves A.Area F.Shelf serving
        (job_of S.Source K.Sink words source.old source.new sink.old sink.new)
        area result.area shelf result.shelf (L.state links.old) (L.state links.new) (C.faults clock.old)
        (C.faults clock.new) result.status None }
    ensures outside { may_have_opened result.status ≡ false →
        IsUntouched area result.area shelf result.shelf links.old links.new clock.old clock.new }
    ensures untouched { may_have_written result.status ≡ false → sink.new ≡ sink.old }
{
    what_stands_is_ours();
    let settings = match read_settings(alloc, source) {
        Ok(settings) => settings,
        Err(status) => return GatewayEnd {
            status,
            area,
            shelf,
        },
    };
    let (line, area, shelf) = serve_by(rt, alloc, serving, settings, area, shelf, links, clock);
    match line {
        Ok(line) => GatewayEnd {
            status: written(sink, &line),
            area,
            shelf,
        },
        Err(status) => GatewayEnd {
            status,
            area,
            shelf,
        },
    }
}

/// How the job ends that has a line to write.
fn written<K: Sink>(sink: &mut K, line: &[u8]) -> Status
    ensures { WritesLine line.now (K.written sink.old) (K.written sink.new) (K.faults sink.old) (K.faults sink.new)
        result }
{
    match write_all(sink, line) {
        Ok(()) => Status::Done,
        Err(_) => Status::Write,
    }
}

/// The settings that a source says, or how the job ends that has none.
fn read_settings<S: Source>(alloc: Global, source: &mut S) -> Result<FileSettings, Status>
    ensures ok { IfOk result (λ settings. (text : List ℕ)
        × IsRead (most_text + 1) (S.left source.old) (S.left source.new) text × IsSetBy text settings) }
    ensures err { IfErr result (RefusesSettings (S.left source.old) (S.left source.new)) }
    ensures cause { CausesRead (S.faults source.old) (S.faults source.new) result }
    ensures taken { TakesUpTo (most_text + 1) (S.left source.old) (S.left source.new) }
{
    let octets = match read_input(alloc, source, MOST_SCRIPT_READ) {
        Ok(octets) => octets,
        Err(ReadEnd::Failed) => return Err(Status::Read),
        Err(ReadEnd::NoMemory) => return Err(Status::Memory),
    };
    settings_in(alloc, &octets)
}

/// The settings that a text says, or how the job ends that has none.
fn settings_in(alloc: Global, text: &[u8]) -> Result<FileSettings, Status>
    ensures ok { IfOk result (IsSetBy text.now) }
    ensures err { IfErr result (RefusesText text.now) }
{
    match read(alloc, text, ScriptKind::Serve) {
        Ok(script) => match file_settings(alloc, &script) {
            Ok(settings) => Ok(settings),
            Err(NoMemory) => Err(Status::Memory),
        },
        Err(InputFault::Bad { place, kind }) => Err(Status::Input {
            place,
            kind: InputKind::from(kind),
        }),
        Err(InputFault::NoMemory) => Err(Status::Memory),
    }
}

/// The settings that a script says.
fn file_settings(alloc: Global, script: &Script) -> Result<FileSettings, NoMemory>
    ensures { IfOk result (AreOf (setup_of script.now.lines)) }
{
    Ok(FileSettings {
        settings: Settings::of(script),
        rules: rules_of(alloc, script)?,
    })
}
