//! What `show` prints for the octets of a CDR file.

ghost use Rattle.std.specs.Prelude.{◌≡◌, ◌<◌, IfOk, OnOk, Err, length};
ghost use Rattle.cgf_jobs.specs.Command.{most_read};
ghost use Rattle.cgf_jobs.specs.Steps.{IsReport, IsRefusal};
ghost use Rattle.cgf_jobs.specs.declared.command.Command.{Command};
ghost use Rattle.cgf_jobs.specs.declared.report.Refusal.{Refusal};

use crate::input_kind::InputKind;
use crate::report::{NoReport, Refusal, Report};
use cdr_file::{FileFault, list, read};
use std::alloc::Global;

/// The listing of a CDR file, or where its octets are none and why.
#[tactic(auto, using(crate::proofs::Whole::shown_within, crate::proofs::Whole::shown_refusal, crate::proofs::Whole::shown_none))]
pub fn report(alloc: Global, octets: Vec<u8>) -> Result<Report, NoReport>
    ensures within { OnOk result (length octets.items < most_read Command.Show) }
    ensures report { IfOk result (λ report. IsReport Command.Show octets.items report) }
    ensures refused { (refusal : Refusal) →
        result ≡ Err (NoReport.Refused refusal) → IsRefusal Command.Show octets.items refusal }
{
    let file = read(alloc, &octets);
    drop(octets);
    match file {
        Ok(file) => {
            let printed = list(alloc, &file)?;
            Ok(Report {
                printed,
                refused: None,
                played: None,
            })
        }
        Err(FileFault::Bad { place, kind }) => {
            let kind = InputKind::from(kind);
            Err(NoReport::Refused(Refusal { place, kind }))
        }
        Err(FileFault::NoMemory) => Err(NoReport::NoMemory),
    }
}
