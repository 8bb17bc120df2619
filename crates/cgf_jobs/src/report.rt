use crate::input_kind::InputKind;
use gw_base::NoMemory;
use replay_world::Played;

/// The first place of an input that is refused.
#[derive(Clone, Copy)]
pub struct Refusal {
    /// The number of a script's line, from 1, or the place of a file's octet, from 0.
    pub place: u64,
    pub kind: InputKind,
}

/// What is printed for an input; its first place that can't be run, where there is one; and the network that was run to
/// its end, where one was.
#[derive(Drop)]
pub struct Report {
    pub printed: Vec<u8>,
    pub refused: Option<Refusal>,
    pub played: Option<Played>,
}

/// Why there is nothing to print.
#[derive(Clone, Copy)]
pub enum NoReport {
    /// The grammar refuses the input.
    Refused(Refusal),
    /// There was no memory for the job.
    NoMemory,
}

impl From<NoMemory> for NoReport {
    ghost use Rattle.std.specs.Prelude.{◌≡◌};
    ghost use Rattle.cgf_jobs.specs.declared.report.NoReport.TheVariants as none;

    ghost from_gives = { λ _ e. e ≡ none.NoMemory };

    fn from(_: NoMemory) -> Self {
        NoReport::NoMemory
    }
}
