ghost use Rattle.std.specs.Prelude.{◌≡◌, None};
ghost use Rattle.cdr_file.specs.Profile.{IsFiledKind, IsProfile, in_profile};
ghost use Rattle.gw_base.specs.CdrKind.{IsCdrKind};
ghost use Rattle.file_rotate.specs.Cutting.{IsSound, cut_of, mark_cuts, mark_file, record_cuts, record_file};
ghost use Rattle.file_rotate.specs.Items.{AreLimits};

use crate::cut::Cut;
use crate::limits::Limits;
use crate::open_file::{OpenFile, kind_change, limit_reached, mark_reason, still, with_record};
use cdr_file::FiledKind;
use gw_base::{CdrKind, Moment};
use std::marker::Model;

/// Cuts the records of one stream into files: it is told each item of the stream in order, and
/// answers where files are closed. No call takes memory.
#[derive(Clone, Copy)]
pub struct Cutter {
    limits: Limits,
    profile: u8,
    file: Option<OpenFile>,
}

impl Model for Cutter {
    ghost use Rattle.file_rotate.specs.Cutting.{Cutting, IsSound};

    ghost Value = { Cutting };

    ghost view = { λ cutter. record { limits = cutter.limits; profile = cutter.profile; file = cutter.file } };

    ghost inverse = { λ cutting. record { limits = cutting.limits; profile = cutting.profile; file = cutting.file } };

    ghost invariant = { λ cutter. IsSound cutter.limits cutter.profile cutter.file };
}

impl Cutter {
    /// A cutter with no open file, for files of profile 1 or 2.
    pub fn new(limits: Limits, profile: u8) -> Cutter
        requires limits { AreLimits limits }
        requires profile { IsProfile profile }
        ensures { result ≡ record { limits = limits; profile = profile; file = None } }
    {
        Cutter {
            limits,
            profile,
            file: None,
        }
    }

    /// A kind in the form of the cutter's profile.
    pub fn kind(&self, kind: CdrKind) -> FiledKind
        ensures kind { result ≡ in_profile self.now.profile kind }
        ensures fits { IsCdrKind kind → IsFiledKind result }
    {
        FiledKind::of(kind, self.profile)
    }

    /// The next item is a record of that many octets, filed at a moment.
    pub fn put(&mut self, kind: CdrKind, length: u16, moment: Moment) -> Cut
        ensures cut { let formed = in_profile self.old.profile kind in
            result ≡ cut_of (record_cuts self.old.limits self.old.file formed length moment) }
        ensures kept { let formed = in_profile self.old.profile kind in
            self.new ≡ record self.old { file = record_file self.old.limits self.old.file formed length moment } }
        ensures sound { IsSound self.old.limits self.old.profile self.old.file }
    {
        let kind = self.kind(kind);
        let before = kind_change(&self.file, kind);
        let going_on = still(before, self.file.take());
        let file = with_record(self.limits, going_on, kind, length, moment);
        let after = limit_reached(self.limits, &file);
        self.file = still(after, Some(file));
        Cut::of(before, after)
    }

    /// The next item is a Close if `closes`, else a Tick.
    pub fn mark(&mut self, closes: bool, moment: Moment) -> Cut
        ensures cut { result ≡ cut_of (mark_cuts self.old.limits self.old.file closes moment) }
        ensures kept { self.new ≡ record self.old { file = mark_file self.old.limits self.old.file closes moment } }
        ensures sound { IsSound self.old.limits self.old.profile self.old.file }
    {
        let before = mark_reason(&self.file, self.limits, closes, moment);
        self.file = still(before, self.file.take());
        Cut::of(before, None)
    }
}
