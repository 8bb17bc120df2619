ghost use Rattle.std.specs.Prelude.{◌≡◌, ◌<◌, ◌^◌, Some, map};
ghost use Rattle.gw_base.specs.Nearest.{nearest};
ghost use Rattle.node_core.specs.Copies.{names};

use gtpp_elements::Numbers;
use gw_base::nearest_number;
use std::marker::Model;

/// The request numbers that a response speaks for: each is the whole number nearest to the last
/// one that was drawn for the gateway.
#[derive(Drop)]
pub(crate) struct Responded<'a> {
    numbers: Numbers<'a>,
    last: u64,
}

impl<'a> Model for Responded<'a> {
    ghost use Rattle.std.specs.Prelude.{◌<◌, ◌^◌, List, ℕ, Some, map};
    ghost use Rattle.gw_base.specs.Nearest.{nearest};

    ghost Value = { List ℕ };

    ghost view = { λ r. map (nearest (Some r.last)) r.numbers };

    ghost invariant = { λ r. r.last < 2 ^ 63 };
}

impl<'a> Responded<'a> {
    /// These numbers, where `last` was drawn last.
    pub fn new(numbers: Numbers<'a>, last: u64) -> Responded<'a>
        requires { last < 2 ^ 63 }
        ensures { result ≡ map (nearest (Some last)) numbers.entry }
    {
        Responded { numbers, last }
    }

    /// Whether it speaks for this number.
    #[tactic(auto, using(crate::proofs::CopiesLemmas::names_more, crate::proofs::CopiesLemmas::names_none))]
    pub fn names(&self, number: u64) -> bool
        ensures { result ≡ names self.now number }
    {
        for k in 0..self.numbers.count() {
            if nearest_number(Some(self.last), self.numbers.at(k)) == number {
                return true;
            }
        }
        false
    }
}
