// The turns of links that were taken back, by their addresses.
ghost use Rattle.std.specs.Prelude.{◌≡◌, ◌<◌, length};
ghost use Rattle.std.specs.List.{HoldsAt};
ghost use Rattle.net_link.specs.Turns.{CountsMore, IsListed, raised};

use gw_base::Addr;

/// Turns that were taken at an address.
#[derive(Clone, Copy)]
pub struct Tally {
    pub at: Addr,
    pub turns: u64,
}

impl Tally {
    // The tally with more turns.
    fn raised(self, more: u64) -> Tally
        ensures { result ≡ raised self more }
    {
        Tally {
            at: self.at,
            turns: self.turns.saturating_add(more),
        }
    }
}

// The place of a tally for this address.
#[tactic(auto, using(crate::proofs::TurnLemmas::at_same, crate::proofs::TurnLemmas::at_apart))]
fn find(tallies: &[Tally], at: Addr) -> usize
    requires { IsListed at tallies.now }
    ensures within { result < length tallies.now }
    ensures at { HoldsAt (λ tally. tally.at ≡ at) tallies.now result }
{
    for i in 0..tallies.len() {
        let tally = tallies[i];
        if tally.at == at {
            return i;
        }
    }
    unreachable!()
}

// Adds turns at an address that has a tally.
pub(crate) fn add(tallies: &mut [Tally], at: Addr, turns: u64)
    requires { IsListed at tallies.old }
    ensures { CountsMore at turns tallies.old tallies.new }
{
    let place = find(tallies, at);
    tallies[place] = tallies[place].raised(turns);
}
