// What has become of an answer is asked in a turn, and the history made firm where it isn't yet.
use area_disk::Area;
use gateway_book::laws::a_turn_owes;
use gateway_book::{Book, Settled};
use turn_cell::Turn;

/// The turn that asks what has become of an answer with this front, given when so many commits and openings again had
/// failed. It makes the history firm where the front isn't yet: another turn may have done it since. It names no
/// session.
#[derive(Drop)]
pub(crate) struct Committing {
    pub front: u64,
    pub faults: u64,
}

impl<A: Area> Turn<Book<A>> for Committing {
    ghost use Rattle.std.specs.Prelude.{None};
    ghost use Rattle.cgf_journal.specs.Trail.{firm_length};
    ghost use Rattle.gateway_book.specs.Turning.{facts_of, tells_lists};
    ghost use Rattle.node_session.specs.Turns.{Settles};

    type Answer = Settled;

    ghost session = { λ turn. None };

    ghost does = { λ turn found left answer drops added. Settles (tells_lists A.Area) turn.front turn.faults
        (facts_of found) (facts_of left) (firm_length found.trail) (firm_length left.trail) answer added };

    fn run(self, value: &mut Book<A>) -> Settled {
        a_turn_owes::<A>();
        let told = value.settled(self.front, self.faults);
        let Settled::NotYet { .. } = told else {
            return told;
        };
        let _committed = value.commit();
        value.settled(self.front, self.faults)
    }
}
