// A book as a value that many use in turn.
use crate::book::Book;
use crate::readying::length_at;
use area_disk::Area;
use gw_base::Counted;

impl<A: Area> Counted for Book<A> {
    ghost use Rattle.gateway_book.specs.Turning.{facts_of, tells_lists};

    ghost told = { tells_lists A.Area };

    ghost facts = { λ book. facts_of book };

    fn length(&self) -> u64 {
        let _entries = self.trail.length();
        length_at(self.cuts, self.trail.firm(), self.kept)
    }
}
