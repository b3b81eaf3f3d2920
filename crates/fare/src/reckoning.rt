// The fare of a list of links: its metres and its dearest basic fare, each by one pass, then the premiums.
ghost use Rattle.std.specs.Prelude.{◌≡◌, true, ◌<◌, ◌≤◌};
ghost use Rattle.book.specs.Tables.{link_table};
ghost use Rattle.book.specs.Entries.{link_line};
ghost use Rattle.walk.specs.View.{view_of};
ghost use Rattle.fare.specs.Fares.{metres_in, basic_in, most_metres, most_won, fares_good, fares_of};
ghost use Rattle.fare.specs.Fare.{ridden, dearest, fare_of};
ghost use Rattle.fare.specs.steps.Reckoning.{LinksGiven};

use super::{Fares, Metres, Won};
use book::LinkNumber;
use search::CheckedBook;

// A checked book and fares that are good for it.
#[derive(Clone, Copy)]
struct CheckedFares<'a> {
    book: CheckedBook<'a>,
    fares: Fares<'a>,
    ghost good: { fares_good book.counts fares.table.now fares.terms ≡ true },
}

impl CheckedFares<'_> {
    #[tactic(auto, using(crate::proofs::GoodFares::fares_tabled, crate::proofs::GoodFares::link_inside, crate::proofs::GoodFares::metres_within))]
    fn link_metres(self, link: LinkNumber) -> Metres
        requires { link.0 < self.book.counts.links }
        ensures told { result ≡ metres_in self.entry.fares.table.now link.0 }
        ensures most { result.0 ≤ most_metres }
    {
        Metres(u64::from(self.fares.table[usize::from(link.0)]))
    }

    #[tactic(auto, using(crate::proofs::GoodFares::fares_tabled, crate::proofs::GoodFares::line_inside, crate::proofs::GoodFares::basic_within))]
    fn link_basic(self, link: LinkNumber) -> Won
        requires { link.0 < self.book.counts.links }
        ensures told { result ≡ basic_in self.entry.book.counts.links self.entry.fares.table.now (link_line (link_table self.entry.book.bytes.now self.entry.book.counts) link.0) }
        ensures most { result.0 ≤ most_won }
    {
        let at = self.book.counts.links + usize::from(self.book.link_line(link));
        Won(u64::from(self.fares.table[at]))
    }

    #[tactic(auto, using(crate::proofs::GoodFares::link_exists))]
    fn metres_ridden(self, links: &[u16]) -> Metres
        requires { LinksGiven self.book.counts links.now }
        ensures { result ≡ ridden (metres_in self.entry.fares.table.now) links.now }
    {
        // a `for`: `together` asks that the sum so far fits, which the invariant bounds by the links passed
        let mut metres = Metres(0);
        for link in links {
            metres = metres.together(self.link_metres(LinkNumber(*link)));
        }
        metres
    }

    #[tactic(auto, using(crate::proofs::GoodFares::link_exists))]
    fn dearest_basic(self, links: &[u16]) -> Won
        requires { LinksGiven self.book.counts links.now }
        ensures { result ≡ dearest (λ l. basic_in self.entry.book.counts.links self.entry.fares.table.now (link_line (link_table self.entry.book.bytes.now self.entry.book.counts) l)) links.now }
    {
        // a `for`: its invariant is all the proof, and a fold from the front would have to be turned into the definition, which goes from the back
        let mut basic = Won(0);
        for link in links {
            basic = basic.dearer(self.link_basic(LinkNumber(*link)));
        }
        basic
    }
}

// Document 02, request 3: the dearest basic fare among the lines ridden, plus a premium for each started step beyond the basic distance.
#[tactic(auto, using(crate::proofs::GoodFares::step_long, crate::proofs::FareLaws::fare_none))]
pub fn fare_of(book: CheckedBook<'_>, fares: Fares<'_>, links: &[u16]) -> Won
    requires good { fares_good book.counts fares.table.now fares.terms ≡ true }
    requires given { LinksGiven book.counts links.now }
    ensures { result ≡ fare_of (fares_of (view_of book.entry.bytes.now book.entry.counts) fares.entry.table.now fares.entry.terms) links.now }
{
    if links.is_empty() {
        return Won(0);
    }
    let terms = fares.terms;
    let checked = CheckedFares { book, fares };
    let metres = checked.metres_ridden(links).beyond(terms.distance);
    let premiums = terms.premium.times(metres.started_steps(terms.step));
    checked.dearest_basic(links).plus(premiums)
}
