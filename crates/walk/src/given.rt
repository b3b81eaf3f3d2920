// The cost of a given walk, and where its minutes go.
ghost use Rattle.std.specs.Prelude.{◌≡◌, ◌≤◌, ◌<◌, ◌∷◌, Ok, length};
ghost use Rattle.walk.specs.declared.NoCost.TheVariants.{Refused};
ghost use Rattle.walk.specs.View.{view_in, view_of, walks_of};
ghost use Rattle.walk.specs.Given.{most_links_given, cost_answer, cost_of_walk};
ghost use Rattle.walk.specs.steps.Onward.{walk_answer};

use super::figures::MOST_LINKS_GIVEN;
use super::walks::read_walks;
use super::{Costed, NoCost, Split, Viewed};
use book::{CheckedBook, LinkNumber, MOST_TURNS, NodeNumber, Refusal, check};

impl From<Refusal> for NoCost {
    ghost from_gives = { λ found none. none ≡ Refused found };

    fn from(found: Refusal) -> NoCost {
        NoCost::Refused(found)
    }
}

impl Viewed<'_> {
    // The walk from where its first link begins, followed link by link.
    fn cost_onward(self, first: LinkNumber, rest: &[u16]) -> Result<Costed, NoCost>
        requires own { self.walks.now ≡ walks_of self.book.bytes.now self.book.counts }
        requires few_links { length rest.now < most_links_given }
        requires begins { first.0 < self.book.counts.links }
        ensures { result ≡ walk_answer (view_in self.entry) ((view_in self.entry).from first.0) (first.0 ∷ rest.now) }
    {
        let mut last = first;
        let mut before = None;
        let mut split = self.link_split(first);
        for number in rest {
            let link = LinkNumber(*number);
            let Some(added) = self.advance(before, last, link) else {
                return Err(NoCost::NotPermitted);
            };
            last = link;
            before = Some(added.turn);
            split = split.together(added.split);
        }
        Ok(Costed {
            cost: split.total(),
            split,
        })
    }

    // The walk from the origin: it has no links, or its first one leaves the origin.
    fn cost_along(self, origin: NodeNumber, links: &[u16]) -> Result<Costed, NoCost>
        requires own { self.walks.now ≡ walks_of self.book.bytes.now self.book.counts }
        requires few_links { length links.now ≤ most_links_given }
        ensures { result ≡ walk_answer (view_in self.entry) origin.0 links.now }
    {
        let Some((number, rest)) = links.split_first() else {
            return Ok(Costed {
                cost: 0,
                split: Split::default(),
            });
        };
        if self.book.counts.links <= usize::from(*number) {
            return Err(NoCost::NotPermitted);
        }
        let first = LinkNumber(*number);
        if self.link_from(first) != origin {
            return Err(NoCost::NotPermitted);
        }
        self.cost_onward(first, rest)
    }
}

// The answer on a checked book: the origin, then the length, then the walk.
fn cost_in(book: CheckedBook<'_>, origin: NodeNumber, links: &[u16]) -> Result<Costed, NoCost>
    ensures { result ≡ cost_answer (Ok book.entry.counts) book.entry.bytes.now origin.0 links.now }
{
    if book.counts.nodes <= usize::from(origin.0) {
        return Err(NoCost::Refused(Refusal::NoNode));
    }
    if MOST_LINKS_GIVEN < links.len() {
        return Err(NoCost::TooLong);
    }
    let turns = book.counts.turns;
    let mut walks = [0u16; MOST_TURNS];
    read_walks(book, &mut walks[..turns]);
    let view = Viewed {
        book,
        walks: &walks[..turns],
    };
    view.cost_along(origin, links)
}

// A walk is given as its link numbers in travel order.
pub fn cost_of(book: &[u8], origin: NodeNumber, links: &[u16]) -> Result<Costed, NoCost>
    ensures { result ≡ cost_of_walk book.now origin.0 links.now }
{
    let counts = check(book)?;
    cost_in(CheckedBook::carry(book, counts), origin, links)
}
