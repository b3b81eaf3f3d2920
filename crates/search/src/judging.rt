// The judge: whether every entry of lent labels is the true one, by tests of each turn with its followers and of each link.
ghost use Rattle.std.specs.Prelude.{◌≡◌};
ghost use Rattle.walk.specs.View.{view_in, view_of, walks_of};
ghost use Rattle.walk.specs.Labels.{TrueLabels};
ghost use Rattle.search.specs.Lent.{labels_in};
ghost use Rattle.search.specs.steps.Tables.{Sized};
ghost use Rattle.search.specs.steps.Judging.{Tells};

use super::Labels;
use book::{MOST_TURNS, NodeNumber};
use walk::{CheckedBook, Viewed, read_walks};

// Labels lent to be judged, of as many entries as the book has turns and links.
#[derive(Clone, Copy)]
pub struct Judge<'v, 'l> {
    pub view: Viewed<'v>,
    pub origin: NodeNumber,
    pub turns: Labels<'l>,
    pub links: Labels<'l>,
    ghost turns_sized: { Sized view.book.counts.turns (labels_in turns) },
    ghost links_sized: { Sized view.book.counts.links (labels_in links) },
}

impl Judge<'_, '_> {
    // Whether every entry is the true one: one pass over turns, their followers and links, which reads only.
    pub fn all_true(self) -> bool
        requires { self.view.walks.now ≡ walks_of self.view.book.bytes.now self.view.book.counts }
        ensures { Tells result (TrueLabels (view_in self.entry.view) self.entry.origin.0 (labels_in self.entry.turns) (labels_in self.entry.links)) }
    {
        self.turns_stand() & self.links_stand()
    }
}

// Test 13: the judge, with the book's own walks.
pub fn labels_true<'l>(
    book: CheckedBook<'_>,
    origin: NodeNumber,
    turns: Labels<'l>,
    links: Labels<'l>,
) -> bool
    requires turns_sized { Sized book.counts.turns (labels_in turns) }
    requires links_sized { Sized book.counts.links (labels_in links) }
    ensures { Tells result (TrueLabels (view_of book.entry.bytes.now book.entry.counts) origin.0 (labels_in turns.entry) (labels_in links.entry)) }
{
    let count = book.counts.turns;
    // Room for the most turns, of which the book's own are used: there is no heap.
    let mut walks = [0u16; MOST_TURNS];
    read_walks(book, &mut walks[..count]);
    let view = Viewed {
        book,
        walks: &walks[..count],
    };
    let judged = Judge {
        view,
        origin,
        turns,
        links,
    };
    judged.all_true()
}
