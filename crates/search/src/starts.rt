// The entries that need no turn before them.
ghost use Rattle.std.specs.Prelude.{◌≡◌, ◌<◌};
ghost use Rattle.walk.specs.View.{view_in};
ghost use Rattle.search.specs.Lent.{table_in, SameBuffers};
ghost use Rattle.search.specs.steps.Tables.{as_entry, table_up_to, Sized};
ghost use Rattle.search.specs.steps.Starts.{start_entry, alone_entry};

use super::figures::NO_WALK;
use super::{Label, LabelsMut};
use book::{BARRED, LinkNumber, NodeNumber, TurnNumber};
use walk::{START_BACK, Viewed, link_cost};

// A turn of two links, where it is open and its first link leaves the origin.
pub fn start_of(view: Viewed<'_>, origin: NodeNumber, turn: TurnNumber) -> Label
    requires { turn.0 < view.book.counts.turns }
    ensures { as_entry result ≡ start_entry (view_in view.entry) origin.0 turn.0 }
{
    if view.walks[usize::from(turn.0)] == BARRED {
        return NO_WALK;
    }
    let first = view.turn_first(turn);
    let from = view.link_from(first);
    if from != origin {
        return NO_WALK;
    }
    Label {
        cost: link_cost(view.book, first) + view.turn_cost(turn),
        links: 2,
        back: START_BACK,
    }
}

pub fn start_turns(view: Viewed<'_>, origin: NodeNumber, turns: &mut LabelsMut<'_>)
    requires { Sized view.book.counts.turns (table_in turns.old) }
    ensures started { table_in turns.new ≡ table_up_to view.entry.book.counts.turns (start_entry (view_in view.entry) origin.0) }
    ensures same { SameBuffers turns.old turns.new }
{
    turns.fill(view.book.counts.turns, |turn| {
        start_of(view, origin, TurnNumber(turn))
    });
}

// A walk of one link, where it leaves the origin.
pub fn alone(view: Viewed<'_>, origin: NodeNumber, link: LinkNumber) -> Label
    requires { link.0 < view.book.counts.links }
    ensures { as_entry result ≡ alone_entry (view_in view.entry) origin.0 link.0 }
{
    let from = view.link_from(link);
    if from != origin {
        return NO_WALK;
    }
    Label {
        cost: link_cost(view.book, link),
        links: 1,
        back: START_BACK,
    }
}

pub fn start_links(view: Viewed<'_>, origin: NodeNumber, links: &mut LabelsMut<'_>)
    requires { Sized view.book.counts.links (table_in links.old) }
    ensures started { table_in links.new ≡ table_up_to view.entry.book.counts.links (alone_entry (view_in view.entry) origin.0) }
    ensures same { SameBuffers links.old links.new }
{
    links.fill(view.book.counts.links, |link| {
        alone(view, origin, LinkNumber(link))
    });
}
