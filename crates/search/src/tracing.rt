// Reading a route back, one link at a time.
ghost use Rattle.std.specs.Prelude.{◌≡◌, length};
ghost use Rattle.walk.specs.View.{view_in};
ghost use Rattle.search.specs.steps.Trails.{Trail, LinkTrail, Traced, Written};

use book::{LinkNumber, TurnNumber};
use walk::{START_BACK, Viewed};

// Writes the walk that ends with this turn, of this many links, at the front of the route; the view is passed by reference, since each link takes a frame.
fn read_back(view: &Viewed<'_>, back: &[u16], turn: TurnNumber, links: u16, route: &mut [u16])
    requires sized { length back.now ≡ view.now.book.counts.turns }
    requires traced { Traced (Trail (view_in view.now) back.now turn.0) links (length route.old) }
    ensures { Written (Trail (view_in view.now) back.now turn.0) route.old route.new }
{
    let second = view.turn_second(turn);
    let at = links - 1;
    route[usize::from(at)] = second.0;
    let before = back[usize::from(turn.0)];
    if before == START_BACK {
        let first = view.turn_first(turn);
        route[0] = first.0;
        return;
    }
    read_back(view, back, TurnNumber(before), at, route);
}

// Writes the walk that ends with this link, of this many links, at the front of the route.
pub fn trace(
    view: Viewed<'_>,
    turn_back: &[u16],
    link_back: &[u16],
    link: LinkNumber,
    links: u16,
    route: &mut [u16],
)
    requires sized { (length turn_back.now ≡ view.book.counts.turns) × (length link_back.now ≡ view.book.counts.links) }
    requires traced { Traced (LinkTrail (view_in view) turn_back.now link_back.now link.0) links (length route.old) }
    ensures { Written (LinkTrail (view_in view.entry) turn_back.now link_back.now link.0) route.old route.new }
{
    let turn = link_back[usize::from(link.0)];
    if turn == START_BACK {
        route[0] = link.0;
        return;
    }
    read_back(&view, turn_back, TurnNumber(turn), links, route);
}
