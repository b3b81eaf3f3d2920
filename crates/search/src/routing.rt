// Route: the tests in order, then the chosen walk's links.
ghost use Rattle.std.specs.Prelude.{◌≡◌, Ok};
ghost use Rattle.walk.specs.View.{view_of, walks_of};
ghost use Rattle.search.specs.Lent.{labels_in};
ghost use Rattle.search.specs.Route.{route_given_back, route_tests, RouteOnward, Routing};
ghost use Rattle.search.specs.steps.Routes.{RouteFrom};

use super::arriving::best_into;
use super::judging::Judge;
use super::tests::{length_test, node_test};
use super::tracing::trace;
use super::{Labels, RouteFigures, Routed};
use book::{MOST_TURNS, NodeNumber};
use walk::{CheckedBook, Refusal, Viewed, check, read_walks};

// Tests 14 and 15 over true labels, and the walk.
fn route_onward(
    view: Viewed<'_>,
    origin: NodeNumber,
    destination: NodeNumber,
    turn_back: &[u16],
    links: Labels<'_>,
    route: &mut [u16],
) -> Result<Routed, Refusal>
    requires from { RouteFrom view.book.bytes.now view.book.counts origin.0 turn_back.now (labels_in links) }
    requires own { view.walks.now ≡ walks_of view.book.bytes.now view.book.counts }
    ensures { RouteOnward (view_of view.entry.book.bytes.now view.entry.book.counts) origin.0 destination.0 route.old result route.new }
{
    if origin == destination {
        return Ok(Routed { cost: 0, links: 0 });
    }
    let Some(arrival) = best_into(view.book, destination, links) else {
        return Err(Refusal::NoWalk);
    };
    if route.len() < usize::from(arrival.links) {
        return Err(Refusal::NoRoom);
    }
    trace(
        view,
        turn_back,
        links.back,
        arrival.link,
        arrival.links,
        route,
    );
    Ok(Routed {
        cost: arrival.cost,
        links: arrival.links,
    })
}

// Test 13, and on where it passes.
fn route_judged<'l>(
    book: CheckedBook<'_>,
    origin: NodeNumber,
    destination: NodeNumber,
    turns: Labels<'l>,
    links: Labels<'l>,
    route: &mut [u16],
) -> Result<Routed, Refusal>
    requires { route_tests book.bytes.now origin.0 destination.0 (labels_in turns) (labels_in links) ≡ Ok book.counts }
    ensures { Routing book.entry.bytes.now origin.0 destination.0 (labels_in turns.entry) (labels_in links.entry) route.old result route.new }
{
    let count = book.counts.turns;
    // Room for the most turns, of which the book's own are used: there is no heap.
    let mut walks = [0u16; MOST_TURNS];
    read_walks(book, &mut walks[..count]);
    let view = Viewed {
        book,
        walks: &walks[..count],
    };
    let judged = Judge {
        view,
        origin,
        turns,
        links,
    };
    if !judged.all_true() {
        return Err(Refusal::UntrueLabel);
    }
    route_onward(view, origin, destination, turns.back, links, route)
}

// Document 01, "What can be asked": the labels are lent for reading only, and of the route buffer only the walk's own places are written.
pub fn route<'l>(
    book: &[u8],
    origin: NodeNumber,
    destination: NodeNumber,
    turns: Labels<'l>,
    links: Labels<'l>,
    route: &mut [u16],
) -> Result<Routed, Refusal>
    ensures { Routing book.now origin.0 destination.0 (labels_in turns.entry) (labels_in links.entry) route.old result route.new }
{
    let nodes_tested = node_test(node_test(check(book), origin), destination);
    let counts = length_test(nodes_tested, turns, links)?;
    route_judged(
        CheckedBook::carry(book, counts),
        origin,
        destination,
        turns,
        links,
        route,
    )
}

// Number, place, cost and number of links of an answer; `walk`'s has the first two alone, and the promise names `route_given_back`.
pub fn route_given_back(answer: Result<Routed, Refusal>) -> RouteFigures
    ensures { result ≡ route_given_back answer }
{
    match answer {
        Ok(routed) => RouteFigures {
            number: 0,
            place: 0,
            cost: routed.cost,
            links: routed.links,
        },
        Err(found) => RouteFigures {
            number: found.number(),
            place: found.place(),
            cost: 0,
            links: 0,
        },
    }
}
