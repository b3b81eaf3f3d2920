// The plan: a search of a good book, then the route, with label buffers of the sheet's own.
ghost use Rattle.std.specs.Prelude.{◌≤◌, length};
ghost use Rattle.search.specs.Lent.{table_in, SameBuffers};
ghost use Rattle.search.specs.steps.Routes.{route_room};
ghost use Rattle.search.specs.steps.Tables.{Sized};
ghost use Rattle.sheet.specs.steps.Planning.{Found, Labelled};

use super::Way;
use book::{MOST_LINKS, MOST_TURNS};
use search::{CheckedBook, LabelsMut, Refusal, Routed, route, search};

// The route reads the labels that the search leaves, so it finds them true.
fn plan_search(
    book: CheckedBook<'_>,
    way: Way,
    turns: &mut LabelsMut<'_>,
    links: &mut LabelsMut<'_>,
    walk: &mut [u16],
) -> Result<Routed, Refusal>
    requires turns_sized { Sized book.counts.turns (table_in turns.old) }
    requires links_sized { Sized book.counts.links (table_in links.old) }
    requires room { route_room ≤ length walk.old }
    ensures found { Found book.entry.bytes.now way.origin.0 way.destination.0 walk.old result walk.new }
    ensures labelled { Labelled book.entry.bytes.now way.origin.0 (table_in turns.old) (table_in links.old) (table_in turns.new) (table_in links.new) }
    ensures same { SameBuffers turns.old turns.new × SameBuffers links.old links.new }
{
    search(book.bytes, way.origin, turns, links)?;
    route(
        book.bytes,
        way.origin,
        way.destination,
        turns.lent(),
        links.lent(),
        walk,
    )
}

// The label buffers are cut to the book's counts from arrays for the largest book, since there is no heap.
pub fn plan(book: CheckedBook<'_>, way: Way, walk: &mut [u16]) -> Result<Routed, Refusal>
    requires { route_room ≤ length walk.old }
    ensures { Found book.entry.bytes.now way.origin.0 way.destination.0 walk.old result walk.new }
{
    let turns = book.counts.turns;
    let links = book.counts.links;
    let mut turn_cost = [0u32; MOST_TURNS];
    let mut turn_links = [0u16; MOST_TURNS];
    let mut turn_back = [0u16; MOST_TURNS];
    let mut link_cost = [0u32; MOST_LINKS];
    let mut link_links = [0u16; MOST_LINKS];
    let mut link_back = [0u16; MOST_LINKS];
    let mut turn_labels = LabelsMut {
        cost: &mut turn_cost[..turns],
        links: &mut turn_links[..turns],
        back: &mut turn_back[..turns],
    };
    let mut link_labels = LabelsMut {
        cost: &mut link_cost[..links],
        links: &mut link_links[..links],
        back: &mut link_back[..links],
    };
    plan_search(book, way, &mut turn_labels, &mut link_labels, walk)
}
