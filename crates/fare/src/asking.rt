// The fare of a route: Route's own question with the fare table beside it.
ghost use Rattle.std.specs.Prelude.{◌≡◌};
ghost use Rattle.search.specs.Lent.{labels_in};
ghost use Rattle.fare.specs.Asked.{fare_given_back, Faring};
ghost use Rattle.fare.specs.steps.Reckoning.{LinksGiven, FoundFare};

use super::reckoning::fare_of;
use super::tables::fares_good;
use super::{FareFigures, Fared, Fares, Won};
use book::NodeNumber;
use search::{CheckedBook, Labels, ROUTE_ROOM, Refusal, check, route};

// Tests 15 and 17 of a walk that was found; only then is a link of it written. At most 65,535 links are given, so their count is held by 16 bits.
fn fare_found(
    book: CheckedBook<'_>,
    cost: u32,
    links: &[u16],
    buffer: &mut [u16],
    fares: Fares<'_>,
) -> Result<Fared, Refusal>
    requires { LinksGiven book.counts links.now }
    ensures { FoundFare book.entry.bytes.now book.entry.counts fares.entry.table.now fares.entry.terms cost links.now buffer.old result buffer.new }
{
    let count = links.len();
    if buffer.len() < count {
        return Err(Refusal::NoRoom);
    }
    if !fares_good(book.counts, fares) {
        return Err(Refusal::Fares);
    }
    buffer[..count].copy_from_slice(links);
    Ok(Fared {
        cost,
        links: count as u16,
        fare: fare_of(book, fares, links),
    })
}

// Document 02, request 3: asked as Route is, with the fare table. Route is asked with room for every walk, so that 17 leaves the lent buffer as it was.
pub fn fare<'l>(
    book: &[u8],
    origin: NodeNumber,
    destination: NodeNumber,
    turns: Labels<'l>,
    links: Labels<'l>,
    buffer: &mut [u16],
    fares: Fares<'_>,
) -> Result<Fared, Refusal>
    ensures { Faring book.now origin.0 destination.0 (labels_in turns.entry) (labels_in links.entry) buffer.old fares.entry.table.now fares.entry.terms result buffer.new }
{
    let counts = check(book)?;
    // cut to the walk's links, since there is no heap
    let mut walk = [0u16; ROUTE_ROOM];
    let found = route(book, origin, destination, turns, links, &mut walk)?;
    fare_found(
        CheckedBook::carry(book, counts),
        found.cost,
        &walk[..usize::from(found.links)],
        buffer,
        fares,
    )
}

// Number, place, cost, number of links and fare of an answer.
pub fn fare_given_back(answer: Result<Fared, Refusal>) -> FareFigures
    ensures { result ≡ fare_given_back answer }
{
    match answer {
        Ok(done) => FareFigures {
            number: 0,
            place: 0,
            cost: done.cost,
            links: done.links,
            fare: done.fare,
        },
        Err(found) => FareFigures {
            number: found.number(),
            place: found.place(),
            cost: 0,
            links: 0,
            fare: Won(0),
        },
    }
}
