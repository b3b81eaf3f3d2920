// The best of the links that enter a destination.
ghost use Rattle.std.specs.Prelude.{◌≡◌, ◌<◌, length};
ghost use Rattle.book.specs.Tables.{link_table};
ghost use Rattle.book.specs.Entries.{link_to};
ghost use Rattle.search.specs.steps.Tables.{as_entry};
ghost use Rattle.search.specs.steps.Arriving.{better_of, best_into, arrival_of};

use super::figures::{NO_WALK, UNREACHED};
use super::{Arrival, Label, Labels};
use book::{LinkNumber, NodeNumber};
use walk::CheckedBook;

// The better of the label held and the link's own, where the link is reached and enters the destination.
fn better_of(
    book: CheckedBook<'_>,
    destination: NodeNumber,
    links: Labels<'_>,
    link: LinkNumber,
    held: Label,
) -> Label
    requires sized { (length links.cost.now ≡ book.counts.links) × (length links.links.now ≡ book.counts.links) }
    requires exists { link.0 < book.counts.links }
    ensures { as_entry result ≡ better_of (link_to (link_table book.entry.bytes.now book.entry.counts)) links.entry.cost.now links.entry.links.now destination.0 link.0 (as_entry held) }
{
    if links.cost[usize::from(link.0)] == UNREACHED {
        return held;
    }
    let to = book.link_to(link);
    if to != destination {
        return held;
    }
    let label = links.own(link.0);
    if label.goes_ahead(held) {
        return label;
    }
    held
}

// The best label of the links that enter a destination, whose back is the link's own number; or no walk.
// Labels are folded, and made an `Option` at the end alone, since the clause folds entries from the one that has no walk.
#[tactic(auto, unfolding(crate::specs::steps::Arriving::best_into))]
fn best_label(book: CheckedBook<'_>, destination: NodeNumber, links: Labels<'_>) -> Label
    requires { (length links.cost.now ≡ book.counts.links) × (length links.links.now ≡ book.counts.links) }
    ensures { as_entry result ≡ best_into (link_to (link_table book.entry.bytes.now book.entry.counts)) links.entry.cost.now links.entry.links.now destination.0 book.entry.counts.links }
{
    let mut best = NO_WALK;
    // A checked book has at most 2,048 links: as a `u16` their count stays the same.
    for link in 0..book.counts.links as u16 {
        best = better_of(book, destination, links, LinkNumber(link), best);
    }
    best
}

// Document 01's last link of the route: of the links that enter the destination the best, with its figures.
#[tactic(auto, unfolding(crate::specs::steps::Arriving::arrival_of))]
pub fn best_into(
    book: CheckedBook<'_>,
    destination: NodeNumber,
    links: Labels<'_>,
) -> Option<Arrival>
    requires { (length links.cost.now ≡ book.counts.links) × (length links.links.now ≡ book.counts.links) }
    ensures { result ≡ arrival_of (best_into (link_to (link_table book.entry.bytes.now book.entry.counts)) links.entry.cost.now links.entry.links.now destination.0 book.entry.counts.links) }
{
    let label = best_label(book, destination, links);
    if label.cost == UNREACHED {
        return None;
    }
    Some(Arrival {
        link: LinkNumber(label.back),
        cost: label.cost,
        links: label.links,
    })
}
