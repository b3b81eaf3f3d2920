// Which fares are good: a table of one number a link and one a line, and what stands beside it, each within its limit.
ghost use Rattle.std.specs.Prelude.{◌≡◌};
ghost use Rattle.fare.specs.Fares.{all_within, table_good, terms_good, fares_good};

use super::{Fares, Terms};
use book::Counts;

// The most metres of a link, of the basic distance and of a step.
const MOST_METRES: u32 = 200000;

// The most won of a basic fare and of a premium.
const MOST_WON: u32 = 100000;

fn all_within(numbers: &[u32], most: u32) -> bool
    ensures { result ≡ all_within most numbers.now }
{
    numbers.iter().all(|number| *number <= most)
}

// The length is tested by a difference, since a sum of any two counts may not be held.
#[tactic(auto, using(crate::proofs::GoodFares::rest_whole), unfolding(crate::specs::Fares::table_good))]
fn table_good(counts: Counts, table: &[u32]) -> bool
    ensures { result ≡ table_good counts table.now }
{
    let links = counts.links;
    let end = table.len();
    if end < links {
        return false;
    }
    if end - links != counts.lines {
        return false;
    }
    all_within(&table[..links], MOST_METRES) & all_within(&table[links..], MOST_WON)
}

// Numbers are compared, not amounts: a limit is one for the table's numbers, of 32 bits, and for the terms, of 64.
#[tactic(auto, unfolding(crate::specs::Fares::terms_good))]
fn terms_good(terms: Terms) -> bool
    ensures { result ≡ terms_good terms }
{
    (terms.distance.0 <= u64::from(MOST_METRES))
        & ((terms.step.0 <= u64::from(MOST_METRES))
            & ((0 < terms.step.0) & (terms.premium.0 <= u64::from(MOST_WON))))
}

#[tactic(auto, unfolding(crate::specs::Fares::fares_good))]
pub fn fares_good(counts: Counts, fares: Fares<'_>) -> bool
    ensures { result ≡ fares_good counts fares.entry.table.now fares.entry.terms }
{
    table_good(counts, fares.table) & terms_good(fares.terms)
}
