// Where the run of a first number begins in the turn table or in the pair table. Both ascend, so it is found by halving.
ghost use Rattle.std.specs.Prelude.{◌≡◌, true, ℕ, ◌≤◌, ◌<◌};
ghost use Rattle.book.specs.Entries.{ascends};
ghost use Rattle.book.specs.Runs.{run_from};

use super::tables::{Entries, JOIN_BYTES};

// The first entry whose first number is n or more, or the count.
pub fn run_from(joins: Entries<'_, JOIN_BYTES>, n: usize) -> usize
    requires { (k : ℕ) → k < joins.count → ascends joins.bytes.now k ≡ true }
    ensures value { result ≡ run_from joins.entry.bytes.now joins.entry.count n }
    ensures within { result ≤ joins.entry.count }
{
    let mut low = 0;
    let mut high = joins.count;
    // halved by hand: no iterator goes on with one half of a range, and `partition_point` is of slices, so the table would have to be cut into entries whose fields are led back to those that the definitions read in its bytes
    'halving: while low < high {
        let middle = low + (high - low) / 2;
        let first = usize::from(joins.field(0, middle));
        if first < n {
            low = middle + 1;
        } else {
            high = middle;
        }
    }
    low
}
