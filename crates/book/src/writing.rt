// The write of one turn's walk into a checked book.
ghost use Rattle.std.specs.Prelude.{◌≡◌, ◌<◌, Ok};
ghost use Rattle.book.specs.Check.{check_of};
ghost use Rattle.book.specs.Changes.{with_walk};

use super::numbers::write_number;
use super::tables::{JOIN_BYTES, turns_at};
use super::{Counts, TurnNumber};

// Writes a turn's two walk bytes, and no other byte.
pub fn write_walk(book: &mut [u8], counts: Counts, turn: TurnNumber, walk: u16)
    requires { (check_of book.old ≡ Ok counts) × (turn.0 < counts.turns) }
    ensures { book.new ≡ with_walk book.old counts turn.0 walk }
{
    let entry = turns_at(counts) + JOIN_BYTES * usize::from(turn.0);
    write_number(book, entry + 4, walk);
}
