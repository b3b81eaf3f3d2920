// The book's own walks, read once into a lent slice.
ghost use Rattle.std.specs.Prelude.{◌≡◌, length};
ghost use Rattle.walk.specs.View.{walks_of};

use book::{CheckedBook, TurnNumber};

pub fn read_walks(book: CheckedBook<'_>, walks: &mut [u16])
    requires { length walks.old ≡ book.counts.turns }
    ensures { walks.new ≡ walks_of book.entry.bytes.now book.entry.counts }
{
    for (turn, walk) in walks.iter_mut().enumerate() {
        // a checked book has at most 4,096 turns, so a conversion that can fail would need an error that cannot happen
        *walk = book.turn_walk(TurnNumber(turn as u16));
    }
}
