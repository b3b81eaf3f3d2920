// The turns that follow a link, and the turn from one link to another.
ghost use Rattle.std.specs.Prelude.{◌≡◌, ◌≤◌, ◌+◌};
ghost use Rattle.book.specs.Tables.{turn_table};
ghost use Rattle.book.specs.Runs.{run_from};
ghost use Rattle.walk.specs.View.{view_of};
ghost use Rattle.walk.specs.steps.Onward.{turn_found};

use book::{CheckedBook, LinkNumber, TurnNumber};
use std::ops::Range;

// The turns whose first link is this one.
pub fn followers(book: CheckedBook<'_>, link: LinkNumber) -> Range<u16>
    ensures start { result.start ≡ run_from (turn_table book.entry.bytes.now book.entry.counts) book.entry.counts.turns link.0 }
    ensures end { result.end ≡ run_from (turn_table book.entry.bytes.now book.entry.counts) book.entry.counts.turns (link.0 + 1) }
    ensures within { (result.start ≤ result.end) × (result.end ≤ book.entry.counts.turns) }
{
    let number = usize::from(link.0);
    // a checked book has at most 4,096 turns, so a conversion that can fail would need an error that cannot happen
    let start = book.turns_from(number) as u16;
    let end = book.turns_from(number + 1) as u16;
    start..end
}

// The turn from one link to the other, if there is one.
pub fn turn_of(book: CheckedBook<'_>, first: LinkNumber, second: LinkNumber) -> Option<TurnNumber>
    ensures { result ≡ turn_found (view_of book.entry.bytes.now book.entry.counts) first.0 second.0 }
{
    followers(book, first)
        .find(|turn| book.turn_second(TurnNumber(*turn)) == second)
        .map(TurnNumber)
}
