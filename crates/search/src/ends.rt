// The links' entries in one pass over the turns.
ghost use Rattle.std.specs.Prelude.{◌≡◌, ◌<◌};
ghost use Rattle.walk.specs.View.{view_in};
ghost use Rattle.search.specs.Lent.{labels_in, table_in, SameBuffers};
ghost use Rattle.search.specs.steps.Tables.{Sized};
ghost use Rattle.search.specs.steps.Ends.{ended_once, ended_by};

use super::figures::UNREACHED;
use super::{Labels, LabelsMut};
use book::TurnNumber;
use walk::Viewed;

// The turn, where it is reached, offers its figures to the link that it ends with.
fn end_turn(view: Viewed<'_>, turns: Labels<'_>, turn: TurnNumber, links: &mut LabelsMut<'_>)
    requires turns_sized { Sized view.book.counts.turns (labels_in turns) × (turn.0 < view.book.counts.turns) }
    requires links_sized { Sized view.book.counts.links (table_in links.old) }
    ensures ended { table_in links.new ≡ ended_once (view_in view.entry).second turns.entry.cost.now turns.entry.links.now turn.0 (table_in links.old) }
    ensures same { SameBuffers links.old links.new }
{
    if turns.cost[usize::from(turn.0)] == UNREACHED {
        return;
    }
    let link = view.turn_second(turn);
    links.offer(usize::from(link.0), turns.own(turn.0));
}

// Each reached turn offers its figures to the link that it ends with.
pub fn end_turns(view: Viewed<'_>, turns: Labels<'_>, links: &mut LabelsMut<'_>)
    requires turns_sized { Sized view.book.counts.turns (labels_in turns) }
    requires links_sized { Sized view.book.counts.links (table_in links.old) }
    ensures ended { table_in links.new ≡ ended_by (view_in view.entry).second turns.entry.cost.now turns.entry.links.now view.entry.book.counts.turns (table_in links.old) }
    ensures same { SameBuffers links.old links.new }
{
    // A checked book has at most 4,096 turns: as a `u16` their count stays the same.
    for turn in 0..view.book.counts.turns as u16 {
        end_turn(view, turns, TurnNumber(turn), links);
    }
}
