// Label setting: until none is left, the least candidate is settled and its label passed on.
ghost use Rattle.std.specs.Prelude.{◌≡◌, ℕ, true, ◌<◌, length, get_or, set};
ghost use Rattle.walk.specs.View.{view_in, walks_of};
ghost use Rattle.walk.specs.Labels.{entry_at, TrueTurn, TrueTable};
ghost use Rattle.search.specs.Lent.{table_in, SameBuffers};
ghost use Rattle.search.specs.steps.Tables.{table_up_to, Sized};
ghost use Rattle.search.specs.steps.Starts.{start_entry};
ghost use Rattle.search.specs.steps.Passing.{StepFits, passed_to};

use super::LabelsMut;
use super::passing::spread;
use super::starts::start_turns;
use book::{MOST_TURNS, NodeNumber, TurnNumber};
use walk::Viewed;

fn settle(view: Viewed<'_>, turn: TurnNumber, settled: &mut [bool], turns: &mut LabelsMut<'_>)
    requires sized { Sized view.book.counts.turns (table_in turns.old) }
    requires marked { (length settled.old ≡ view.book.counts.turns) × (turn.0 < view.book.counts.turns) }
    requires fits { StepFits (get_or turns.old.cost.now turn.0 0) (get_or turns.old.links.now turn.0 0) }
    ensures marked { settled.new ≡ set settled.old turn.0 true }
    ensures passed { table_in turns.new ≡ table_up_to view.entry.book.counts.turns (λ t. passed_to (view_in view.entry) turn.0 (get_or turns.old.cost.now turn.0 0) (get_or turns.old.links.now turn.0 0) (entry_at (table_in turns.old) t) t) }
    ensures same { SameBuffers turns.old turns.new }
{
    settled[usize::from(turn.0)] = true;
    let label = turns.lent().at(usize::from(turn.0));
    spread(view, turn, label, turns);
}

// From the turns' starts to their true entries; the marks are its own.
fn settle_all(view: Viewed<'_>, turns: &mut LabelsMut<'_>)
    requires own { view.walks.now ≡ walks_of view.book.bytes.now view.book.counts }
    requires started { (r : ℕ) × (table_in turns.old ≡ table_up_to view.book.counts.turns (start_entry (view_in view) r)) }
    ensures settled { (r : ℕ) → table_in turns.old ≡ table_up_to view.entry.book.counts.turns (start_entry (view_in view.entry) r) → TrueTable view.entry.book.counts.turns (TrueTurn (view_in view.entry) r) (table_in turns.new) }
    ensures same { SameBuffers turns.old turns.new }
{
    let count = view.book.counts.turns;
    // Room for the most turns, of which the book's own are used: there is no heap.
    let mut settled = [false; MOST_TURNS];
    'settling: while let Some(turn) = turns.lent().pick(&settled[..count]) {
        settle(view, turn, &mut settled[..count], turns);
    }
}

// Every turn's entry, from this origin.
pub fn label_turns(view: Viewed<'_>, origin: NodeNumber, turns: &mut LabelsMut<'_>)
    requires own { view.walks.now ≡ walks_of view.book.bytes.now view.book.counts }
    requires sized { Sized view.book.counts.turns (table_in turns.old) }
    ensures labelled { TrueTable view.entry.book.counts.turns (TrueTurn (view_in view.entry) origin.0) (table_in turns.new) }
    ensures same { SameBuffers turns.old turns.new }
{
    start_turns(view, origin, turns);
    settle_all(view, turns);
}
