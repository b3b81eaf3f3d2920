// A settled turn's label passed on to the turns that may follow it.
ghost use Rattle.std.specs.Prelude.{◌≡◌, ◌≤◌, ◌<◌, ℕ, None, Some, get_or, MatchOption};
ghost use Rattle.book.specs.Tables.{pair_table};
ghost use Rattle.walk.specs.View.{view_in};
ghost use Rattle.walk.specs.Walks.{look_up};
ghost use Rattle.walk.specs.Labels.{entry_at};
ghost use Rattle.walk.specs.steps.Pairs.{listed_at, step_to};
ghost use Rattle.search.specs.Lent.{table_in, SameBuffers};
ghost use Rattle.search.specs.steps.Tables.{as_entry, one_turn_on, table_up_to, Sized};
ghost use Rattle.search.specs.steps.Passing.{StepFits, passed_by, passed_to};

use super::{Label, LabelsMut};
use book::TurnNumber;
use walk::{Between, Viewed, followers, pair_from, pairs_of};

impl Label {
    // What turn `before`, of this label, offers a turn that may follow it after what stands between.
    pub fn onward_to(
        self,
        view: Viewed<'_>,
        stands: Between,
        before: TurnNumber,
        turn: TurnNumber,
    ) -> Option<Label>
        requires turn { turn.0 < view.book.counts.turns }
        requires fits { StepFits self.cost self.links }
        ensures { MatchOption result (step_to (view_in view.entry) stands turn.0 ≡ None) (λ label. (more : ℕ) × (step_to (view_in view.entry) stands turn.0 ≡ Some more) × (as_entry label ≡ one_turn_on self.cost self.links more before.0)) }
    {
        let more = view.step_to(stands, turn)?;
        Some(self.one_turn_on(more, before))
    }
}

// Passes the label of turn `before` on to one turn; its pairs end at `to`, and those before `at` are of earlier turns.
fn pass(
    view: Viewed<'_>,
    at: u16,
    to: u16,
    before: TurnNumber,
    label: Label,
    turn: TurnNumber,
    turns: &mut LabelsMut<'_>,
)
    requires numbers { (before.0 < view.book.counts.turns) × (turn.0 < view.book.counts.turns) × (to ≤ view.book.counts.pairs) }
    requires fits { StepFits label.cost label.links }
    requires sized { Sized view.book.counts.turns (table_in turns.old) }
    ensures passed { table_in turns.new ≡ passed_by (step_to (view_in view.entry) (look_up (listed_at (pair_table view.entry.book.bytes.now view.entry.book.counts) at to turn.0) view.entry.book.counts.carry_over (get_or view.entry.walks.now before.0 0) (get_or view.entry.walks.now turn.0 0)) turn.0) (table_in turns.old) before.0 label.cost label.links turn.0 }
    ensures same { SameBuffers turns.old turns.new }
{
    let stands = view.between_at(at, to, before, turn);
    if let Some(offer) = label.onward_to(view, stands, before, turn) {
        turns.offer(usize::from(turn.0), offer);
    }
}

// Passes it on to every turn that may follow: its followers and its pairs both ascend, and are walked side by side.
pub fn spread(view: Viewed<'_>, before: TurnNumber, label: Label, turns: &mut LabelsMut<'_>)
    requires fits { (before.0 < view.book.counts.turns) × StepFits label.cost label.links }
    requires sized { Sized view.book.counts.turns (table_in turns.old) }
    ensures spread { table_in turns.new ≡ table_up_to view.entry.book.counts.turns (λ t. passed_to (view_in view.entry) before.0 label.cost label.links (entry_at (table_in turns.old) t) t) }
    ensures same { SameBuffers turns.old turns.new }
{
    let link = view.turn_second(before);
    let run = followers(view.book, link);
    let pairs = pairs_of(view.book, before);
    // The ends by name, since the loop's invariant speaks of them and a range changes as it is walked.
    let start = run.start;
    let end = run.end;
    let to = pairs.end;
    let mut at = pairs.start;
    for turn in start..end {
        at = pair_from(view.book, at, to, TurnNumber(turn));
        pass(view, at, to, before, label, TurnNumber(turn), turns);
    }
}
