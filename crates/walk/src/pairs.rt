// Two successive turns looked up within the first one's run of pairs, and what the look-up tells.
ghost use Rattle.std.specs.Prelude.{◌≡◌, ◌+◌, ◌≤◌, ◌<◌, get_or, eqb};
ghost use Rattle.std.proofs.Math.Option.{none};
ghost use Rattle.book.specs.Tables.{pair_table};
ghost use Rattle.book.specs.Entries.{barred};
ghost use Rattle.book.specs.Runs.{run_from};
ghost use Rattle.walk.specs.View.{view_in};
ghost use Rattle.walk.specs.Walks.{look_up, listed_as, between, allowed, seconds};
ghost use Rattle.walk.specs.steps.Pairs.{pair_from, listed_at};

use super::{Between, Viewed};
use book::{BARRED, CheckedBook, TurnNumber};
use std::ops::Range;

// The pairs whose first turn is this one.
pub fn pairs_of(book: CheckedBook<'_>, turn: TurnNumber) -> Range<u16>
    ensures start { result.start ≡ run_from (pair_table book.entry.bytes.now book.entry.counts) book.entry.counts.pairs turn.0 }
    ensures end { result.end ≡ run_from (pair_table book.entry.bytes.now book.entry.counts) book.entry.counts.pairs (turn.0 + 1) }
    ensures within { (result.start ≤ result.end) × (result.end ≤ book.entry.counts.pairs) }
{
    let number = usize::from(turn.0);
    // a checked book has at most 2,048 pairs and carries at most 3,600 seconds over, so a conversion that can fail would need an error that cannot happen
    let start = book.pairs_from(number) as u16;
    let end = book.pairs_from(number + 1) as u16;
    start..end
}

// The first pair from `from` up to `to` whose second turn is this one or a later one, or `to`.
pub fn pair_from(book: CheckedBook<'_>, from: u16, to: u16, turn: TurnNumber) -> u16
    requires { (from ≤ to) × (to ≤ book.counts.pairs) }
    ensures { result ≡ pair_from (pair_table book.entry.bytes.now book.entry.counts) from to turn.0 }
{
    (from..to)
        .find(|pair| turn.0 <= book.pair_second(*pair).0)
        .unwrap_or(to)
}

impl Viewed<'_> {
    // What stands between two turns, where the first one's pairs end at `to` and those before `at` are of earlier second turns.
    pub fn between_at(self, at: u16, to: u16, before: TurnNumber, turn: TurnNumber) -> Between
        requires turns { (before.0 < self.book.counts.turns) × (turn.0 < self.book.counts.turns) }
        requires pairs { to ≤ self.book.counts.pairs }
        ensures { result ≡ look_up (listed_at (pair_table self.entry.book.bytes.now self.entry.book.counts) at to turn.0) self.entry.book.counts.carry_over (get_or self.entry.walks.now before.0 0) (get_or self.entry.walks.now turn.0 0) }
    {
        if at < to && self.book.pair_second(at) == turn {
            return listed(self.book.pair_extra(at));
        }
        let carried = self.book.counts.carry_over as u16;
        unlisted(
            carried,
            self.walks[usize::from(before.0)],
            self.walks[usize::from(turn.0)],
        )
    }

    // What stands between two successive turns.
    pub fn between_turns(self, before: TurnNumber, turn: TurnNumber) -> Between
        requires { (before.0 < self.book.counts.turns) × (turn.0 < self.book.counts.turns) }
        ensures { result ≡ between (view_in self.entry) before.0 turn.0 }
    {
        let run = pairs_of(self.book, before);
        let at = pair_from(self.book, run.start, run.end, turn);
        self.between_at(at, run.end, before, turn)
    }
}

fn listed(extra: u16) -> Between
    ensures { result ≡ listed_as (eqb extra barred) extra }
{
    if extra == BARRED {
        Between::Forbidden
    } else {
        Between::Listed(extra)
    }
}

#[tactic(auto, unfolding(crate::specs::Walks::look_up))]
fn unlisted(carried: u16, before: u16, after: u16) -> Between
    ensures { result ≡ look_up none carried before after }
{
    if before == 0 || after == 0 {
        return Between::Nothing;
    }
    Between::CarriedOver(carried)
}

impl Between {
    pub fn allowed(self) -> bool
        ensures { result ≡ allowed self }
    {
        match self {
            Between::Forbidden => false,
            _ => true,
        }
    }

    pub fn seconds(self) -> u16
        ensures { result ≡ seconds self }
    {
        match self {
            Between::Listed(extra) | Between::CarriedOver(extra) => extra,
            _ => 0,
        }
    }
}
