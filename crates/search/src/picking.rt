// Picking the next turn to settle.
ghost use Rattle.std.specs.Prelude.{◌≡◌, ◌<◌, ◌≤◌, length};
ghost use Rattle.book.specs.Header.{most_turns};
ghost use Rattle.walk.specs.steps.Rows.{key_less};
ghost use Rattle.search.specs.steps.Picking.{is_candidate, key_at, Picks};
ghost use Rattle.search.specs.steps.LeastSoFar.{lesser, with_turn, HeldBelow};

use super::Labels;
use super::figures::UNREACHED;
use book::TurnNumber;

impl Labels<'_> {
    // Whether a turn is reached and not settled.
    fn is_candidate(self, settled: &[bool], turn: TurnNumber) -> bool
        requires { (turn.0 < length self.cost.now) × (turn.0 < length settled.now) }
        ensures { result ≡ is_candidate self.entry.cost.now settled.now turn.0 }
    {
        let at = usize::from(turn.0);
        // the mark as a number, which makes one branch of both tests: which turns are settled is in no order that could be foreseen
        (u8::from(settled[at]) == 0) & (self.cost[at] != UNREACHED)
    }

    // By cost, then links, as the definition has it; labels with their own numbers would compare the numbers too, which is the same only where `other` is the earlier.
    fn is_less(self, one: TurnNumber, other: TurnNumber) -> bool
        requires { (length self.links.now ≡ length self.cost.now) × (one.0 < length self.cost.now) × (other.0 < length self.cost.now) }
        ensures { result ≡ key_less (key_at self.entry.cost.now self.entry.links.now one.0) (key_at self.entry.cost.now self.entry.links.now other.0) }
    {
        let here = usize::from(one.0);
        let there = usize::from(other.0);
        (self.cost[here], self.links[here]) < (self.cost[there], self.links[there])
    }

    // The first of two turns where it is less, else the other.
    fn lesser_of(self, one: TurnNumber, other: TurnNumber) -> TurnNumber
        requires { (length self.links.now ≡ length self.cost.now) × (one.0 < length self.cost.now) × (other.0 < length self.cost.now) }
        ensures { result ≡ lesser self.entry.cost.now self.entry.links.now one other }
    {
        if self.is_less(one, other) {
            return one;
        }
        other
    }

    // The least candidate of the turns passed and of one more.
    fn least_with(
        self,
        settled: &[bool],
        turn: TurnNumber,
        held: Option<TurnNumber>,
    ) -> Option<TurnNumber>
        requires sized { (length self.links.now ≡ length self.cost.now) × (length settled.now ≡ length self.cost.now) × (turn.0 < length self.cost.now) }
        requires held_below { HeldBelow (length self.cost.now) held }
        ensures { result ≡ with_turn self.entry.cost.now self.entry.links.now settled.now turn held }
    {
        if !self.is_candidate(settled, turn) {
            return held;
        }
        match held {
            None => Some(turn),
            Some(least) => Some(self.lesser_of(turn, least)),
        }
    }

    // The reached turn that is not settled and is least by cost, links, number.
    pub fn pick(self, settled: &[bool]) -> Option<TurnNumber>
        requires { (length self.links.now ≡ length self.cost.now) × (length settled.now ≡ length self.cost.now) × (length self.cost.now ≤ most_turns) }
        ensures { Picks self.entry.cost.now self.entry.links.now settled.now result }
    {
        let mut least = None;
        // At most 4,096, as required: as a `u16` the length stays the same.
        for turn in 0..self.cost.len() as u16 {
            least = self.least_with(settled, TurnNumber(turn), least);
        }
        least
    }
}
