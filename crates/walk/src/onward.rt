// One more link of a given walk.
ghost use Rattle.std.specs.Prelude.{◌≡◌, ◌<◌, IfSome};
ghost use Rattle.walk.specs.View.{view_in};
ghost use Rattle.walk.specs.steps.Onward.{stands_after, turns_so_far, one_more};

use super::turns::turn_of;
use super::{Added, Between, Viewed};
use book::{LinkNumber, TurnNumber};

impl Viewed<'_> {
    // What stands before a turn, where the turn before it may be none.
    fn stands_after(self, before: Option<TurnNumber>, turn: TurnNumber) -> Between
        requires { (turn.0 < self.book.counts.turns) × IfSome before (λ p. p.0 < self.book.counts.turns) }
        ensures { result ≡ stands_after (view_in self.entry) turn.0 (turns_so_far before) }
    {
        match before {
            None => Between::Nothing,
            Some(before) => self.between_turns(before, turn),
        }
    }

    // One more link after the last one, and after the turn before it.
    pub fn advance(
        self,
        before: Option<TurnNumber>,
        last: LinkNumber,
        link: LinkNumber,
    ) -> Option<Added>
        requires { IfSome before (λ p. p.0 < self.book.counts.turns) }
        ensures { result ≡ one_more (view_in self.entry) before last.0 link.0 }
    {
        let turn = turn_of(self.book, last, link)?;
        let stands = self.stands_after(before, turn);
        if !self.may_step(stands, turn) {
            return None;
        }
        Some(Added {
            turn,
            split: self.turn_split(stands, turn),
        })
    }
}
