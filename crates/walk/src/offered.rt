// What the layers above need of the day book, offered on: in the words of the view, so that their proofs need no table.
ghost use Rattle.std.specs.Prelude.{◌≡◌, ◌<◌};
ghost use Rattle.walk.specs.View.{view_in};

use super::Viewed;
use book::{LinkNumber, NodeNumber, TurnNumber};

impl Viewed<'_> {
    pub fn link_from(self, link: LinkNumber) -> NodeNumber
        requires { link.0 < self.book.counts.links }
        ensures { result.0 ≡ (view_in self.entry).from link.0 }
    {
        self.book.link_from(link)
    }

    pub fn turn_first(self, turn: TurnNumber) -> LinkNumber
        requires { turn.0 < self.book.counts.turns }
        ensures value { result.0 ≡ (view_in self.entry).first turn.0 }
        ensures exists { result.0 < self.entry.book.counts.links }
    {
        self.book.turn_first(turn)
    }

    pub fn turn_second(self, turn: TurnNumber) -> LinkNumber
        requires { turn.0 < self.book.counts.turns }
        ensures value { result.0 ≡ (view_in self.entry).second turn.0 }
        ensures exists { result.0 < self.entry.book.counts.links }
    {
        self.book.turn_second(turn)
    }
}
