// Where the minutes go (document 02, request 5): what a walk's first link and each turn after it add to the four figures.
ghost use Rattle.std.specs.Prelude.{◌≡◌, ◌+◌, ◌<◌};
ghost use Rattle.walk.specs.View.{view_in};
ghost use Rattle.walk.specs.Walks.{seconds, total};
ghost use Rattle.walk.specs.steps.Splits.{link_split, turn_split, together, split_in};

use super::steps::link_wait;
use super::{Between, Costed, NoCost, Split, Viewed};
use book::{LinkNumber, TurnNumber};

impl Viewed<'_> {
    pub fn link_split(self, link: LinkNumber) -> Split
        requires { link.0 < self.book.counts.links }
        ensures { result ≡ link_split (view_in self.entry) link.0 }
    {
        Split {
            ride: u32::from(self.book.link_ride(link)),
            wait: link_wait(self.book, link),
            walk: 0,
            extra: 0,
        }
    }

    // A turn after what stands between it and the turn before.
    pub fn turn_split(self, stands: Between, turn: TurnNumber) -> Split
        requires { turn.0 < self.book.counts.turns }
        ensures { result ≡ turn_split (view_in self.entry) (seconds stands) turn.0 }
    {
        let second = self.turn_second(turn);
        Split {
            ride: u32::from(self.book.link_ride(second)),
            wait: self.turn_wait(turn),
            walk: u32::from(self.walks[usize::from(turn.0)]),
            extra: u32::from(stands.seconds()),
        }
    }
}

impl Split {
    pub fn together(self, more: Split) -> Split
        requires { total self + total more < 4294967296 }
        ensures { result ≡ together self more }
    {
        Split {
            ride: self.ride + more.ride,
            wait: self.wait + more.wait,
            walk: self.walk + more.walk,
            extra: self.extra + more.extra,
        }
    }

    pub fn total(self) -> u32
        requires { total self < 4294967296 }
        ensures { result ≡ total self }
    {
        self.ride + self.wait + self.walk + self.extra
    }
}

// The split in an answer: noughts where the walk has no cost.
pub fn split_in(answer: Result<Costed, NoCost>) -> Split
    ensures { result ≡ split_in answer }
{
    match answer {
        Ok(costed) => costed.split,
        Err(_) => Split::default(),
    }
}
