// What a walk's first link costs, what a turn adds, and the step from a turn to the next.
ghost use Rattle.std.specs.Prelude.{◌≡◌, ◌≤◌, ◌<◌, IfSome};
ghost use Rattle.walk.specs.View.{view_of, view_in};
ghost use Rattle.walk.specs.Walks.{link_wait, boards, turn_wait};
ghost use Rattle.walk.specs.steps.Costs.{link_cost, turn_cost};
ghost use Rattle.walk.specs.steps.Pairs.{may_step, step_to};

use super::{Between, Viewed};
use book::{BARRED, CheckedBook, LinkNumber, TurnNumber};

// Half the headway of its line, rounded up.
pub fn link_wait(book: CheckedBook<'_>, link: LinkNumber) -> u32
    requires { link.0 < book.counts.links }
    ensures { result ≡ link_wait (view_of book.entry.bytes.now book.entry.counts) link.0 }
{
    let line = book.link_line(link);
    let headway = book.line_headway(line);
    u32::from(headway).div_ceil(2)
}

pub fn link_cost(book: CheckedBook<'_>, link: LinkNumber) -> u32
    requires { link.0 < book.counts.links }
    ensures value { result ≡ link_cost (view_of book.entry.bytes.now book.entry.counts) link.0 }
    ensures limited { result ≤ 39600 }
{
    let ride = book.link_ride(link);
    u32::from(ride) + link_wait(book, link)
}

impl Viewed<'_> {
    // Document 02, request 1: who walks, or changes lines, waits again.
    fn turn_boards(self, turn: TurnNumber) -> bool
        requires { turn.0 < self.book.counts.turns }
        ensures { result ≡ boards (view_in self.entry) turn.0 }
    {
        let walk = self.walks[usize::from(turn.0)];
        let first = self.turn_first(turn);
        let second = self.turn_second(turn);
        let line_before = self.book.link_line(first);
        let line = self.book.link_line(second);
        (0 < walk) | !(line_before == line)
    }

    pub fn turn_wait(self, turn: TurnNumber) -> u32
        requires { turn.0 < self.book.counts.turns }
        ensures { result ≡ turn_wait (view_in self.entry) turn.0 }
    {
        if !self.turn_boards(turn) {
            return 0;
        }
        link_wait(self.book, self.turn_second(turn))
    }

    pub fn turn_cost(self, turn: TurnNumber) -> u32
        requires { turn.0 < self.book.counts.turns }
        ensures value { result ≡ turn_cost (view_in self.entry) turn.0 }
        ensures limited { result ≤ 105135 }
    {
        let walk = self.walks[usize::from(turn.0)];
        let second = self.turn_second(turn);
        let ride = self.book.link_ride(second);
        u32::from(walk) + (u32::from(ride) + self.turn_wait(turn))
    }

    // Whether a turn may come after what stands between it and the turn before.
    pub fn may_step(self, stands: Between, turn: TurnNumber) -> bool
        requires { turn.0 < self.book.counts.turns }
        ensures { result ≡ may_step (view_in self.entry) stands turn.0 }
    {
        let walk = self.walks[usize::from(turn.0)];
        (walk != BARRED) & stands.allowed()
    }

    // The seconds that a turn adds after what stands between it and the turn before, if it may come.
    pub fn step_to(self, stands: Between, turn: TurnNumber) -> Option<u32>
        requires { turn.0 < self.book.counts.turns }
        ensures value { result ≡ step_to (view_in self.entry) stands turn.0 }
        ensures limited { IfSome result (λ more. more < 171000) }
    {
        if !self.may_step(stands, turn) {
            return None;
        }
        Some(u32::from(stands.seconds()) + self.turn_cost(turn))
    }
}
