// Walks over a checked book: the figures that their rules read, which walks are permitted, and what they cost.
#![tactic(auto)]

ghost use Rattle.std.specs.Prelude.{◌≡◌, length};

use book::TurnNumber;

mod figures;
mod given;
mod offered;
mod onward;
mod pairs;
mod splits;
mod steps;
mod turns;
mod walks;

pub use book::{CheckedBook, Refusal, check, given_back, number_at, seconds_good, write_walk};
pub use figures::START_BACK;
pub use given::cost_of;
pub use pairs::{pair_from, pairs_of};
pub use splits::split_in;
pub use steps::link_cost;
pub use turns::{followers, turn_of};
pub use walks::read_walks;

// A checked book, with the walks as seen, one number a turn.
#[derive(Clone, Copy)]
pub struct Viewed<'a> {
    pub book: CheckedBook<'a>,
    pub walks: &'a [u16],
    ghost each: { length walks.now ≡ book.counts.turns },
}

// What stands between two successive turns of a walk, with the four cases that the definitions have, though the code reads of them only whether a turn is allowed and its seconds.
#[derive(Clone, Copy)]
pub enum Between {
    Listed(u16),
    Forbidden,
    CarriedOver(u16),
    Nothing,
}

// Where the minutes of a walk go, in seconds.
#[derive(Clone, Copy, Default)]
pub struct Split {
    pub ride: u32,
    pub wait: u32,
    pub walk: u32,
    pub extra: u32,
}

// What one more link adds to a walk: the turn to it, and that turn's figures.
#[derive(Clone, Copy)]
pub struct Added {
    pub turn: TurnNumber,
    pub split: Split,
}

// The cost of a permitted walk, and the four figures that make it up.
#[derive(Clone, Copy)]
pub struct Costed {
    pub cost: u32,
    pub split: Split,
}

// Why a given walk has no cost.
#[derive(Clone, Copy)]
pub enum NoCost {
    Refused(Refusal),
    TooLong,
    NotPermitted,
}
