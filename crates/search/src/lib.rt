// Search: the labels of every turn and every link from one origin, and the routes that are read from them.
#![tactic(auto)]

use book::LinkNumber;

mod arriving;
mod ends;
mod entries;
mod figures;
mod judging;
mod judging_links;
mod judging_turns;
mod passing;
mod picking;
mod routing;
mod searching;
mod settling;
mod starts;
mod tests;
mod tracing;

pub use arriving::best_into;
pub use figures::ROUTE_ROOM;
pub use judging::labels_true;
pub use routing::{route, route_given_back};
pub use searching::{given_back, search};
pub use tests::{length_test, node_test};
pub use walk::{
    CheckedBook, Refusal, check, cost_of, number_at, seconds_good, split_in, write_walk,
};

// Cost, number of links and back of one entry.
#[derive(Clone, Copy, PartialEq, Eq, PartialOrd, Ord)]
pub struct Label {
    pub cost: u32,
    pub links: u16,
    pub back: u16,
}

// A table's three buffers, lent for reading: one number of each an entry. They are three, since document 01 lends and measures each apart.
#[derive(Clone, Copy)]
pub struct Labels<'a> {
    pub cost: &'a [u32],
    pub links: &'a [u16],
    pub back: &'a [u16],
}

// A table's three buffers, lent to be written. A reference in it could be exchanged for another, so each function that may write one says that it keeps those that were lent (`SameBuffers`).
#[derive(Drop)]
pub struct LabelsMut<'a> {
    pub cost: &'a mut [u32],
    pub links: &'a mut [u16],
    pub back: &'a mut [u16],
}

// The last link, cost and number of links of the best way into a destination.
#[derive(Clone, Copy)]
pub struct Arrival {
    pub link: LinkNumber,
    pub cost: u32,
    pub links: u16,
}

// Cost and number of links of the chosen walk.
#[derive(Clone, Copy)]
pub struct Routed {
    pub cost: u32,
    pub links: u16,
}

// An answer's number, place, cost and number of links.
#[derive(Clone, Copy)]
pub struct RouteFigures {
    pub number: u8,
    pub place: usize,
    pub cost: u32,
    pub links: u16,
}
