// The fare: what the route that was found costs in won, by the distance fare of document 000.
#![tactic(auto)]

mod amounts;
mod asking;
mod reckoning;
mod tables;

pub use asking::{fare, fare_given_back};
pub use reckoning::fare_of;
pub use tables::fares_good;

// Won and metres are kept apart; neither may stand where the other is meant.
#[derive(Clone, Copy, PartialEq, Eq, PartialOrd, Ord)]
pub struct Won(pub u64);

#[derive(Clone, Copy)]
pub struct Metres(pub u64);

// What stands beside a fare table: the basic distance, the step beyond it, and the premium for a step.
#[derive(Clone, Copy)]
pub struct Terms {
    pub distance: Metres,
    pub step: Metres,
    pub premium: Won,
}

// A fare table, lent for reading, and what stands beside it.
#[derive(Clone, Copy)]
pub struct Fares<'a> {
    pub table: &'a [u32],
    pub terms: Terms,
}

// Cost and number of links of Route's own walk, and the fare of it.
#[derive(Clone, Copy)]
pub struct Fared {
    pub cost: u32,
    pub links: u16,
    pub fare: Won,
}

// An answer's number, place, cost, number of links and fare.
#[derive(Clone, Copy)]
pub struct FareFigures {
    pub number: u8,
    pub place: usize,
    pub cost: u32,
    pub links: u16,
    pub fare: Won,
}
