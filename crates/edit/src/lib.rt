// Edit: one change of a turn's walk, with the labels of the edited book.
#![tactic(auto)]

mod counting;
mod editing;
mod keeping;

pub use editing::{edit, given_back};

// How many turn entries and how many link entries an edit altered.
#[derive(Clone, Copy)]
pub struct Edited {
    pub turns: usize,
    pub links: usize,
}

// An answer's number, place and two counts.
#[derive(Clone, Copy)]
pub struct EditFigures {
    pub number: u8,
    pub place: usize,
    pub turns: usize,
    pub links: usize,
}
