// The sheets: the one line that the route printer prints for an input, and the lines of the fare printer.
#![tactic(auto)]

use book::NodeNumber;

mod asking;
mod decimals;
mod faring;
mod figures;
mod lines;
mod planning;
mod routes;
mod ways;

pub use asking::sheet;
pub use faring::fare_sheet;

// A text that is lent to be printed on, and the place of the next byte: there is no heap for a text that grows.
#[derive(Drop)]
struct Page<'a> {
    text: &'a mut [u8],
    at: usize,
}

// The way that an input asks for.
#[derive(Clone, Copy)]
struct Way {
    origin: NodeNumber,
    destination: NodeNumber,
}
