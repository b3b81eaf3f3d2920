// Scripts and what lies on the desk: lines, words and numbers, the text of an answer, what came of each line, the book's bytes and the figures. It asks nothing of the layers.
#![tactic(auto)]

mod books;
mod figures;
mod files;
mod laid;
mod printing;
mod questions;
mod reading;
mod tallying;
mod words;
mod writing;

pub use books::DayBook;
pub use figures::{Buffer, Column, Table, first_mut};
pub use files::{FILE_ROOM, open_book, open_file, read_file, read_full, same_book, save_book};
pub use laid::{Desk, Fares, RouteBuffer};
pub use printing::print_sheet;
pub use questions::{Question, Way};
pub use reading::{Block, Ending};
pub use tallying::{Came, Place, Tally};
pub use words::{NUMBERS_ROOM, narrow, split_at_sign, trimmed};
pub use writing::{Answer, Fault, Text};
