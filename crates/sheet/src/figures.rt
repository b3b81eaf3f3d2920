// The figures of the sheets: what stands before a book, the most that a line and a text take, and a fare table's entries.
use book::{MOST_LINES, MOST_LINKS};

// Origin and destination stand before the book, two bytes each.
pub const BEFORE_BOOK: usize = 4;

// The most bytes that a line may take.
pub const LONGEST_LINE: usize = 20542;

// Origin, destination, the terms of the fares and the book's number of bytes.
pub const BEFORE_FARE_BOOK: usize = 20;

// The most bytes that a route's line and its fare's may take.
pub const LONGEST_TEXT: usize = 20557;

// A good fare table has one entry a link and one a line.
pub const MOST_ENTRIES: usize = MOST_LINKS + MOST_LINES;

// An entry of a fare table in bytes.
pub const ENTRY_BYTES: usize = 4;
