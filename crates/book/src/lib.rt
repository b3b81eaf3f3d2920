// The day book: whether it is good, what its fields say, and the write of one turn's walk.
#![tactic(auto)]

ghost use Rattle.std.specs.Prelude.{◌≡◌, ◌≤◌, Ok, length};
ghost use Rattle.book.specs.Header.{most_links, most_turns, most_pairs, most_carry_over};
ghost use Rattle.book.specs.Tables.{book_end};
ghost use Rattle.book.specs.Check.{check_of};

mod checked;
mod checks;
mod entries;
mod header;
mod numbers;
mod refusals;
mod runs;
mod tables;
mod writing;

pub use checks::check;
pub use entries::{BARRED, seconds_good};
pub use header::{MOST_LINES, MOST_LINKS, MOST_TURNS};
pub use numbers::number_at;
pub use refusals::given_back;
pub use writing::write_walk;

// A link number, a turn number and a node number are numbered apart; none may stand where another is meant.
#[derive(Clone, Copy, PartialEq, Eq)]
pub struct LinkNumber(pub u16);

#[derive(Clone, Copy, PartialEq, Eq)]
pub struct TurnNumber(pub u16);

#[derive(Clone, Copy, PartialEq, Eq)]
pub struct NodeNumber(pub u16);

// The figures of the header.
#[derive(Clone, Copy)]
pub struct Counts {
    pub nodes: usize,
    pub lines: usize,
    pub links: usize,
    pub turns: usize,
    pub pairs: usize,
    pub carry_over: usize,
}

// Why an answer is refused: documents 01 and 02, "Numbers given back", in the order of the numbers; a bad entry has its number in its own table.
#[derive(Clone, Copy)]
pub enum Refusal {
    TooShort,
    Mark,
    Version,
    Limit,
    Length,
    Line(usize),
    Link(usize),
    Turn(usize),
    Pair(usize),
    NoNode,
    BadChange,
    LabelLength,
    UntrueLabel,
    NoWalk,
    NoRoom,
    Fares,
}

// Document 01's number, and the place: an entry's number in its own table, or 0.
#[derive(Clone, Copy)]
pub struct GivenBack {
    pub number: u8,
    pub place: usize,
}

// A good book and the counts that its check found. The ghost fields after `good` follow from it: they stand so that no reader need unfold the check.
#[derive(Clone, Copy)]
pub struct CheckedBook<'a> {
    pub bytes: &'a [u8],
    pub counts: Counts,
    ghost good: { check_of bytes.now ≡ Ok counts },
    ghost whole: { length bytes.now ≡ book_end counts },
    ghost links_limited: { counts.links ≤ most_links },
    ghost turns_limited: { counts.turns ≤ most_turns },
    ghost pairs_limited: { counts.pairs ≤ most_pairs },
    ghost carry_over_limited: { counts.carry_over ≤ most_carry_over },
}
