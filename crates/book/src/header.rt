// The first 17 bytes: mark, version, counts.
ghost use Rattle.std.specs.Prelude.{◌≡◌, ◌+◌, ◌≤◌, ◌<◌, length};
ghost use Rattle.book.specs.Number.{number_at};
ghost use Rattle.book.specs.Header.{header_bytes, mark_good, version_good, counts_of, counts_good};

use super::Counts;
use super::numbers::number_at;

pub const HEADER_BYTES: usize = 17;

const MOST_NODES: usize = 1024;

pub const MOST_LINES: usize = 256;

pub const MOST_LINKS: usize = 2048;

pub const MOST_TURNS: usize = 4096;

const MOST_PAIRS: usize = 2048;

const MOST_CARRY_OVER: usize = 3600;

#[tactic(auto, unfolding(crate::specs::Header::mark_good))]
pub fn mark_good(book: &[u8]) -> bool
    requires { header_bytes ≤ length book.now }
    ensures { result ≡ mark_good book.now }
{
    book.starts_with(b"LTB")
}

#[tactic(auto, unfolding(crate::specs::Header::version_good))]
pub fn version_good(book: &[u8]) -> bool
    requires { header_bytes ≤ length book.now }
    ensures { result ≡ version_good book.now }
{
    number_at(book, 3) == 1
}

fn count_at(book: &[u8], at: usize) -> usize
    requires { at + 1 < length book.now }
    ensures { result ≡ number_at book.now at }
{
    usize::from(number_at(book, at))
}

#[tactic(auto, unfolding(crate::specs::Header::counts_of))]
pub fn counts_of(book: &[u8]) -> Counts
    requires { header_bytes ≤ length book.now }
    ensures { result ≡ counts_of book.now }
{
    let nodes = count_at(book, 5);
    let lines = count_at(book, 7);
    let links = count_at(book, 9);
    let turns = count_at(book, 11);
    let pairs = count_at(book, 13);
    let carry_over = count_at(book, 15);
    Counts {
        nodes,
        lines,
        links,
        turns,
        pairs,
        carry_over,
    }
}

#[tactic(auto, unfolding(crate::specs::Header::counts_good))]
pub fn counts_good(counts: Counts) -> bool
    ensures { result ≡ counts_good counts }
{
    (counts.nodes <= MOST_NODES)
        & (counts.lines <= MOST_LINES)
        & (counts.links <= MOST_LINKS)
        & (counts.turns <= MOST_TURNS)
        & (counts.pairs <= MOST_PAIRS)
        & (counts.carry_over <= MOST_CARRY_OVER)
}
