// The four tables as parts of the book, each beginning where the one before it ends.
ghost use Rattle.std.specs.Prelude.{◌≡◌, true, ◌+◌, ◌*◌, ◌≤◌, ◌<◌, length};
ghost use Rattle.book.specs.Header.{counts_good};
ghost use Rattle.book.specs.Tables.{book_end, lines_at, links_at, turns_at, pairs_at, part, line_table, link_table, turn_table, pair_table};
ghost use Rattle.book.specs.Entries.{field};

use super::Counts;
use super::header::HEADER_BYTES;
use super::numbers::number_at;

pub const LINE_BYTES: usize = 2;

pub const LINK_BYTES: usize = 8;

pub const JOIN_BYTES: usize = 6;

// A table of `count` entries, each of SIZE bytes. The count stands beside the bytes, since as a quotient of lengths it would want a SIZE that is not 0 wherever it is read.
#[derive(Clone, Copy)]
pub struct Entries<'a, const SIZE: usize> {
    pub bytes: &'a [u8],
    pub count: usize,
    ghost fits: { length bytes.now ≡ SIZE * count },
}

impl<const SIZE: usize> Entries<'_, SIZE> {
    // The number at byte `offset` of an entry.
    pub fn field(self, offset: usize, entry: usize) -> u16
        requires { (entry < self.count) × (offset + 1 < SIZE) }
        ensures { result ≡ field SIZE offset self.entry.bytes.now entry }
    {
        number_at(self.bytes, SIZE * entry + offset)
    }
}

// The length that the counts give.
#[tactic(auto, using(crate::proofs::Limits::end_limited))]
pub fn book_end(counts: Counts) -> usize
    requires { counts_good counts ≡ true }
    ensures { result ≡ book_end counts }
{
    HEADER_BYTES
        + LINE_BYTES * counts.lines
        + LINK_BYTES * counts.links
        + JOIN_BYTES * counts.turns
        + JOIN_BYTES * counts.pairs
}

// The table that begins at a byte of the book.
fn table_at<const SIZE: usize>(book: &[u8], start: usize, count: usize) -> Entries<'_, SIZE>
    requires { start + SIZE * count ≤ length book.now }
    ensures bytes { result.bytes.now ≡ part book.now start (start + SIZE * count) }
    ensures count { result.count ≡ count }
{
    let end = start + SIZE * count;
    Entries {
        bytes: &book[start..end],
        count,
    }
}

fn links_at(counts: Counts) -> usize
    requires { book_end counts < 18446744073709551616 }
    ensures { result ≡ links_at counts }
{
    HEADER_BYTES + LINE_BYTES * counts.lines
}

pub fn turns_at(counts: Counts) -> usize
    requires { book_end counts < 18446744073709551616 }
    ensures { result ≡ turns_at counts }
{
    links_at(counts) + LINK_BYTES * counts.links
}

fn pairs_at(counts: Counts) -> usize
    requires { book_end counts < 18446744073709551616 }
    ensures { result ≡ pairs_at counts }
{
    turns_at(counts) + JOIN_BYTES * counts.turns
}

pub fn line_table(book: &[u8], counts: Counts) -> Entries<'_, LINE_BYTES>
    requires { length book.now ≡ book_end counts }
    ensures bytes { result.bytes.now ≡ line_table book.now counts }
    ensures count { result.count ≡ counts.lines }
{
    table_at(book, HEADER_BYTES, counts.lines)
}

pub fn link_table(book: &[u8], counts: Counts) -> Entries<'_, LINK_BYTES>
    requires { length book.now ≡ book_end counts }
    ensures bytes { result.bytes.now ≡ link_table book.now counts }
    ensures count { result.count ≡ counts.links }
{
    table_at(book, links_at(counts), counts.links)
}

pub fn turn_table(book: &[u8], counts: Counts) -> Entries<'_, JOIN_BYTES>
    requires { length book.now ≡ book_end counts }
    ensures bytes { result.bytes.now ≡ turn_table book.now counts }
    ensures count { result.count ≡ counts.turns }
{
    table_at(book, turns_at(counts), counts.turns)
}

pub fn pair_table(book: &[u8], counts: Counts) -> Entries<'_, JOIN_BYTES>
    requires { length book.now ≡ book_end counts }
    ensures bytes { result.bytes.now ≡ pair_table book.now counts }
    ensures count { result.count ≡ counts.pairs }
{
    table_at(book, pairs_at(counts), counts.pairs)
}
