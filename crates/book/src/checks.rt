// Check: every list of bytes gets an answer, that of the first test that finds something.
ghost use Rattle.std.specs.Prelude.{◌≡◌, length};
ghost use Rattle.book.specs.Tables.{book_end};
ghost use Rattle.book.specs.Check.{tables_of, tables_in, check_of};

use super::entries::{join_good, line_good, link_good, scan};
use super::header::{HEADER_BYTES, counts_good, counts_of, mark_good, version_good};
use super::tables::{
    Entries, JOIN_BYTES, LINE_BYTES, LINK_BYTES, book_end, line_table, link_table, pair_table,
    turn_table,
};
use super::{Counts, Refusal};

// The four tables in file order: a checker of lines sees its part alone, one of links the counts too, and one of turns or pairs the table below it.
fn check_parts(
    lines: Entries<'_, LINE_BYTES>,
    links: Entries<'_, LINK_BYTES>,
    turns: Entries<'_, JOIN_BYTES>,
    pairs: Entries<'_, JOIN_BYTES>,
    counts: Counts,
) -> Result<Counts, Refusal>
    requires lines_counted { lines.count ≡ counts.lines }
    requires links_counted { links.count ≡ counts.links }
    requires turns_counted { turns.count ≡ counts.turns }
    requires pairs_counted { pairs.count ≡ counts.pairs }
    ensures { result ≡ tables_of lines.entry.bytes.now links.entry.bytes.now turns.entry.bytes.now pairs.entry.bytes.now counts }
{
    scan(counts.lines, |k| line_good(lines, k), |k| Refusal::Line(k))?;
    scan(
        counts.links,
        |k| link_good(links, counts, k),
        |k| Refusal::Link(k),
    )?;
    scan(
        counts.turns,
        |k| join_good(links, turns, k),
        |k| Refusal::Turn(k),
    )?;
    scan(
        counts.pairs,
        |k| join_good(turns, pairs, k),
        |k| Refusal::Pair(k),
    )?;
    Ok(counts)
}

fn check_tables(book: &[u8], counts: Counts) -> Result<Counts, Refusal>
    requires { length book.now ≡ book_end counts }
    ensures { result ≡ tables_in book.now counts }
{
    let lines = line_table(book, counts);
    let links = link_table(book, counts);
    let turns = turn_table(book, counts);
    let pairs = pair_table(book, counts);
    check_parts(lines, links, turns, pairs, counts)
}

#[tactic(auto, unfolding(crate::specs::Check::check_of))]
pub fn check(book: &[u8]) -> Result<Counts, Refusal>
    ensures { result ≡ check_of book.now }
{
    if book.len() < HEADER_BYTES {
        return Err(Refusal::TooShort);
    }
    if !mark_good(book) {
        return Err(Refusal::Mark);
    }
    if !version_good(book) {
        return Err(Refusal::Version);
    }
    let counts = counts_of(book);
    if !counts_good(counts) {
        return Err(Refusal::Limit);
    }
    if book.len() != book_end(counts) {
        return Err(Refusal::Length);
    }
    check_tables(book, counts)
}
