// The fare sheet of an input: the book's check, then the plan, and after a route's line its fare.
ghost use Rattle.std.specs.Prelude.{◌≡◌, ◌+◌, ◌*◌, ◌≤◌, length};
ghost use Rattle.walk.specs.View.{up_to};
ghost use Rattle.sheet.specs.FareSheet.{long_at, terms_of, entry_bytes, FarePlanned, longest_text, FareSheet};
ghost use Rattle.sheet.specs.steps.Faring.{FaresRead, read_into, RouteToFare, FareTold, LinesPut, BookEnd};

use super::figures::{BEFORE_FARE_BOOK, ENTRY_BYTES, LONGEST_TEXT, MOST_ENTRIES};
use super::planning::plan;
use super::routes::{RouteFound, print_route, route_planned};
use super::ways::way_of;
use super::{Page, Way};
use book::Counts;
use fare::{Fares, Metres, Terms, Won, fare_of, fares_good};
use search::{CheckedBook, ROUTE_ROOM, Refusal, check, number_at};

// The fares as an input gives them: a table in bytes, and what stands beside it.
#[derive(Clone, Copy)]
struct FareBytes<'a> {
    table: &'a [u8],
    terms: Terms,
}

// A number of four bytes, low byte first.
#[tactic(auto, unfolding(crate::specs::FareSheet::long_at))]
fn long_at(bytes: &[u8], at: usize) -> u32
    requires { at + 4 ≤ length bytes.now }
    ensures { result ≡ long_at bytes.now at }
{
    u32::from(number_at(bytes, at)) + 65536 * u32::from(number_at(bytes, at + 2))
}

fn terms_of(input: &[u8]) -> Terms
    requires { 16 ≤ length input.now }
    ensures { result ≡ terms_of input.now }
{
    Terms {
        distance: Metres(u64::from(long_at(input, 4))),
        step: Metres(u64::from(long_at(input, 8))),
        premium: Won(u64::from(long_at(input, 12))),
    }
}

fn read_table(bytes: &[u8], table: &mut [u32])
    requires { length bytes.now ≡ entry_bytes * length table.old }
    ensures { table.new ≡ up_to (length table.old) (λ k. long_at bytes.now (entry_bytes * k)) }
{
    for (k, entry) in table.iter_mut().enumerate() {
        *entry = long_at(bytes, ENTRY_BYTES * k);
    }
}

// A table of another length is not read. The answer is a `bool` and not the fares, as in the definition `FaresRead`, which the theorem `fare_fits` reads.
fn read_fares(counts: Counts, given: FareBytes<'_>, table: &mut [u32]) -> bool
    requires { length table.old ≡ counts.links + counts.lines }
    ensures { FaresRead counts given.entry.table.now given.entry.terms table.old result table.new }
{
    if given.table.len() != ENTRY_BYTES * table.len() {
        return false;
    }
    read_table(given.table, table);
    let fares = Fares {
        table,
        terms: given.terms,
    };
    fares_good(counts, fares)
}

#[tactic(auto, using(crate::proofs::Longest::refusal_line))]
fn put_fares(
    book: CheckedBook<'_>,
    route: RouteFound<'_>,
    given: FareBytes<'_>,
    table: &mut [u32],
    page: &mut Page<'_>,
)
    requires route { RouteToFare book.bytes.now book.counts route.origin.0 route.cost route.links.now }
    requires sized { length table.old ≡ book.counts.links + book.counts.lines }
    requires room { page.old.at + longest_text ≤ length page.old.text.now }
    ensures lines_put { LinesPut (FareTold book.entry.bytes.now book.entry.counts given.entry.table.now given.entry.terms route.entry.origin.0 route.entry.cost route.entry.links.now) page.old page.new }
    ensures table_after { table.new ≡ read_into given.entry.table.now table.old }
{
    if !read_fares(book.counts, given, table) {
        page.put_refusal(Refusal::Fares);
        return;
    }
    print_route(book, route, page);
    let fares = Fares {
        table,
        terms: given.terms,
    };
    let fare = fare_of(book, fares, route.links);
    page.put_number(fare.0);
}

// The table of one entry a link and one a line is cut from an array for the largest book, since there is no heap.
#[tactic(auto, using(crate::proofs::FareTables::table_room))]
fn print_fares(
    book: CheckedBook<'_>,
    route: RouteFound<'_>,
    given: FareBytes<'_>,
    page: &mut Page<'_>,
)
    requires route { RouteToFare book.bytes.now book.counts route.origin.0 route.cost route.links.now }
    requires room { page.old.at + longest_text ≤ length page.old.text.now }
    ensures { LinesPut (FareTold book.entry.bytes.now book.entry.counts given.entry.table.now given.entry.terms route.entry.origin.0 route.entry.cost route.entry.links.now) page.old page.new }
{
    let count = book.counts.links + book.counts.lines;
    let mut table = [0u32; MOST_ENTRIES];
    put_fares(book, route, given, &mut table[..count], page);
}

// The plan's line and its fare's. The links lie in an array for the longest walk, since there is no heap.
fn print_fare_plan(book: CheckedBook<'_>, way: Way, given: FareBytes<'_>, page: &mut Page<'_>)
    requires { page.old.at + longest_text ≤ length page.old.text.now }
    ensures { LinesPut (FarePlanned book.entry.bytes.now way.origin.0 way.destination.0 given.entry.table.now given.entry.terms) page.old page.new }
{
    let mut links = [0u16; ROUTE_ROOM];
    let planned = plan(book, way, &mut links);
    match route_planned(way, planned, &links) {
        Err(found) => page.put_refusal(found),
        Ok(route) => print_fares(book, route, given, page),
    }
}

// The book's own number comes before 10, and 17 after 14.
#[tactic(auto, using(crate::proofs::Plans::check_line, crate::proofs::FarePlans::check_told))]
fn print_fare_book(book: &[u8], way: Way, given: FareBytes<'_>, page: &mut Page<'_>)
    requires { page.old.at + longest_text ≤ length page.old.text.now }
    ensures { LinesPut (FarePlanned book.now way.origin.0 way.destination.0 given.entry.table.now given.entry.terms) page.old page.new }
{
    match check(book) {
        Err(found) => page.put_refusal(found),
        Ok(counts) => print_fare_plan(CheckedBook::carry(book, counts), way, given, page),
    }
}

// Where the book ends: its number of bytes after `from`, or the end of the input.
fn book_end(from: usize, bytes: usize, end: usize) -> usize
    requires { from ≤ end }
    ensures { BookEnd from bytes end result }
{
    if end - from < bytes {
        return end;
    }
    from + bytes
}

// The fare printer: one line for every input, and where it is a route's a second with the fare; none where the text is shorter than the longest.
#[tactic(auto, using(crate::proofs::Longest::refusal_line))]
pub fn fare_sheet(input: &[u8], text: &mut [u8]) -> Option<usize>
    ensures { FareSheet input.now text.old result text.new }
{
    if text.len() < LONGEST_TEXT {
        return None;
    }
    let mut page = Page { text, at: 0 };
    let end = input.len();
    if end < BEFORE_FARE_BOOK {
        page.put_refusal(Refusal::TooShort);
        return Some(page.at);
    }
    // std has no conversion of 32 bits to a usize that cannot fail
    let bytes = long_at(input, 16) as usize;
    let middle = book_end(BEFORE_FARE_BOOK, bytes, end);
    let given = FareBytes {
        table: &input[middle..],
        terms: terms_of(input),
    };
    print_fare_book(
        &input[BEFORE_FARE_BOOK..middle],
        way_of(input),
        given,
        &mut page,
    );
    Some(page.at)
}
