// The sheet of an input: the book's check, then the plan, and the line of what they answer.
ghost use Rattle.std.specs.Prelude.{◌+◌, ◌≤◌, length};
ghost use Rattle.sheet.specs.Sheet.{longest_line, Sheet};
ghost use Rattle.sheet.specs.steps.Asking.{LinePut};

use super::figures::{BEFORE_BOOK, LONGEST_LINE};
use super::planning::plan;
use super::routes::{print_route, route_planned};
use super::ways::way_of;
use super::{Page, Way};
use search::{CheckedBook, ROUTE_ROOM, Refusal, check};

// The plan's line. The links lie in an array for the longest walk, since there is no heap.
fn print_plan(book: CheckedBook<'_>, way: Way, page: &mut Page<'_>)
    requires { page.old.at + longest_line ≤ length page.old.text.now }
    ensures { LinePut book.entry.bytes.now way.origin.0 way.destination.0 page.old page.new }
{
    let mut links = [0u16; ROUTE_ROOM];
    let planned = plan(book, way, &mut links);
    match route_planned(way, planned, &links) {
        Err(found) => page.put_refusal(found),
        Ok(route) => print_route(book, route, page),
    }
}

// The book's own number comes before 10.
#[tactic(auto, using(crate::proofs::Plans::check_line, crate::proofs::Plans::check_put))]
fn print_book(book: &[u8], way: Way, page: &mut Page<'_>)
    requires { page.old.at + longest_line ≤ length page.old.text.now }
    ensures { LinePut book.now way.origin.0 way.destination.0 page.old page.new }
{
    match check(book) {
        Err(found) => page.put_refusal(found),
        Ok(counts) => print_plan(CheckedBook::carry(book, counts), way, page),
    }
}

// Document 01, the route printer: exactly one line for every input, or none where the text is shorter than the longest.
#[tactic(auto, using(crate::proofs::Longest::refusal_line))]
pub fn sheet(input: &[u8], text: &mut [u8]) -> Option<usize>
    ensures { Sheet input.now text.old result text.new }
{
    if text.len() < LONGEST_LINE {
        return None;
    }
    let mut page = Page { text, at: 0 };
    if input.len() < BEFORE_BOOK {
        page.put_refusal(Refusal::TooShort);
        return Some(page.at);
    }
    print_book(&input[BEFORE_BOOK..], way_of(input), &mut page);
    Some(page.at)
}
