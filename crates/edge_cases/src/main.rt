// The few cases that no line of the desk can say: texts of little room for a sheet, and terms of a fare past 32 bits.
#![tactic(auto)]

use book::NodeNumber;
use fare::{Fares, Metres, Terms, Won, fare};
use script::{first_mut, read_full};
use search::Labels;
use sheet::{fare_sheet, sheet};
use std::io;

// What every byte of a text holds beforehand.
const MARK: u8 = b'.';

// The longest text of a fare sheet.
const LONGEST_TEXT: usize = 20557;

// Document 01, "The day book": a header alone, with one node.
const ONE_NODE: [u8; 17] = [b'L', b'T', b'B', 1, 0, 1, 0, 0, 0, 0, 0, 0, 0, 0, 0, 0, 0];

const NO_LABELS: Labels = Labels {
    cost: &[],
    links: &[],
    back: &[],
};

// Whether the text keeps its marks from a place on. Each byte is looked at: a test that may stop early takes them one by one, ten times as long.
fn kept(text: &[u8], from: usize) -> bool {
    text[from.min(text.len())..]
        .iter()
        .fold(true, |whole, byte| whole & (*byte == MARK))
}

fn say_kept(rt: &impl Print, text: &[u8], from: usize) -> io::Result<()> {
    if kept(text, from) {
        return rt.write_all(b", the rest of the text is kept\n");
    }
    rt.write_all(b", the rest of the text is changed\n")
}

fn say_end(rt: &impl Print, text: &[u8], last: usize) -> io::Result<()> {
    match text.get(last) {
        Some(b'\n') => rt.write_all(b", ended by a newline"),
        _ => Ok(()),
    }
}

// The line without the byte that ends it.
fn say_line(rt: &impl Print, text: &[u8], length: usize) -> io::Result<()> {
    if length == 0 {
        return Ok(());
    }
    let last = (length - 1).min(text.len());
    rt.write_all(&text[..last])?;
    say_end(rt, text, last)
}

fn say_sheet(rt: &impl Print, name: &[u8], answered: Option<usize>, text: &[u8]) -> io::Result<()> {
    rt.write_all(name)?;
    match answered {
        None => {
            rt.write_all(b"no room")?;
            say_kept(rt, text, 0)
        }
        Some(length) => {
            say_line(rt, text, length)?;
            say_kept(rt, text, length)
        }
    }
}

// A text of so many bytes has room for the longest line or is left as it was, whatever the line would be.
fn print_in<F: Fn(&[u8], &mut [u8]) -> Option<usize>>(
    rt: &impl Print,
    name: &[u8],
    size: usize,
    printer: F,
    input: &[u8],
) -> io::Result<()>
    requires { F.IsAlwaysCallable printer }
{
    let mut room = [MARK; LONGEST_TEXT];
    let text = first_mut(&mut room, size);
    let answered = printer(input, text);
    say_sheet(rt, name, answered, text)
}

// Sheets in texts of one byte less than the longest and of as many; the check takes no function of another crate by its name for `Fn`, hence the closures.
fn print_sheets(rt: &impl Print, book_a: &[u8]) -> io::Result<()> {
    let route = |input: &[u8], text: &mut [u8]| sheet(input, text);
    let fare = |input: &[u8], text: &mut [u8]| fare_sheet(input, text);
    print_in(rt, b"a sheet in a text of no byte: ", 0, route, &[])?;
    print_in(rt, b"a sheet in a text of 20541 bytes: ", 20541, route, &[])?;
    print_in(
        rt,
        b"a fare sheet in a text of 20556 bytes: ",
        20556,
        fare,
        &[],
    )?;
    print_in(
        rt,
        b"book A's sheet in a text of 20542 bytes: ",
        20542,
        route,
        book_a,
    )?;
    print_in(
        rt,
        b"a fare sheet in a text of 20557 bytes: ",
        LONGEST_TEXT,
        fare,
        &[],
    )
}

fn say_fare(rt: &impl Print, name: &[u8], distance: u64, premium: u64) -> io::Result<()> {
    let book = ONE_NODE;
    let terms = Terms {
        distance: Metres(distance),
        step: Metres(1),
        premium: Won(premium),
    };
    rt.write_all(name)?;
    match fare(
        &book,
        NodeNumber(0),
        NodeNumber(0),
        NO_LABELS,
        NO_LABELS,
        &mut [],
        Fares { table: &[], terms },
    ) {
        Ok(_) => rt.write_all(b"a fare\n"),
        Err(found) => println!(rt; "{}", found.number()),
    }
}

fn terms(rt: &impl Print) -> io::Result<()> {
    say_fare(rt, b"a basic distance of 200000: ", 200000, 100000)?;
    say_fare(
        rt,
        b"a basic distance of 4294977296, whose low half is 10000: ",
        4294977296,
        100000,
    )?;
    say_fare(
        rt,
        b"a premium of 18446744073709551615: ",
        200000,
        18446744073709551615,
    )
}

// Standard input is what the route printer reads: 0, 3 and book A.
fn main(rt: HostRuntime) -> io::Result<()> {
    let mut input = [0u8; 128];
    let end = read_full(&mut rt.stdin(), &mut input)?;
    print_sheets(&rt, &input[..end])?;
    terms(&rt)
}
