// The question that a line asks: its verb, and what stands behind it.
ghost use Rattle.std.specs.Prelude.{◌≡◌, ◌<◌, ◌≤◌, length, IfOk, IfSome};

use super::books::BOOK_ROOM;
use super::figures::{Buffer, LENT_ROOM};
use super::words::{at_least, exactly, narrow, read_numbers, split_word};
use super::writing::{Answer, Fault};

// Two nodes, and perhaps the room for a route between them.
#[derive(Clone, Copy, Debug, PartialEq, Eq)]
pub struct Way {
    pub origin: u16,
    pub destination: u16,
    pub room: Option<usize>,
}

// Files have their names, label buffers theirs, and the rest numbers.
#[derive(Clone, Copy, Debug, PartialEq, Eq)]
pub enum Question<'a> {
    Open(&'a [u8]),
    Save(&'a [u8]),
    Same(&'a [u8]),
    Print(&'a [u8]),
    PrintFare(&'a [u8]),
    New(usize),
    Number {
        at: usize,
        values: &'a [u32],
    },
    Length(usize),
    Alter {
        buffer: Buffer,
        at: usize,
        value: u32,
    },
    Lend {
        buffer: Buffer,
        count: Option<usize>,
    },
    Fares {
        terms: [u32; 3],
        table: &'a [u32],
    },
    Turn(usize),
    Link(usize),
    Turns,
    Links,
    Room,
    Check,
    Cost {
        origin: u16,
        walk: &'a [u32],
    },
    Search(u16),
    Route(Way),
    Fare(Way),
    Edit {
        origin: u16,
        turn: u16,
        walk: u16,
    },
}

// The most that a number may be: in a book, in a label or fare table, and as a length.
const TWO_BYTES: u32 = 65535;

const FOUR_BYTES: u32 = u32::MAX;

const LONGEST_BOOK: u32 = BOOK_ROOM as u32;

const MOST_LENT: u32 = LENT_ROOM as u32;

// A size that a line says; std has no conversion of 32 bits to a usize that cannot fail.
fn size(number: u32) -> usize
    ensures { result ≡ number }
{
    number as usize
}

// Each kind of question has its reader; which numbers are too few or too many, `exactly` and `at_least` promise of the numbers alone.
fn nothing(words: &[u8], numbers: &mut [u32]) -> Result<(), Fault> {
    exactly::<0>(read_numbers(words, TWO_BYTES, numbers)?)?;
    Ok(())
}

fn one(words: &[u8], limit: u32, numbers: &mut [u32]) -> Result<u32, Fault>
    ensures { IfOk result (λ number. number ≤ limit) }
{
    let [number] = exactly::<1>(read_numbers(words, limit, numbers)?)?;
    Ok(number)
}

// A byte's place in the book, and numbers from there on.
fn placed<'a>(words: &[u8], numbers: &'a mut [u32]) -> Result<(usize, &'a [u32]), Fault>
    ensures place { IfOk result (λ found. found.0 ≤ TWO_BYTES) }
    ensures some { IfOk result (λ found. 0 < length found.1.now) }
{
    let ([at], values) = at_least::<1>(read_numbers(words, TWO_BYTES, numbers)?)?;
    if values.is_empty() {
        return Err(Fault::TooFewNumbers);
    }
    Ok((size(*at), values))
}

// A label buffer and the words behind its name.
fn buffer(words: &[u8]) -> Result<(Buffer, &[u8]), Fault> {
    let (name, rest) = split_word(words);
    Ok((Buffer::try_from(name)?, rest))
}

fn altered(words: &[u8], numbers: &mut [u32]) -> Result<(usize, u32), Fault> {
    let [at, value] = exactly::<2>(read_numbers(words, FOUR_BYTES, numbers)?)?;
    Ok((size(at), value))
}

fn lent(words: &[u8], numbers: &mut [u32]) -> Result<Option<usize>, Fault>
    ensures { IfOk result (λ said. IfSome said (λ count. count ≤ MOST_LENT)) }
{
    match read_numbers(words, MOST_LENT, numbers)? {
        [] => Ok(None),
        [count] => Ok(Some(size(*count))),
        _ => Err(Fault::TooManyNumbers),
    }
}

fn way_of(origin: u32, destination: u32, room: Option<usize>) -> Way {
    Way {
        origin: narrow(origin),
        destination: narrow(destination),
        room,
    }
}

fn from_to(words: &[u8], numbers: &mut [u32]) -> Result<Way, Fault> {
    match read_numbers(words, TWO_BYTES, numbers)? {
        [] | [_] => Err(Fault::TooFewNumbers),
        [from, to] => Ok(way_of(*from, *to, None)),
        [from, to, room] => Ok(way_of(*from, *to, Some(size(*room)))),
        _ => Err(Fault::TooManyNumbers),
    }
}

fn edited(words: &[u8], numbers: &mut [u32]) -> Result<(u16, u16, u16), Fault> {
    let [from, turn, walk] = exactly::<3>(read_numbers(words, TWO_BYTES, numbers)?)?;
    Ok((narrow(from), narrow(turn), narrow(walk)))
}

fn walked<'a>(words: &[u8], numbers: &'a mut [u32]) -> Result<(u16, &'a [u32]), Fault> {
    let ([from], walk) = at_least::<1>(read_numbers(words, TWO_BYTES, numbers)?)?;
    Ok((narrow(*from), walk))
}

fn fares<'a>(words: &[u8], numbers: &'a mut [u32]) -> Result<([u32; 3], &'a [u32]), Fault> {
    let (terms, table) = at_least::<3>(read_numbers(words, FOUR_BYTES, numbers)?)?;
    Ok((*terms, table))
}

impl<'a> Question<'a> {
    ghost use Rattle.script.specs.Questions.{answer_of, KeepsLimits};

    pub fn read(line: &'a [u8], numbers: &'a mut [u32]) -> Result<Question<'a>, Fault>
        ensures { IfOk result KeepsLimits }
    {
        let (verb, words) = split_word(line);
        match verb {
            b"open" => Ok(Question::Open(words)),
            b"save" => Ok(Question::Save(words)),
            b"same" => Ok(Question::Same(words)),
            b"print" => Ok(Question::Print(words)),
            b"print-fare" => Ok(Question::PrintFare(words)),
            b"new" => Ok(Question::New(size(one(words, LONGEST_BOOK, numbers)?))),
            b"number" => {
                let (at, values) = placed(words, numbers)?;
                Ok(Question::Number { at, values })
            }
            b"length" => Ok(Question::Length(size(one(words, LONGEST_BOOK, numbers)?))),
            b"alter" => {
                let (buffer, rest) = buffer(words)?;
                let (at, value) = altered(rest, numbers)?;
                Ok(Question::Alter { buffer, at, value })
            }
            b"lend" => {
                let (buffer, rest) = buffer(words)?;
                let count = lent(rest, numbers)?;
                Ok(Question::Lend { buffer, count })
            }
            b"fares" => {
                let (terms, table) = fares(words, numbers)?;
                Ok(Question::Fares { terms, table })
            }
            b"turn" => Ok(Question::Turn(size(one(words, TWO_BYTES, numbers)?))),
            b"link" => Ok(Question::Link(size(one(words, TWO_BYTES, numbers)?))),
            b"turns" => {
                nothing(words, numbers)?;
                Ok(Question::Turns)
            }
            b"links" => {
                nothing(words, numbers)?;
                Ok(Question::Links)
            }
            b"room" => {
                nothing(words, numbers)?;
                Ok(Question::Room)
            }
            b"check" => {
                nothing(words, numbers)?;
                Ok(Question::Check)
            }
            b"cost" => {
                let (origin, walk) = walked(words, numbers)?;
                Ok(Question::Cost { origin, walk })
            }
            b"search" => Ok(Question::Search(narrow(one(words, TWO_BYTES, numbers)?))),
            b"route" => Ok(Question::Route(from_to(words, numbers)?)),
            b"fare" => Ok(Question::Fare(from_to(words, numbers)?)),
            b"edit" => {
                let (origin, turn, walk) = edited(words, numbers)?;
                Ok(Question::Edit { origin, turn, walk })
            }
            _ => Err(Fault::NoSuchQuestion),
        }
    }

    // A question that only changes the desk is not answered by words.
    pub fn answer(&self) -> Answer
        ensures { result ≡ answer_of self.now }
    {
        match self {
            Question::Open(_)
            | Question::Save(_)
            | Question::New(_)
            | Question::Number { .. }
            | Question::Length(_)
            | Question::Alter { .. }
            | Question::Lend { .. }
            | Question::Fares { .. } => Answer::Done,
            _ => Answer::Said,
        }
    }
}
