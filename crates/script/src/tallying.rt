// What came of a script's lines: the answers that are printed, those that were expected, and how many of them came.
ghost use Rattle.std.specs.Prelude.{◌≡◌, ◌≢◌, IfOk, IsTrue, length, take};
ghost use Rattle.script.specs.Tallies.{shown, tallied};

use super::writing::{Answer, Fault};
use std::io;

// A line that nothing is expected of, or an answer held against the expected one.
#[derive(Clone, Copy, Debug, PartialEq, Eq)]
pub enum Came {
    Unasked,
    AsExpected,
    NotAsExpected,
}

// A line of a script, by the script's name.
#[derive(Clone, Copy)]
pub struct Place<'a> {
    pub name: &'a [u8],
    pub line: u64,
}

impl Place<'_> {
    // Names and lines are bytes and need not be UTF-8, so that they are no `Display`.
    fn print(&self, rt: &impl Print) -> io::Result<()> {
        rt.write_all(self.name)?;
        print!(rt; ", line {}: ", self.line)
    }

    // A file that cannot be read on is never passed over.
    pub fn print_broken(&self, rt: &impl Print) -> io::Result<()> {
        self.print(rt)?;
        rt.write_all(b"cannot be read on\n")
    }

    // An answer that none is expected beside: a line that could not be read or done is never passed over.
    pub fn show(
        &self,
        rt: &impl Print,
        answered: Result<Answer, Fault>,
        text: &[u8],
    ) -> io::Result<Came>
        ensures { IfOk result (λ came. came ≡ shown answered) }
    {
        match answered {
            Ok(Answer::Done) => Ok(Came::Unasked),
            Ok(Answer::Said) => {
                print_line(rt, text)?;
                Ok(Came::Unasked)
            }
            Err(fault) => {
                self.print(rt)?;
                println!(rt; "{fault}")?;
                Ok(Came::NotAsExpected)
            }
        }
    }

    // An answer held against the one that is expected.
    pub fn hold(
        &self,
        rt: &impl Print,
        question: &[u8],
        expected: &[u8],
        answered: &[u8],
    ) -> io::Result<Came>
        ensures asked { IfOk result (λ came. came ≢ Came.Unasked) }
        ensures same { answered.now ≡ expected.now → IfOk result (λ came. came ≡ Came.AsExpected) }
        ensures begins { IfOk result (λ came. came ≡ Came.AsExpected → take (length expected.now) answered.now ≡ expected.now) }
    {
        if is_as_expected(answered, expected) {
            return Ok(Came::AsExpected);
        }
        self.print(rt)?;
        rt.write_all(question)?;
        rt.write_all(b" = ")?;
        rt.write_all(answered)?;
        rt.write_all(b", expected ")?;
        print_line(rt, expected)?;
        Ok(Came::NotAsExpected)
    }
}

fn print_line(rt: &impl Print, words: &[u8]) -> io::Result<()> {
    rt.write_all(words)?;
    rt.write_all(b"\n")
}

// The answer itself, or the figures of a refusal without their meaning.
fn is_as_expected(answered: &[u8], expected: &[u8]) -> bool
    ensures same { answered.now ≡ expected.now → IsTrue result }
    ensures begins { IsTrue result → take (length expected.now) answered.now ≡ expected.now }
{
    match answered.strip_prefix(expected) {
        Some([]) => true,
        Some([b' ', b'a'..=u8::MAX, ..]) => matches!(expected.last(), Some(b'0'..=b'9')),
        _ => false,
    }
}

// How many answers of a script were as expected, and how many were not.
#[derive(Clone, Copy, Debug, Default, PartialEq, Eq)]
pub struct Tally {
    pub right: u64,
    pub wrong: u64,
}

impl Tally {
    pub fn count(&mut self, came: Came)
        ensures { self.new ≡ tallied self.old came }
    {
        match came {
            Came::Unasked => {}
            Came::AsExpected => self.right = self.right.wrapping_add(1),
            Came::NotAsExpected => self.wrong = self.wrong.wrapping_add(1),
        }
    }

    pub fn print(&self, rt: &impl Print, name: &[u8]) -> io::Result<()> {
        rt.write_all(name)?;
        println!(rt; ": {} as expected, {} not", self.right, self.wrong)
    }
}
