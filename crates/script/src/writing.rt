// What the desk says: an answer as text, and why a line could not be read or done.
ghost use Rattle.script.specs.declared.writing.TheConstants.{TEXT_ROOM};
ghost use Rattle.std.specs.Prelude.{◌≡◌, ◌≤◌, [], ◌∷◌, ◌++◌, false, length};

use std::fmt;
use std::fmt::Write;

// The longest answer is all the turns of a full book.
pub const TEXT_ROOM: usize = 98304;

// An answer as far as it is written; nothing is written past its room. Bytes with their length: what the programs share stands on std alone, whose growing texts need a heap.
#[derive(Drop)]
pub struct Text {
    bytes: [u8; TEXT_ROOM],
    length: usize,
    ghost within: { length ≤ TEXT_ROOM },
}

impl Text {
    ghost use Rattle.script.specs.Texts.{joined_after, text_in, within_room};

    pub fn new() -> Text
        ensures { text_in result ≡ [] }
    {
        Text {
            bytes: [0; TEXT_ROOM],
            length: 0,
        }
    }

    pub fn as_bytes(&self) -> &[u8]
        ensures bytes { result.now ≡ text_in self.now }
        ensures within { length result.now ≤ TEXT_ROOM }
    {
        &self.bytes[..self.length]
    }

    pub fn clear(&mut self)
        ensures { text_in self.new ≡ [] }
    {
        self.length = 0;
    }

    pub fn put_byte(&mut self, byte: u8)
        ensures { text_in self.new ≡ within_room (text_in self.old ++ byte ∷ []) }
    {
        if self.length < TEXT_ROOM {
            self.bytes[self.length] = byte;
            self.length += 1;
        }
    }

    pub fn put(&mut self, words: &str)
        ensures { text_in self.new ≡ within_room (text_in self.old ++ words.now) }
    {
        // as many bytes as there is room for, copied at once
        let bytes = words.as_bytes();
        let kept = (TEXT_ROOM - self.length).min(bytes.len());
        let end = self.length + kept;
        self.bytes[self.length..end].copy_from_slice(&bytes[..kept]);
        self.length = end;
    }

    // A figure, after a blank where it is not the first.
    pub fn put_figure(&mut self, figure: impl Into<u64>) {
        if 0 < self.length {
            self.put_byte(b' ');
        }
        let number: u64 = figure.into();
        let _ = write!(self, "{number}");
    }

    // A printer's lines without the last one's end, joined by ` / `.
    pub fn put_lines(&mut self, lines: &[u8])
        ensures { text_in self.new ≡ within_room (text_in self.old ++ joined_after false lines.now) }
    {
        let mut ended = false;
        for byte in lines {
            if ended {
                self.put(" / ");
            }
            ended = *byte == b'\n';
            if !ended {
                self.put_byte(*byte);
            }
        }
    }

    pub fn put_fault(&mut self, fault: Fault) {
        let _ = write!(self, "{fault}");
    }
}

impl Write for Text {
    ghost use Rattle.script.specs.Texts.{text_in, within_room};

    ghost write_str_gives = { λ before words after. text_in after ≡ within_room (text_in before ++ words) };

    fn write_str(&mut self, words: &str) -> fmt::Result {
        self.put(words);
        Ok(())
    }
}

// What came of a line that could be read and done: it only changed the desk, or something is said. The text is not in it, since `hold` is given it whichever came.
#[derive(Clone, Copy, Debug, PartialEq, Eq)]
pub enum Answer {
    Done,
    Said,
}

// Why a line could not be read or done.
#[derive(Clone, Copy, Debug, PartialEq, Eq)]
pub enum Fault {
    LineTooLong,
    NoSuchQuestion,
    NoSuchBuffer,
    NoSuchEntry,
    NotANumber,
    NumberAbove(u64),
    TooManyNumbers,
    TooFewNumbers,
    PastTheBook,
    RoomAbove(usize),
    FaresMoreThan(usize),
    FileLongerThan(usize),
    FileNotOpened,
    FileNotWritten,
    NoRoomForTheSheet,
}

impl fmt::Display for Fault {
    fn fmt<W: Write>(&self, f: &mut fmt::Formatter<W>) -> fmt::Result {
        match self {
            Fault::LineTooLong => write!(f, "line too long"),
            Fault::NoSuchQuestion => write!(f, "no such question"),
            Fault::NoSuchBuffer => write!(f, "no such buffer"),
            Fault::NoSuchEntry => write!(f, "no such entry"),
            Fault::NotANumber => write!(f, "not a number"),
            Fault::NumberAbove(limit) => write!(f, "number above {limit}"),
            Fault::TooManyNumbers => write!(f, "too many numbers"),
            Fault::TooFewNumbers => write!(f, "too few numbers"),
            Fault::PastTheBook => write!(f, "past the end of the book"),
            Fault::RoomAbove(limit) => write!(f, "room above {limit}"),
            Fault::FaresMoreThan(limit) => write!(f, "fares more than {limit}"),
            Fault::FileLongerThan(limit) => write!(f, "file longer than {limit}"),
            Fault::FileNotOpened => write!(f, "file cannot be opened"),
            Fault::FileNotWritten => write!(f, "file cannot be written"),
            Fault::NoRoomForTheSheet => write!(f, "no room for the sheet"),
        }
    }
}
