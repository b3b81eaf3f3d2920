// The lines of a script, out of blocks of its bytes.
ghost use Rattle.script.specs.declared.reading.TheConstants.{BLOCK_ROOM};
ghost use Rattle.std.specs.Prelude.{◌≡◌, ◌≤◌, [], length, IfSome};

use std::io;
use std::io::Read;

const BLOCK_ROOM: usize = 65536;

// What ends a line: the sign for it, the file's end, or that the file cannot be read on.
#[derive(Clone, Copy, Debug, PartialEq, Eq)]
pub enum Ending {
    Line,
    File,
    Broken,
}

// A block of a file; its bytes from a place on are still to be taken. std's BufReader needs a heap.
#[derive(Drop)]
pub struct Block {
    bytes: [u8; BLOCK_ROOM],
    at: usize,
    end: usize,
    ghost within: { end ≤ BLOCK_ROOM },
}

impl Block {
    ghost use Rattle.script.specs.Blocks.{bytes_left};

    pub fn new() -> Block
        ensures { bytes_left result ≡ [] }
    {
        Block {
            bytes: [0; BLOCK_ROOM],
            at: 0,
            end: 0,
        }
    }

    // Nothing is left to take, as of a file that is not yet read.
    pub fn clear(&mut self)
        ensures { bytes_left self.new ≡ [] }
    {
        self.at = 0;
        self.end = 0;
    }

    // The next byte of the file, out of its next block where nothing of this one is left.
    fn next_byte(&mut self, file: &mut impl Read) -> io::Result<Option<u8>> {
        if self.end <= self.at {
            self.clear();
            let end = file.read(&mut self.bytes)?;
            self.end = end;
        }
        if self.end <= self.at {
            return Ok(None);
        }
        let byte = self.bytes[self.at];
        self.at += 1;
        Ok(Some(byte))
    }

    // The bytes up to the next end of a line, or of the file; none where the line has no room.
    pub fn take_line<'a>(
        &mut self,
        file: &mut impl Read,
        line: &'a mut [u8],
    ) -> (Option<&'a [u8]>, Ending)
        ensures { IfSome result.0 (λ taken. length taken.now ≤ length line.old) }
    {
        // counted past the room too, so that a longer line is seen
        let mut length = 0usize;
        let mut ending = Ending::File;
        // nothing says that a file ends, so that the bytes are counted to a number that no run comes to
        for _ in 0..u64::MAX {
            match self.next_byte(file) {
                Ok(Some(b'\n')) => {
                    ending = Ending::Line;
                    break;
                }
                Ok(Some(byte)) => {
                    if let Some(place) = line.get_mut(length) {
                        *place = byte;
                    }
                    length = length.saturating_add(1);
                }
                Ok(None) => break,
                Err(_) => {
                    ending = Ending::Broken;
                    break;
                }
            }
        }
        (line.get(..length), ending)
    }
}
