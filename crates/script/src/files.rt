// Files: the book from one or into one, and the bytes of one.
ghost use Rattle.std.specs.Prelude.{◌≡◌, ◌≤◌, length, IfOk, OnErr, OnOk};
ghost use Rattle.std.specs.Io.{ReadsAtMost};
ghost use Rattle.script.specs.Tables.{no_labels};

use super::books::BOOK_ROOM;
use super::laid::Desk;
use super::writing::Fault;
use std::io::{ErrorKind, Read};
use std::rt::Files;
use std::{fs, io, str};

// One byte more than a book may have, so that a longer file is seen.
pub const FILE_ROOM: usize = BOOK_ROOM + 1;

// A file's name is UTF-8: by another none can be opened.
fn path_of(name: &[u8]) -> io::Result<&str> {
    str::from_utf8(name).map_err(|_| io::Error::from(ErrorKind::InvalidFilename))
}

pub fn open_file<R: Files>(rt: &R, name: &[u8]) -> io::Result<R::File> {
    fs::open(rt, path_of(name)?)
}

// Reads until the bytes have no more room, or the file ends.
pub fn read_full(file: &mut impl Read, bytes: &mut [u8]) -> io::Result<usize>
    ensures { ReadsAtMost result bytes.new }
{
    let mut end = 0;
    // nothing says how often a read is broken into, so that the reads are counted to a number that no run comes to
    'reads: for _ in 0..u64::MAX {
        match file.read(&mut bytes[end..]) {
            Ok(0) => return Ok(end),
            Ok(got) => end += got,
            Err(error) if error.kind() == ErrorKind::Interrupted => {}
            Err(error) => return Err(error),
        }
    }
    Ok(end)
}

// A file's first bytes; a folder, too, cannot be read.
pub fn read_file<'a>(
    rt: &impl Files,
    name: &[u8],
    room: &'a mut [u8; FILE_ROOM],
) -> Result<&'a [u8], Fault>
    ensures { IfOk result (λ bytes. length bytes.now ≤ FILE_ROOM) }
{
    let mut file = open_file(rt, name).map_err(|_| Fault::FileNotOpened)?;
    let end = read_full(&mut file, room).map_err(|_| Fault::FileNotOpened)?;
    Ok(&room[..end])
}

fn write_file(rt: &impl Files, name: &[u8], bytes: &[u8]) -> io::Result<()> {
    fs::write(rt, path_of(name)?, bytes)
}

pub fn open_book(rt: &impl Files, name: &[u8], desk: &mut Desk) -> Result<(), Fault>
    ensures turns { OnOk result (desk.new.turns ≡ no_labels) }
    ensures links { OnOk result (desk.new.links ≡ no_labels) }
    ensures route { desk.new.route ≡ desk.old.route }
    ensures fares { desk.new.fares ≡ desk.old.fares }
    ensures err { OnErr result (desk.new ≡ desk.old) }
{
    let mut room = [0u8; FILE_ROOM];
    let bytes = read_file(rt, name, &mut room)?;
    desk.take_book(bytes)
}

// Whether the book is that file byte for byte.
pub fn same_book(rt: &impl Files, name: &[u8], desk: &Desk) -> Result<bool, Fault> {
    let mut room = [0u8; FILE_ROOM];
    let bytes = read_file(rt, name, &mut room)?;
    Ok(bytes == desk.book.as_bytes())
}

pub fn save_book(rt: &impl Files, name: &[u8], desk: &Desk) -> Result<(), Fault> {
    write_file(rt, name, desk.book.as_bytes()).map_err(|_| Fault::FileNotWritten)
}
