// The day book on the desk.
ghost use Rattle.std.specs.Prelude.{◌≡◌, ◌+◌, ◌-◌, ◌*◌, ◌/◌, ◌≤◌, ◌↔◌, [], length, take, drop, min, IsOk, OnErr, OnOk, IsOkUnless};
ghost use Rattle.script.specs.BookBytes.{bytes_in, byte_count, byte_length, laid, room_of, first_number, new_book};

use super::figures::first_mut;
use super::words::narrow;
use super::writing::Fault;

// A longer book is refused by its header alone.
pub const BOOK_ROOM: usize = 65536;

const MARK_AND_VERSION: &[u8] = b"LTB\x01";

const LINKS_AT: usize = 9;

const TURNS_AT: usize = 11;

const MOST_LINKS: usize = 2048;

const MOST_TURNS: usize = 4096;

// A book's bytes up to its length, and noughts beyond. No ghost field bounds the length, since a part of such a struct's array cannot be lent as `&mut`.
#[derive(Drop)]
pub struct DayBook {
    bytes: [u8; BOOK_ROOM],
    length: usize,
}

impl DayBook {
    pub fn empty() -> DayBook
        ensures { bytes_in result ≡ [] }
    {
        DayBook {
            bytes: [0; BOOK_ROOM],
            length: 0,
        }
    }

    pub fn as_bytes(&self) -> &[u8]
        ensures bytes { result.now ≡ bytes_in self.now }
        ensures within { length result.now ≤ BOOK_ROOM }
    {
        &self.bytes[..self.length.min(BOOK_ROOM)]
    }

    pub fn as_bytes_mut(&mut self) -> &mut [u8]
        ensures bytes { result.now ≡ bytes_in self.old }
        ensures within { length result.now ≤ BOOK_ROOM }
    {
        let length = self.length;
        first_mut(&mut self.bytes, length)
    }

    // Cut, or filled up with noughts.
    pub fn set_length(&mut self, length: usize)
        ensures room { room_of self.new ≡ laid (min length BOOK_ROOM) (room_of self.old) }
        ensures bytes { bytes_in self.new ≡ take length (room_of self.old) }
        ensures count { byte_count self.new ≡ min length BOOK_ROOM }
    {
        let end = length.min(BOOK_ROOM);
        self.bytes[end..].fill(0);
        self.length = end;
    }

    // These bytes and then noughts.
    fn begin(&mut self, bytes: &[u8], length: usize)
        ensures bytes { bytes_in self.new ≡ take length (laid (min (byte_length bytes.now) BOOK_ROOM) bytes.now) }
        ensures count { byte_count self.new ≡ min length BOOK_ROOM }
    {
        self.bytes.fill(0);
        let kept = bytes.len().min(BOOK_ROOM);
        self.bytes[..kept].copy_from_slice(&bytes[..kept]);
        self.set_length(length);
    }

    // A book of noughts behind mark and version.
    pub fn begin_new(&mut self, length: usize)
        ensures bytes { bytes_in self.new ≡ new_book length }
        ensures count { byte_count self.new ≡ min length BOOK_ROOM }
    {
        self.begin(MARK_AND_VERSION, length);
    }

    pub fn take(&mut self, bytes: &[u8]) -> Result<(), Fault>
        ensures taken { IsOk result ↔ (length bytes.now ≤ BOOK_ROOM) }
        ensures only { IsOkUnless result (Fault.FileLongerThan BOOK_ROOM) }
        ensures ok { OnOk result (bytes_in self.new ≡ bytes.now) }
        ensures err { OnErr result (self.new ≡ self.old) }
    {
        if BOOK_ROOM < bytes.len() {
            return Err(Fault::FileLongerThan(BOOK_ROOM));
        }
        self.begin(bytes, bytes.len());
        Ok(())
    }

    // Two-byte numbers written from a byte on.
    pub fn write_numbers(&mut self, at: usize, values: &[u32]) -> Result<(), Fault>
        ensures fits { IsOk result ↔ ((at ≤ byte_count self.old) × (length values.now ≤ (byte_count self.old - at) / 2)) }
        ensures only { IsOkUnless result Fault.PastTheBook }
        ensures err { OnErr result (self.new ≡ self.old) }
    {
        // looked at before the bytes are lent to be written, so that a refusal changes nothing
        match self.as_bytes().get(at..) {
            Some(rest) if values.len() <= rest.len() / 2 => {}
            _ => return Err(Fault::PastTheBook),
        }
        let (pairs, _) = self.as_bytes_mut()[at..].as_chunks_mut::<2>();
        for (pair, value) in pairs.iter_mut().zip(values) {
            *pair = narrow(*value).to_le_bytes();
        }
        Ok(())
    }

    // How many entries the header counts; none where the count does not lie within the book.
    fn counted_at(&self, at: usize) -> usize
        ensures { result ≡ first_number (drop at (bytes_in self.now)) }
    {
        match self.as_bytes().get(at..) {
            Some([low, high, ..]) => usize::from(u16::from_le_bytes([*low, *high])),
            _ => 0,
        }
    }

    pub fn turns(&self) -> usize
        ensures { result ≡ min (first_number (drop TURNS_AT (bytes_in self.now))) MOST_TURNS }
    {
        self.counted_at(TURNS_AT).min(MOST_TURNS)
    }

    pub fn links(&self) -> usize
        ensures { result ≡ min (first_number (drop LINKS_AT (bytes_in self.now))) MOST_LINKS }
    {
        self.counted_at(LINKS_AT).min(MOST_LINKS)
    }
}
