// What lies on the desk: a day book, its labels, the route buffer and the fares.
ghost use Rattle.std.specs.Prelude.{◌≡◌, ◌<◌, ◌≤◌, ◌↔◌, [], ◌∷◌, length, min, unwrap_or, IsOk, OnOk, OnErr, IsOkUnless};
ghost use Rattle.script.specs.declared.figures.TheConstants.{LENT_ROOM};
ghost use Rattle.script.specs.BookBytes.{bytes_in, new_book};
ghost use Rattle.script.specs.Tables.{FitsIn, no_labels};

use super::books::{BOOK_ROOM, DayBook};
use super::figures::{Buffer, LENT_ROOM, Table, first_mut};
use super::writing::{Fault, Text};

// The route buffer, and how much of it is lent: what is past that stays, so that a refusal and a shorter route are seen to leave it. As with the book, no ghost field bounds the room.
#[derive(Drop)]
pub struct RouteBuffer {
    links: [u16; LENT_ROOM],
    room: usize,
}

impl RouteBuffer {
    ghost use Rattle.script.specs.Laid.{no_route, links_lent_in, with_room};

    pub fn new() -> RouteBuffer
        ensures { result ≡ no_route }
    {
        RouteBuffer {
            links: [0; LENT_ROOM],
            room: LENT_ROOM,
        }
    }

    pub fn lent_mut(&mut self) -> &mut [u16]
        ensures links { result.now ≡ links_lent_in self.old }
        ensures within { length result.now ≤ LENT_ROOM }
    {
        let room = self.room;
        first_mut(&mut self.links, room)
    }

    // Room for the longest route where none is said.
    pub fn set_room(&mut self, room: Option<usize>) -> Result<(), Fault>
        ensures fits { IsOk result ↔ (unwrap_or room LENT_ROOM ≤ LENT_ROOM) }
        ensures only { IsOkUnless result (Fault.RoomAbove LENT_ROOM) }
        ensures ok { OnOk result (self.new ≡ with_room self.old (unwrap_or room LENT_ROOM)) }
        ensures err { OnErr result (self.new ≡ self.old) }
    {
        let room = room.unwrap_or(LENT_ROOM);
        if LENT_ROOM < room {
            return Err(Fault::RoomAbove(LENT_ROOM));
        }
        self.room = room;
        Ok(())
    }

    pub fn put(&self, text: &mut Text) {
        self.put_first(self.room, text);
    }

    // The first so many numbers.
    pub fn put_first(&self, count: usize, text: &mut Text) {
        for link in &self.links[..count.min(LENT_ROOM)] {
            text.put_figure(*link);
        }
    }
}

// Basic distance, step, premium, and the fare table.
#[derive(Drop)]
pub struct Fares {
    pub basic_distance: u32,
    pub step: u32,
    pub premium: u32,
    table: [u32; LENT_ROOM],
    count: usize,
    ghost within: { count ≤ LENT_ROOM },
}

impl Fares {
    ghost use Rattle.script.specs.Laid.{fare_table};

    pub fn none() -> Fares
        ensures basic_distance { result.basic_distance ≡ 0 }
        ensures step { result.step ≡ 0 }
        ensures premium { result.premium ≡ 0 }
        ensures table { fare_table result ≡ [] }
    {
        Fares {
            basic_distance: 0,
            step: 0,
            premium: 0,
            table: [0; LENT_ROOM],
            count: 0,
        }
    }

    pub fn table(&self) -> &[u32]
        ensures figures { result.now ≡ fare_table self.now }
        ensures within { length result.now ≤ LENT_ROOM }
    {
        &self.table[..self.count]
    }

    pub fn take(&mut self, terms: [u32; 3], table: &[u32]) -> Result<(), Fault>
        ensures fits { IsOk result ↔ (length table.now ≤ LENT_ROOM) }
        ensures only { IsOkUnless result (Fault.FaresMoreThan LENT_ROOM) }
        ensures terms { OnOk result (self.new.basic_distance ∷ self.new.step ∷ self.new.premium ∷ [] ≡ terms) }
        ensures table { OnOk result (fare_table self.new ≡ table.now) }
        ensures err { OnErr result (self.new ≡ self.old) }
    {
        let count = table.len();
        if LENT_ROOM < count {
            return Err(Fault::FaresMoreThan(LENT_ROOM));
        }
        let [basic_distance, step, premium] = terms;
        self.basic_distance = basic_distance;
        self.step = step;
        self.premium = premium;
        // place by place: an array beside a ghost field cannot be lent to `copy_from_slice` yet
        for (at, figure) in table.iter().enumerate() {
            self.table[at] = *figure;
        }
        self.count = count;
        Ok(())
    }
}

#[derive(Drop)]
pub struct Desk {
    pub book: DayBook,
    pub turns: Table,
    pub links: Table,
    pub route: RouteBuffer,
    pub fares: Fares,
}

impl Desk {
    ghost use Rattle.script.specs.Laid.{no_route, fare_table};
    ghost use Rattle.script.specs.Desks.{column_of, turns_on, links_on, lent_on, with_lent, with_label};

    // No book, no label, no route and no fares.
    pub fn empty() -> Desk
        ensures book { bytes_in result.book ≡ [] }
        ensures turns { result.turns ≡ no_labels }
        ensures links { result.links ≡ no_labels }
        ensures route { result.route ≡ no_route }
        ensures fares { fare_table result.fares ≡ [] }
    {
        Desk {
            book: DayBook::empty(),
            turns: Table::new(),
            links: Table::new(),
            route: RouteBuffer::new(),
            fares: Fares::none(),
        }
    }

    // No label stands beside another book, and no buffer is under a `lend`.
    fn clear_labels(&mut self)
        ensures { self.new ≡ record self.old { turns = no_labels; links = no_labels } }
    {
        self.turns = Table::new();
        self.links = Table::new();
    }

    pub fn begin_book(&mut self, length: usize)
        ensures book { bytes_in self.new.book ≡ new_book length }
        ensures turns { self.new.turns ≡ no_labels }
        ensures links { self.new.links ≡ no_labels }
        ensures route { self.new.route ≡ self.old.route }
        ensures fares { self.new.fares ≡ self.old.fares }
    {
        self.book.begin_new(length);
        self.clear_labels();
    }

    pub fn take_book(&mut self, bytes: &[u8]) -> Result<(), Fault>
        ensures fits { IsOk result ↔ (length bytes.now ≤ BOOK_ROOM) }
        ensures only { IsOkUnless result (Fault.FileLongerThan BOOK_ROOM) }
        ensures book { OnOk result (bytes_in self.new.book ≡ bytes.now) }
        ensures turns { OnOk result (self.new.turns ≡ no_labels) }
        ensures links { OnOk result (self.new.links ≡ no_labels) }
        ensures route { self.new.route ≡ self.old.route }
        ensures fares { self.new.fares ≡ self.old.fares }
        ensures err { OnErr result (self.new ≡ self.old) }
    {
        self.book.take(bytes)?;
        self.clear_labels();
        Ok(())
    }

    // How many numbers of a label buffer are lent.
    pub fn lent(&self, buffer: Buffer) -> usize
        ensures value { result ≡ lent_on self.now buffer }
        ensures within { result ≤ LENT_ROOM }
    {
        match buffer {
            Buffer::Turn(column) => self.turns.lent(column, self.book.turns()),
            Buffer::Link(column) => self.links.lent(column, self.book.links()),
        }
    }

    pub fn lend(&mut self, buffer: Buffer, count: Option<usize>)
        ensures { self.new ≡ with_lent self.old buffer count }
    {
        match buffer {
            Buffer::Turn(column) => self.turns.lend(column, count),
            Buffer::Link(column) => self.links.lend(column, count),
        }
    }

    pub fn alter(&mut self, buffer: Buffer, at: usize, value: u32) -> Result<(), Fault>
        ensures beyond { (result ≡ Err Fault.NoSuchEntry) ↔ (lent_on self.old buffer ≤ at) }
        ensures fits { IsOk result ↔ ((at < lent_on self.old buffer) × FitsIn (column_of buffer) value) }
        ensures ok { OnOk result (self.new ≡ with_label self.old buffer at value) }
        ensures err { OnErr result (self.new ≡ self.old) }
    {
        let lent = self.lent(buffer);
        match buffer {
            Buffer::Turn(column) => self.turns.alter(column, lent, at, value),
            Buffer::Link(column) => self.links.alter(column, lent, at, value),
        }
    }

    pub fn put_turn(&self, entry: usize, text: &mut Text) -> Result<(), Fault>
        ensures put { IsOk result ↔ (entry < turns_on self.now) }
        ensures only { IsOkUnless result Fault.NoSuchEntry }
        ensures err { OnErr result (text.new ≡ text.old) }
    {
        self.turns.put_entry(entry, self.book.turns(), text)
    }

    pub fn put_link(&self, entry: usize, text: &mut Text) -> Result<(), Fault>
        ensures put { IsOk result ↔ (entry < links_on self.now) }
        ensures only { IsOkUnless result Fault.NoSuchEntry }
        ensures err { OnErr result (text.new ≡ text.old) }
    {
        self.links.put_entry(entry, self.book.links(), text)
    }

    pub fn put_turns(&self, text: &mut Text) {
        self.turns.put_entries(self.book.turns(), text);
    }

    pub fn put_links(&self, text: &mut Text) {
        self.links.put_entries(self.book.links(), text);
    }
}
