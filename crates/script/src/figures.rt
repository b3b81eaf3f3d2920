// The label figures on the desk: a table for turns and one for links, and how much of each buffer is lent.
ghost use Rattle.std.specs.Prelude.{◌≡◌, ◌<◌, ◌≤◌, ◌↔◌, length, take, min, unwrap_or, IsOk, IfOk, OnErr, OnOk, IsOkUnless};
ghost use Rattle.script.specs.Tables.{no_labels, named_of, with_named, with_figure, FitsIn};

use super::writing::{Fault, Text};

// One more than the most turns, and as many as the longest route has links.
pub const LENT_ROOM: usize = 4097;

#[derive(Clone, Copy, Debug, PartialEq, Eq)]
pub enum Column {
    Cost,
    Links,
    Back,
}

// A label buffer: a column of the turns' table or of the links'.
#[derive(Clone, Copy, Debug, PartialEq, Eq)]
pub enum Buffer {
    Turn(Column),
    Link(Column),
}

impl TryFrom<&[u8]> for Buffer {
    ghost use Rattle.script.specs.Questions.{NamesBuffer};

    ghost try_from_gives = { λ name result. NamesBuffer name.now result };

    type Error = Fault;

    fn try_from(name: &[u8]) -> Result<Buffer, Fault> {
        match name {
            b"turn-cost" => Ok(Buffer::Turn(Column::Cost)),
            b"turn-links" => Ok(Buffer::Turn(Column::Links)),
            b"turn-back" => Ok(Buffer::Turn(Column::Back)),
            b"link-cost" => Ok(Buffer::Link(Column::Cost)),
            b"link-links" => Ok(Buffer::Link(Column::Links)),
            b"link-back" => Ok(Buffer::Link(Column::Back)),
            _ => Err(Fault::NoSuchBuffer),
        }
    }
}

// Cost, links and back of each entry, each a buffer of its own, as document 01 lends and measures them apart; and how much is lent of a column that a `lend` named.
#[derive(Drop)]
pub struct Table {
    pub cost: [u32; LENT_ROOM],
    pub links: [u16; LENT_ROOM],
    pub back: [u16; LENT_ROOM],
    cost_lent: Option<usize>,
    links_lent: Option<usize>,
    back_lent: Option<usize>,
}

impl Table {
    pub fn new() -> Table
        ensures { result ≡ no_labels }
    {
        Table {
            cost: [0; LENT_ROOM],
            links: [0; LENT_ROOM],
            back: [0; LENT_ROOM],
            cost_lent: None,
            links_lent: None,
            back_lent: None,
        }
    }

    // How much of a column is lent: as much as the book counts where no `lend` named it.
    pub fn lent(&self, column: Column, counted: usize) -> usize
        ensures value { result ≡ min (unwrap_or (named_of self.now column) counted) LENT_ROOM }
        ensures within { result ≤ LENT_ROOM }
    {
        let named = match column {
            Column::Cost => self.cost_lent,
            Column::Links => self.links_lent,
            Column::Back => self.back_lent,
        };
        named.unwrap_or(counted).min(LENT_ROOM)
    }

    pub fn lend(&mut self, column: Column, count: Option<usize>)
        ensures { self.new ≡ with_named self.old column count }
    {
        match column {
            Column::Cost => self.cost_lent = count,
            Column::Links => self.links_lent = count,
            Column::Back => self.back_lent = count,
        }
    }

    // A figure overwritten, among those that are lent.
    pub fn alter(&mut self, column: Column, lent: usize, at: usize, value: u32) -> Result<(), Fault>
        ensures beyond { (result ≡ Err Fault.NoSuchEntry) ↔ (min lent LENT_ROOM ≤ at) }
        ensures ok { OnOk result (self.new ≡ with_figure self.old column at value) }
        ensures fits { IsOk result ↔ ((at < min lent LENT_ROOM) × FitsIn column value) }
        ensures err { OnErr result (self.new ≡ self.old) }
    {
        if lent.min(LENT_ROOM) <= at {
            return Err(Fault::NoSuchEntry);
        }
        match column {
            Column::Cost => self.cost[at] = value,
            Column::Links => self.links[at] = two_bytes(value)?,
            Column::Back => self.back[at] = two_bytes(value)?,
        }
        Ok(())
    }

    // The first entries.
    pub fn put_entries(&self, count: usize, text: &mut Text) {
        let end = count.min(LENT_ROOM);
        put_rows(
            &self.cost[..end],
            &self.links[..end],
            &self.back[..end],
            text,
        );
    }

    pub fn put_entry(&self, entry: usize, count: usize, text: &mut Text) -> Result<(), Fault>
        ensures put { IsOk result ↔ (entry < min count LENT_ROOM) }
        ensures only { IsOkUnless result Fault.NoSuchEntry }
        ensures err { OnErr result (text.new ≡ text.old) }
    {
        if count.min(LENT_ROOM) <= entry {
            return Err(Fault::NoSuchEntry);
        }
        put_row(self.cost[entry], self.links[entry], self.back[entry], text);
        Ok(())
    }
}

fn put_row(cost: u32, links: u16, back: u16, text: &mut Text) {
    text.put_figure(cost);
    text.put_figure(links);
    text.put_figure(back);
}

fn put_rows(costs: &[u32], links: &[u16], backs: &[u16], text: &mut Text) {
    for ((cost, links), back) in costs.iter().zip(links).zip(backs) {
        put_row(*cost, *links, *back, text);
    }
}

fn two_bytes(value: u32) -> Result<u16, Fault>
    ensures value { IfOk result (λ number. number ≡ value) }
    ensures fits { IsOk result ↔ (value < 65536) }
    ensures err { OnErr result (result ≡ Err (Fault.NumberAbove 65535)) }
{
    u16::try_from(value).map_err(|_| Fault::NumberAbove(u64::from(u16::MAX)))
}

// The first so many of the items, or all: a part of a field that is an array is not handed out by a slice of it in place yet.
pub fn first_mut<T>(items: &mut [T], count: usize) -> &mut [T]
    ensures items { result.now ≡ take count items.old }
    ensures count { length result.now ≡ min count (length items.old) }
{
    let end = count.min(items.len());
    &mut items[..end]
}
