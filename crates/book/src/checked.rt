// A checked book, carried together with its counts: the fields of an entry that lies within its table.
ghost use Rattle.std.specs.Prelude.{◌≡◌, ◌≤◌, ◌<◌, Ok};
ghost use Rattle.book.specs.Tables.{line_table, link_table, turn_table, pair_table};
ghost use Rattle.book.specs.Entries.{line_headway, link_from, link_to, link_line, link_ride};
ghost use Rattle.book.specs.Entries.{turn_first, turn_second, turn_walk, pair_first, pair_second, pair_extra};
ghost use Rattle.book.specs.Check.{check_of};
ghost use Rattle.book.specs.Runs.{run_from};

use super::runs::run_from;
use super::tables::{
    Entries, JOIN_BYTES, LINE_BYTES, LINK_BYTES, line_table, link_table, pair_table, turn_table,
};
use super::{CheckedBook, Counts, LinkNumber, NodeNumber, TurnNumber};

impl<'a> CheckedBook<'a> {
    // The one place where such a book is made.
    pub fn carry(book: &'a [u8], counts: Counts) -> CheckedBook<'a>
        requires { check_of book.now ≡ Ok counts }
        ensures bytes { result.bytes ≡ book.entry }
        ensures counts { result.counts ≡ counts }
    {
        CheckedBook {
            bytes: book,
            counts,
        }
    }

    fn lines(self) -> Entries<'a, LINE_BYTES>
        ensures bytes { result.bytes.now ≡ line_table self.entry.bytes.now self.entry.counts }
        ensures count { result.count ≡ self.entry.counts.lines }
    {
        line_table(self.bytes, self.counts)
    }

    fn links(self) -> Entries<'a, LINK_BYTES>
        ensures bytes { result.bytes.now ≡ link_table self.entry.bytes.now self.entry.counts }
        ensures count { result.count ≡ self.entry.counts.links }
    {
        link_table(self.bytes, self.counts)
    }

    fn turns(self) -> Entries<'a, JOIN_BYTES>
        ensures bytes { result.bytes.now ≡ turn_table self.entry.bytes.now self.entry.counts }
        ensures count { result.count ≡ self.entry.counts.turns }
    {
        turn_table(self.bytes, self.counts)
    }

    fn pairs(self) -> Entries<'a, JOIN_BYTES>
        ensures bytes { result.bytes.now ≡ pair_table self.entry.bytes.now self.entry.counts }
        ensures count { result.count ≡ self.entry.counts.pairs }
    {
        pair_table(self.bytes, self.counts)
    }

    pub fn line_headway(self, line: u16) -> u16
        requires { line < self.counts.lines }
        ensures { result ≡ line_headway (line_table self.entry.bytes.now self.entry.counts) line }
    {
        self.lines().field(0, usize::from(line))
    }

    pub fn link_from(self, link: LinkNumber) -> NodeNumber
        requires { link.0 < self.counts.links }
        ensures { result.0 ≡ link_from (link_table self.entry.bytes.now self.entry.counts) link.0 }
    {
        NodeNumber(self.links().field(0, usize::from(link.0)))
    }

    pub fn link_to(self, link: LinkNumber) -> NodeNumber
        requires { link.0 < self.counts.links }
        ensures { result.0 ≡ link_to (link_table self.entry.bytes.now self.entry.counts) link.0 }
    {
        NodeNumber(self.links().field(2, usize::from(link.0)))
    }

    pub fn link_line(self, link: LinkNumber) -> u16
        requires { link.0 < self.counts.links }
        ensures value { result ≡ link_line (link_table self.entry.bytes.now self.entry.counts) link.0 }
        ensures exists { result < self.entry.counts.lines }
    {
        self.links().field(4, usize::from(link.0))
    }

    pub fn link_ride(self, link: LinkNumber) -> u16
        requires { link.0 < self.counts.links }
        ensures { result ≡ link_ride (link_table self.entry.bytes.now self.entry.counts) link.0 }
    {
        self.links().field(6, usize::from(link.0))
    }

    pub fn turn_first(self, turn: TurnNumber) -> LinkNumber
        requires { turn.0 < self.counts.turns }
        ensures value { result.0 ≡ turn_first (turn_table self.entry.bytes.now self.entry.counts) turn.0 }
        ensures exists { result.0 < self.entry.counts.links }
    {
        LinkNumber(self.turns().field(0, usize::from(turn.0)))
    }

    pub fn turn_second(self, turn: TurnNumber) -> LinkNumber
        requires { turn.0 < self.counts.turns }
        ensures value { result.0 ≡ turn_second (turn_table self.entry.bytes.now self.entry.counts) turn.0 }
        ensures exists { result.0 < self.entry.counts.links }
    {
        LinkNumber(self.turns().field(2, usize::from(turn.0)))
    }

    pub fn turn_walk(self, turn: TurnNumber) -> u16
        requires { turn.0 < self.counts.turns }
        ensures { result ≡ turn_walk (turn_table self.entry.bytes.now self.entry.counts) turn.0 }
    {
        self.turns().field(4, usize::from(turn.0))
    }

    pub fn pair_first(self, pair: u16) -> TurnNumber
        requires { pair < self.counts.pairs }
        ensures { result.0 ≡ pair_first (pair_table self.entry.bytes.now self.entry.counts) pair }
    {
        TurnNumber(self.pairs().field(0, usize::from(pair)))
    }

    pub fn pair_second(self, pair: u16) -> TurnNumber
        requires { pair < self.counts.pairs }
        ensures { result.0 ≡ pair_second (pair_table self.entry.bytes.now self.entry.counts) pair }
    {
        TurnNumber(self.pairs().field(2, usize::from(pair)))
    }

    pub fn pair_extra(self, pair: u16) -> u16
        requires { pair < self.counts.pairs }
        ensures { result ≡ pair_extra (pair_table self.entry.bytes.now self.entry.counts) pair }
    {
        self.pairs().field(4, usize::from(pair))
    }

    // The first turn whose first link is number n or a later one, or the count of turns.
    pub fn turns_from(self, n: usize) -> usize
        ensures value { result ≡ run_from (turn_table self.entry.bytes.now self.entry.counts) self.entry.counts.turns n }
        ensures within { result ≤ self.entry.counts.turns }
    {
        run_from(self.turns(), n)
    }

    // The first pair whose first turn is number n or a later one, or the count of pairs.
    pub fn pairs_from(self, n: usize) -> usize
        ensures value { result ≡ run_from (pair_table self.entry.bytes.now self.entry.counts) self.entry.counts.pairs n }
        ensures within { result ≤ self.entry.counts.pairs }
    {
        run_from(self.pairs(), n)
    }
}
