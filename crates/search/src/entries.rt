// One entry of a table of labels: what it holds, and the offer of another label.
ghost use Rattle.std.specs.Prelude.{◌≡◌, ◌+◌, ◌<◌, ℕ, length};
ghost use Rattle.walk.specs.Labels.{Entry, entry_at};
ghost use Rattle.walk.specs.steps.ViewNet.{is_none};
ghost use Rattle.search.specs.declared.Label.{Label};
ghost use Rattle.search.specs.Lent.{labels_in, table_in, SameBuffers};
ghost use Rattle.search.specs.steps.Tables.{as_entry, own_label, one_turn_on, stands_as, placed, goes_ahead, offered, table_up_to, Sized, Holds};
ghost use Rattle.search.specs.steps.Judging.{limited};

use super::figures::{MOST_WALK_LINKS, MOST_WALK_SECONDS, NO_WALK};
use super::{Label, Labels, LabelsMut};
use book::TurnNumber;

impl Label {
    // The label of a walk with one turn more, by these seconds.
    pub fn one_turn_on(self, more: u32, before: TurnNumber) -> Label
        requires { (self.cost + more < 4294967296) × (self.links < 65535) }
        ensures { as_entry result ≡ one_turn_on self.cost self.links more before.0 }
    {
        Label {
            cost: self.cost + more,
            links: self.links + 1,
            back: before.0,
        }
    }

    // By cost, then links, then back. Named, as the next two are: their clauses speak of the definitions' entries, an operator's of the fields.
    pub fn goes_ahead(self, other: Label) -> bool
        ensures { result ≡ goes_ahead (as_entry self) (as_entry other) }
    {
        self < other
    }

    #[tactic(auto, unfolding(walk::specs::Counting::same_entry))]
    pub fn same_as(self, other: Label) -> bool
        ensures { result ≡ stands_as (as_entry self) (as_entry other) }
    {
        self == other
    }

    #[tactic(auto, unfolding(walk::specs::steps::ViewNet::is_none, walk::specs::Counting::same_entry))]
    pub fn is_none(self) -> bool
        ensures { result ≡ is_none (as_entry self) }
    {
        self.same_as(NO_WALK)
    }

    // Whether a turn's chosen walk may have these figures.
    #[tactic(auto, unfolding(crate::specs::steps::Judging::limited))]
    pub fn limited(self) -> bool
        ensures { result ≡ limited (as_entry self) }
    {
        (2 <= self.links) & ((self.links <= MOST_WALK_LINKS) & (self.cost <= MOST_WALK_SECONDS))
    }
}

impl Labels<'_> {
    pub fn at(self, entry: usize) -> Label
        requires { Holds (labels_in self) entry }
        ensures { as_entry result ≡ entry_at (labels_in self.entry) entry }
    {
        Label {
            cost: self.cost[entry],
            links: self.links[entry],
            back: self.back[entry],
        }
    }

    // What a turn or a link offers: its figures, and its own number as the back.
    pub fn own(self, entry: u16) -> Label
        requires { (entry < length self.cost.now) × (entry < length self.links.now) }
        ensures { as_entry result ≡ own_label self.entry.cost.now self.entry.links.now entry }
    {
        Label {
            cost: self.cost[usize::from(entry)],
            links: self.links[usize::from(entry)],
            back: entry,
        }
    }
}

impl LabelsMut<'_> {
    // The same buffers, for reading.
    pub fn lent(&self) -> Labels<'_>
        ensures { labels_in result ≡ table_in self.now }
    {
        Labels {
            cost: self.cost,
            links: self.links,
            back: self.back,
        }
    }

    pub fn place(&mut self, entry: usize, label: Label)
        requires { Holds (table_in self.old) entry }
        ensures placed { table_in self.new ≡ placed (table_in self.old) entry (as_entry label) }
        ensures same { SameBuffers self.old self.new }
    {
        self.cost[entry] = label.cost;
        self.links[entry] = label.links;
        self.back[entry] = label.back;
    }

    // So many entries, each with the label that is made of its number; as required there are few enough that `u16` holds their count.
    pub fn fill<F: Fn(u16) -> Label>(&mut self, count: usize, label_of: F)
        requires sized { Sized count (table_in self.old) }
        requires few { count < 65536 }
        requires label_of { (k : ℕ) → k < count → F.pre label_of k }
        ensures filled { (entry : ℕ → Entry) → ((k : ℕ) (label : Label) → k < count → F.post label_of k label → as_entry label ≡ entry k) → table_in self.new ≡ table_up_to count entry }
        ensures same { SameBuffers self.old self.new }
    {
        for entry in 0..count as u16 {
            let label = label_of(entry);
            self.place(usize::from(entry), label);
        }
    }

    // The entry takes the label where it goes ahead of its own.
    #[tactic(auto, unfolding(crate::specs::steps::Tables::offered))]
    pub fn offer(&mut self, entry: usize, label: Label)
        requires { Holds (table_in self.old) entry }
        ensures offered { table_in self.new ≡ offered (table_in self.old) entry (as_entry label) }
        ensures same { SameBuffers self.old self.new }
    {
        if label.goes_ahead(self.lent().at(entry)) {
            self.place(entry, label);
        }
    }
}
