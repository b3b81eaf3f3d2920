// The judge's tests of a turn: its label comes from its start or its back, and nothing that is offered goes ahead of what stands.
ghost use Rattle.std.specs.Prelude.{◌≡◌, true, not, ◌≤◌, ◌<◌, get_or};
ghost use Rattle.book.specs.Tables.{pair_table};
ghost use Rattle.walk.specs.View.{view_in};
ghost use Rattle.walk.specs.Walks.{look_up};
ghost use Rattle.walk.specs.Labels.{entry_at};
ghost use Rattle.walk.specs.steps.Pairs.{listed_at, step_to};
ghost use Rattle.search.specs.Lent.{labels_in};
ghost use Rattle.search.specs.steps.Tables.{as_entry, goes_ahead, own_label};
ghost use Rattle.search.specs.steps.Judging.{every_below, limited as isLimited, overtaken_by, overtaken, back_leads, reached_stands, turn_stands};

use super::Label;
use super::judging::Judge;
use super::starts::start_of;
use book::TurnNumber;
use walk::{followers, pair_from, pairs_of};

impl Judge<'_, '_> {
    // Whether what turn `before`, of this label, offers a turn goes ahead of its label; the pairs of `before` end at `to`, and those before `at` are of earlier turns.
    #[tactic(auto, using(crate::proofs::Overtaking::limits))]
    fn is_overtaken(
        self,
        at: u16,
        to: u16,
        before: TurnNumber,
        label: Label,
        turn: TurnNumber,
    ) -> bool
        requires numbers { (before.0 < self.view.book.counts.turns) × (turn.0 < self.view.book.counts.turns) × (to ≤ self.view.book.counts.pairs) }
        requires limited { isLimited (as_entry label) ≡ true }
        ensures { result ≡ overtaken_by (step_to (view_in self.entry.view) (look_up (listed_at (pair_table self.entry.view.book.bytes.now self.entry.view.book.counts) at to turn.0) self.entry.view.book.counts.carry_over (get_or self.entry.view.walks.now before.0 0) (get_or self.entry.view.walks.now turn.0 0)) turn.0) before.0 label.cost label.links (entry_at (labels_in self.entry.turns) turn.0) }
    {
        let stands = self.view.between_at(at, to, before, turn);
        match label.onward_to(self.view, stands, before, turn) {
            None => false,
            Some(offer) => offer.goes_ahead(self.turns.at(usize::from(turn.0))),
        }
    }

    // Whether none of the turns that may follow turn `before`, of this label, is overtaken.
    fn followers_stand(self, before: TurnNumber, label: Label) -> bool
        requires before { before.0 < self.view.book.counts.turns }
        requires limited { isLimited (as_entry label) ≡ true }
        ensures { result ≡ every_below (λ v. not (overtaken (view_in self.entry.view) before.0 label.cost label.links (labels_in self.entry.turns) v)) self.entry.view.book.counts.turns }
    {
        let link = self.view.turn_second(before);
        let run = followers(self.view.book, link);
        let pairs = pairs_of(self.view.book, before);
        // The ends by name, since the loop's invariant speaks of them and a range changes as it is walked.
        let start = run.start;
        let end = run.end;
        let to = pairs.end;
        let mut at = pairs.start;
        for turn in start..end {
            at = pair_from(self.view.book, at, to, TurnNumber(turn));
            if self.is_overtaken(at, to, before, label, TurnNumber(turn)) {
                return false;
            }
        }
        true
    }

    // Whether a turn's label is what its back offers.
    #[tactic(auto, using(crate::proofs::Overtaking::limits), unfolding(crate::specs::steps::Judging::back_leads))]
    fn back_leads(self, turn: TurnNumber, label: Label) -> bool
        requires { turn.0 < self.view.book.counts.turns }
        ensures { result ≡ back_leads (view_in self.entry.view) (labels_in self.entry.turns) turn.0 (as_entry label) }
    {
        if self.view.book.counts.turns <= usize::from(label.back) {
            return false;
        }
        let back = TurnNumber(label.back);
        let before = self.turns.at(usize::from(label.back));
        if !before.limited() {
            return false;
        }
        let second = self.view.turn_second(back);
        let first = self.view.turn_first(turn);
        if second != first {
            return false;
        }
        let stands = self.view.between_turns(back, turn);
        match before.onward_to(self.view, stands, back, turn) {
            None => false,
            Some(offer) => label.same_as(offer),
        }
    }

    // Whether a turn's figures do not go ahead of the label of the link that it ends with.
    fn end_stands(self, turn: TurnNumber) -> bool
        requires { turn.0 < self.view.book.counts.turns }
        ensures { result ≡ not (goes_ahead (own_label self.entry.turns.cost.now self.entry.turns.links.now turn.0) (entry_at (labels_in self.entry.links) ((view_in self.entry.view).second turn.0))) }
    {
        let link = self.view.turn_second(turn);
        let label = self.turns.own(turn.0);
        !label.goes_ahead(self.links.at(usize::from(link.0)))
    }

    // Whether the label of a reached turn comes from its start or its back, and overtakes nothing.
    #[tactic(auto, unfolding(crate::specs::steps::Judging::reached_stands))]
    fn reached_stands(self, start: Label, turn: TurnNumber, label: Label) -> bool
        requires turn { turn.0 < self.view.book.counts.turns }
        requires label { (as_entry label ≡ entry_at (labels_in self.turns) turn.0) × (isLimited (as_entry label) ≡ true) }
        ensures { result ≡ reached_stands (view_in self.entry.view) (as_entry start) (labels_in self.entry.turns) (labels_in self.entry.links) turn.0 }
    {
        (label.same_as(start) | self.back_leads(turn, label))
            & (self.end_stands(turn) & self.followers_stand(turn, label))
    }

    #[tactic(auto, unfolding(crate::specs::steps::Judging::turn_stands))]
    fn turn_stands(self, turn: TurnNumber) -> bool
        requires { turn.0 < self.view.book.counts.turns }
        ensures { result ≡ turn_stands (view_in self.entry.view) self.entry.origin.0 (labels_in self.entry.turns) (labels_in self.entry.links) turn.0 }
    {
        let label = self.turns.at(usize::from(turn.0));
        let start = start_of(self.view, self.origin, turn);
        if start.goes_ahead(label) {
            return false;
        }
        if label.is_none() {
            return true;
        }
        if !label.limited() {
            return false;
        }
        self.reached_stands(start, turn, label)
    }

    // A loop, since `all` over the range leaves a goal that `search` does not close.
    #[tactic(auto, unfolding(crate::specs::steps::Judging::every_below))]
    pub fn turns_stand(self) -> bool
        ensures { result ≡ every_below (turn_stands (view_in self.entry.view) self.entry.origin.0 (labels_in self.entry.turns) (labels_in self.entry.links)) self.entry.view.book.counts.turns }
    {
        // A checked book has at most 4,096 turns: as a `u16` their count stays the same.
        for turn in 0..self.view.book.counts.turns as u16 {
            if !self.turn_stands(TurnNumber(turn)) {
                return false;
            }
        }
        true
    }
}
