// The judge's tests of a link: its label is of the link alone, or of a turn that ends with it.
ghost use Rattle.std.specs.Prelude.{◌≡◌, ◌<◌};
ghost use Rattle.walk.specs.View.{view_in};
ghost use Rattle.search.specs.Lent.{labels_in};
ghost use Rattle.search.specs.steps.Tables.{as_entry};
ghost use Rattle.search.specs.steps.Judging.{every_below, end_leads, link_stands};

use super::Label;
use super::figures::UNREACHED;
use super::judging::Judge;
use super::starts::alone;
use book::{LinkNumber, TurnNumber};

impl Judge<'_, '_> {
    // Whether a link's label is that of its back, a reached turn that ends with the link.
    #[tactic(auto, unfolding(crate::specs::steps::Judging::end_leads))]
    fn end_leads(self, link: LinkNumber, label: Label) -> bool
        ensures { result ≡ end_leads (view_in self.entry.view) self.entry.turns.cost.now self.entry.turns.links.now link.0 (as_entry label) }
    {
        if self.view.book.counts.turns <= usize::from(label.back) {
            return false;
        }
        let second = self.view.turn_second(TurnNumber(label.back));
        (self.turns.cost[usize::from(label.back)] != UNREACHED)
            & ((second == link) & label.same_as(self.turns.own(label.back)))
    }

    #[tactic(auto, unfolding(crate::specs::steps::Judging::link_stands))]
    fn link_stands(self, link: LinkNumber) -> bool
        requires { link.0 < self.view.book.counts.links }
        ensures { result ≡ link_stands (view_in self.entry.view) self.entry.origin.0 self.entry.turns.cost.now self.entry.turns.links.now (labels_in self.entry.links) link.0 }
    {
        let label = self.links.at(usize::from(link.0));
        let start = alone(self.view, self.origin, link);
        if start.goes_ahead(label) {
            return false;
        }
        if label.is_none() {
            return true;
        }
        if label.same_as(start) {
            return true;
        }
        self.end_leads(link, label)
    }

    // A loop, since `all` over the range leaves a goal that `search` does not close.
    #[tactic(auto, unfolding(crate::specs::steps::Judging::every_below))]
    pub fn links_stand(self) -> bool
        ensures { result ≡ every_below (link_stands (view_in self.entry.view) self.entry.origin.0 self.entry.turns.cost.now self.entry.turns.links.now (labels_in self.entry.links)) self.entry.view.book.counts.links }
    {
        // A checked book has at most 2,048 links: as a `u16` their count stays the same.
        for link in 0..self.view.book.counts.links as u16 {
            if !self.link_stands(LinkNumber(link)) {
                return false;
            }
        }
        true
    }
}
