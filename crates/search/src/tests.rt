// Tests 10 and 12. Each takes the answer so far and hands a refusal on, as the definitions do (`unless`), so that the order of the tests is part of its clause and nothing needs to hold before.
ghost use Rattle.std.specs.Prelude.{◌≡◌};
ghost use Rattle.search.specs.Lent.{labels_in};
ghost use Rattle.search.specs.Tests.{fits, node_test, length_test};

use super::Labels;
use book::{Counts, NodeNumber};
use walk::Refusal;

#[tactic(auto, unfolding(crate::specs::Tests::node_test))]
pub fn node_test(answer: Result<Counts, Refusal>, node: NodeNumber) -> Result<Counts, Refusal>
    ensures { result ≡ node_test answer node.0 }
{
    let counts = answer?;
    if counts.nodes <= usize::from(node.0) {
        return Err(Refusal::NoNode);
    }
    Ok(counts)
}

impl Labels<'_> {
    #[tactic(auto, unfolding(crate::specs::Tests::fits))]
    fn fit(self, count: usize) -> bool
        ensures { result ≡ fits count (labels_in self.entry) }
    {
        (self.cost.len() == count) & ((self.links.len() == count) & (self.back.len() == count))
    }
}

#[tactic(auto, unfolding(crate::specs::Tests::length_test))]
pub fn length_test(
    answer: Result<Counts, Refusal>,
    turns: Labels<'_>,
    links: Labels<'_>,
) -> Result<Counts, Refusal>
    ensures { result ≡ length_test answer (labels_in turns.entry) (labels_in links.entry) }
{
    let counts = answer?;
    if !(turns.fit(counts.turns) & links.fit(counts.links)) {
        return Err(Refusal::LabelLength);
    }
    Ok(counts)
}
