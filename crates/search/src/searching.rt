// Search: the tests in order, then every turn's entry and every link's.
ghost use Rattle.std.specs.Prelude.{◌≡◌};
ghost use Rattle.walk.specs.View.{view_of};
ghost use Rattle.walk.specs.Labels.{TrueLabels};
ghost use Rattle.search.specs.Lent.{table_in, SameBuffers};
ghost use Rattle.search.specs.Search.{search_given_back, Search};
ghost use Rattle.search.specs.steps.Tables.{Sized};

use super::LabelsMut;
use super::ends::end_turns;
use super::settling::label_turns;
use super::starts::start_links;
use super::tests::{length_test, node_test};
use book::{GivenBack, MOST_TURNS, NodeNumber};
use walk::{CheckedBook, Refusal, Viewed, check, read_walks};

// Every entry, from this origin, whatever the buffers held.
fn label_all(
    book: CheckedBook<'_>,
    origin: NodeNumber,
    turns: &mut LabelsMut<'_>,
    links: &mut LabelsMut<'_>,
)
    requires turns_sized { Sized book.counts.turns (table_in turns.old) }
    requires links_sized { Sized book.counts.links (table_in links.old) }
    ensures labelled { TrueLabels (view_of book.entry.bytes.now book.entry.counts) origin.0 (table_in turns.new) (table_in links.new) }
    ensures same { SameBuffers turns.old turns.new × SameBuffers links.old links.new }
{
    let count = book.counts.turns;
    // Room for the most turns, of which the book's own are used: there is no heap.
    let mut walks = [0u16; MOST_TURNS];
    read_walks(book, &mut walks[..count]);
    let view = Viewed {
        book,
        walks: &walks[..count],
    };
    label_turns(view, origin, turns);
    start_links(view, origin, links);
    end_turns(view, turns.lent(), links);
}

// Document 01, "What can be asked": all entries are written, or nothing lent changes.
pub fn search(
    book: &[u8],
    origin: NodeNumber,
    turns: &mut LabelsMut<'_>,
    links: &mut LabelsMut<'_>,
) -> Result<(), Refusal>
    ensures searched { Search book.now origin.0 (table_in turns.old) (table_in links.old) result (table_in turns.new) (table_in links.new) }
    ensures same { SameBuffers turns.old turns.new × SameBuffers links.old links.new }
{
    let node_tested = node_test(check(book), origin);
    let counts = length_test(node_tested, turns.lent(), links.lent())?;
    label_all(CheckedBook::carry(book, counts), origin, turns, links);
    Ok(())
}

// Number and place of an answer, 0 and 0 where it is done: `walk`'s, under the definition that Search's promise names, `search_given_back`.
pub fn given_back(answer: Result<(), Refusal>) -> GivenBack
    ensures { result ≡ search_given_back answer }
{
    walk::given_back(answer)
}
