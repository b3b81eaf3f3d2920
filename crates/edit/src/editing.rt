// Edit: the tests in order, then the write, a search of the edited book, and the counts.
ghost use Rattle.std.specs.Prelude.{◌≡◌, Ok};
ghost use Rattle.search.specs.Lent.{table_in, SameBuffers};
ghost use Rattle.edit.specs.Edit.{turn_test, edit_tests, edit_given_back, Edit};
ghost use Rattle.edit.specs.steps.KeptLabels.{KeptWhole};
ghost use Rattle.edit.specs.steps.Onward.{Asked, Relabelled};

use super::counting::count_differing;
use super::keeping::keep_table;
use super::{EditFigures, Edited};
use book::{Counts, MOST_LINKS, MOST_TURNS, NodeNumber, TurnNumber};
use search::{
    CheckedBook, Label, LabelsMut, Refusal, check, labels_true, length_test, node_test, search,
    seconds_good, write_walk,
};

const NOT_KEPT: Label = Label {
    cost: 0,
    links: 0,
    back: 0,
};

// What an edit asks for: a turn and its new walk.
#[derive(Clone, Copy)]
struct NewWalk {
    turn: TurnNumber,
    walk: u16,
}

// Test 11. The earlier tests' answer comes in and its counts go on, as in the definition, since test 12 takes the answer so far.
#[tactic(auto, unfolding(crate::specs::Edit::turn_test))]
fn turn_test(answer: Result<Counts, Refusal>, change: NewWalk) -> Result<Counts, Refusal>
    ensures { result ≡ turn_test answer change.turn.0 change.walk }
{
    let counts = answer?;
    if !((usize::from(change.turn.0) < counts.turns) & seconds_good(change.walk)) {
        return Err(Refusal::BadChange);
    }
    Ok(counts)
}

// The write and the labels of the edited book; what differs from the labels kept from before is counted.
fn relabel(
    // beside its counts, here and below: it is written to, so it is no checked book
    book: &mut [u8],
    counts: Counts,
    origin: NodeNumber,
    change: NewWalk,
    turns: &mut LabelsMut<'_>,
    links: &mut LabelsMut<'_>,
    turns_kept: &[Label],
    links_kept: &[Label],
) -> Edited
    requires asked { Asked book.old counts origin.0 change.turn.0 change.walk (table_in turns.old) (table_in links.old) }
    requires turns_kept { KeptWhole counts.turns turns_kept.now (table_in turns.old) }
    requires links_kept { KeptWhole counts.links links_kept.now (table_in links.old) }
    ensures relabelled { Relabelled book.old counts origin.0 change.turn.0 change.walk (table_in turns.old) (table_in links.old) result book.new (table_in turns.new) (table_in links.new) }
    ensures same { SameBuffers turns.old turns.new × SameBuffers links.old links.new }
{
    write_walk(book, counts, change.turn, change.walk);
    // the edited book passes the same tests, so that its search is done
    let _ = search(book, origin, turns, links);
    Edited {
        turns: count_differing(turns_kept, turns.lent()),
        links: count_differing(links_kept, links.lent()),
    }
}

// The labels are kept first, in buffers as long as the book's counts.
fn edit_on(
    book: &mut [u8],
    counts: Counts,
    origin: NodeNumber,
    change: NewWalk,
    turns: &mut LabelsMut<'_>,
    links: &mut LabelsMut<'_>,
) -> Edited
    requires { Asked book.old counts origin.0 change.turn.0 change.walk (table_in turns.old) (table_in links.old) }
    ensures relabelled { Relabelled book.old counts origin.0 change.turn.0 change.walk (table_in turns.old) (table_in links.old) result book.new (table_in turns.new) (table_in links.new) }
    ensures same { SameBuffers turns.old turns.new × SameBuffers links.old links.new }
{
    let turn_count = counts.turns;
    let link_count = counts.links;
    let mut turns_kept = [NOT_KEPT; MOST_TURNS];
    let mut links_kept = [NOT_KEPT; MOST_LINKS];
    keep_table(turns.lent(), &mut turns_kept[..turn_count]);
    keep_table(links.lent(), &mut links_kept[..link_count]);
    relabel(
        book,
        counts,
        origin,
        change,
        turns,
        links,
        &turns_kept[..turn_count],
        &links_kept[..link_count],
    )
}

// Test 13, by the book as it stands before the edit.
fn edit_judged(
    book: &mut [u8],
    counts: Counts,
    origin: NodeNumber,
    change: NewWalk,
    turns: &mut LabelsMut<'_>,
    links: &mut LabelsMut<'_>,
) -> Result<Edited, Refusal>
    requires { edit_tests book.old origin.0 change.turn.0 change.walk (table_in turns.old) (table_in links.old) ≡ Ok counts }
    ensures edited { Edit book.old origin.0 change.turn.0 change.walk (table_in turns.old) (table_in links.old) result book.new (table_in turns.new) (table_in links.new) }
    ensures same { SameBuffers turns.old turns.new × SameBuffers links.old links.new }
{
    let checked = CheckedBook::carry(book, counts);
    if !labels_true(checked, origin, turns.lent(), links.lent()) {
        return Err(Refusal::UntrueLabel);
    }
    Ok(edit_on(book, counts, origin, change, turns, links))
}

// Document 01, "What can be asked": the turn's two walk bytes and the labels of the edited book, or nothing lent changes.
pub fn edit(
    book: &mut [u8],
    origin: NodeNumber,
    turn: TurnNumber,
    walk: u16,
    turns: &mut LabelsMut<'_>,
    links: &mut LabelsMut<'_>,
) -> Result<Edited, Refusal>
    ensures edited { Edit book.old origin.0 turn.0 walk (table_in turns.old) (table_in links.old) result book.new (table_in turns.new) (table_in links.new) }
    ensures same { SameBuffers turns.old turns.new × SameBuffers links.old links.new }
{
    let change = NewWalk { turn, walk };
    let turn_tested = turn_test(node_test(check(book), origin), change);
    let counts = length_test(turn_tested, turns.lent(), links.lent())?;
    edit_judged(book, counts, origin, change, turns, links)
}

// Number, place and the two counts of an answer.
pub fn given_back(answer: Result<Edited, Refusal>) -> EditFigures
    ensures { result ≡ edit_given_back answer }
{
    match answer {
        Ok(edited) => EditFigures {
            number: 0,
            place: 0,
            turns: edited.turns,
            links: edited.links,
        },
        Err(found) => EditFigures {
            number: found.number(),
            place: found.place(),
            turns: 0,
            links: 0,
        },
    }
}
