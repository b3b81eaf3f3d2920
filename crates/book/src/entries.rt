// The rules of an entry of each table, and the scan for the first entry that breaks one.
ghost use Rattle.std.specs.Prelude.{◌≡◌, ◌<◌, ℕ, Bool, Result};
ghost use Rattle.book.specs.declared.Refusal.{Refusal};
ghost use Rattle.book.specs.Tables.{join_bytes, link_bytes};
ghost use Rattle.book.specs.Entries.{field, line_good, link_good, join_good, seconds_good, ascends};
ghost use Rattle.book.specs.steps.Scan.{scan};

use super::tables::{Entries, JOIN_BYTES, LINE_BYTES, LINK_BYTES};
use super::{Counts, Refusal};

const MOST_HEADWAY: u16 = 7200;

const MOST_RIDE: u16 = 36000;

const MOST_SECONDS: u16 = 3600;

pub const BARRED: u16 = 65535;

#[tactic(auto, unfolding(crate::specs::Entries::line_good))]
pub fn line_good(lines: Entries<'_, LINE_BYTES>, line: usize) -> bool
    requires { line < lines.count }
    ensures { result ≡ line_good lines.entry.bytes.now line }
{
    lines.field(0, line) <= MOST_HEADWAY
}

#[tactic(auto, unfolding(crate::specs::Entries::link_good))]
pub fn link_good(links: Entries<'_, LINK_BYTES>, counts: Counts, link: usize) -> bool
    requires { link < links.count }
    ensures { result ≡ link_good counts.nodes counts.lines links.entry.bytes.now link }
{
    let from = links.field(0, link);
    let to = links.field(2, link);
    let line = links.field(4, link);
    let ride = links.field(6, link);
    (usize::from(from) < counts.nodes)
        & (usize::from(to) < counts.nodes)
        & (usize::from(line) < counts.lines)
        & (ride <= MOST_RIDE)
        & (from != to)
}

// Whether a walk or an extra is allowed.
#[tactic(auto, unfolding(crate::specs::Entries::seconds_good))]
pub fn seconds_good(seconds: u16) -> bool
    ensures { result ≡ seconds_good seconds }
{
    (seconds <= MOST_SECONDS) | (seconds == BARRED)
}

// Whether a join comes after the one before it.
#[tactic(auto, unfolding(crate::specs::Entries::ascends))]
fn join_ascends(joins: Entries<'_, JOIN_BYTES>, join: usize) -> bool
    requires { join < joins.count }
    ensures { result ≡ ascends joins.entry.bytes.now join }
{
    if join == 0 {
        return true;
    }
    let before = join - 1;
    let first_before = joins.field(0, before);
    let second_before = joins.field(2, before);
    let first = joins.field(0, join);
    let second = joins.field(2, join);
    // not by the order of two pairs: this is the order that `ascends` defines, and the wrong version `order_not_strict` changes one comparison in both
    (first_before < first) | ((first_before == first) & (second_before < second))
}

// Turns and pairs alike: `below` is the table of what they join, which ends by its number at byte 2 and begins by that at byte 0.
#[tactic(auto, unfolding(crate::specs::Entries::join_good))]
pub fn join_good<const SIZE: usize>(
    below: Entries<'_, SIZE>,
    joins: Entries<'_, JOIN_BYTES>,
    join: usize,
) -> bool
    requires { (3 < SIZE) × (join < joins.count) }
    ensures { result ≡ join_good below.entry.count (field SIZE 2 below.entry.bytes.now) (field SIZE 0 below.entry.bytes.now) joins.entry.bytes.now join }
{
    let first = usize::from(joins.field(0, join));
    let second = usize::from(joins.field(2, join));
    let seconds = joins.field(4, join);
    if below.count <= first {
        return false;
    }
    if below.count <= second {
        return false;
    }
    let ends = below.field(2, first);
    let begins = below.field(0, second);
    (ends == begins) & seconds_good(seconds) & join_ascends(joins, join)
}

// The first of so many entries that is not good is refused with its number.
pub fn scan<G: Fn(usize) -> bool, R: Fn(usize) -> Refusal>(
    count: usize,
    good: G,
    refused: R,
) -> Result<(), Refusal>
    requires good { (k : ℕ) → k < count → G.pre good k }
    requires refused { (k : ℕ) → k < count → R.pre refused k }
    ensures { (refusal : ℕ → Refusal) (holds : ℕ → Bool) → ((k : ℕ) (found : Refusal) → R.post refused k found → found ≡ refusal k) → ((k : ℕ) (test : Bool) → k < count → G.post good k test → test ≡ holds k) → result ≡ scan refusal holds count }
{
    let mut found = Ok(());
    // labelled, as document 01 asks: the first bad entry is the one whose number is given back
    'entries: for entry in 0..count {
        if !good(entry) {
            found = Err(refused(entry));
            break 'entries;
        }
    }
    found
}
