// What the layers answer, in figures and words.
use book::{Counts, GivenBack, NodeNumber, Refusal};
use edit::{EditFigures, Edited};
use fare::{FareFigures, Fared, fare_given_back};
use script::Text;
use search::{RouteFigures, Routed, cost_of, route_given_back, split_in};
use walk::{Costed, NoCost, Split};

// What a refusal's number means: document 01, "Numbers given back", and document 02.
fn meaning(found: Refusal) -> &'static str {
    match found {
        Refusal::TooShort => "book under 17 bytes",
        Refusal::Mark => "mark",
        Refusal::Version => "version",
        Refusal::Limit => "a count or the carry-over above its limit",
        Refusal::Length => "length differs from what the counts give",
        Refusal::Line(_) => "this line breaks a rule",
        Refusal::Link(_) => "this link breaks a rule",
        Refusal::Turn(_) => "this turn breaks a rule",
        Refusal::Pair(_) => "this pair breaks a rule",
        Refusal::NoNode => "origin or destination is no node",
        Refusal::BadChange => "edited turn is not in the table, or its new walk is not allowed",
        Refusal::LabelLength => "a label buffer has another length",
        Refusal::UntrueLabel => "some label entry is not the true one for this book and origin",
        Refusal::NoWalk => "no permitted walk",
        Refusal::NoRoom => "route buffer shorter than the route",
        Refusal::Fares => "fare table of another length, or a value outside its limits",
    }
}

// std has no conversion of a usize to a u64 but the cast.
fn put_count(count: usize, text: &mut Text) {
    text.put_figure(count as u64);
}

fn put_refused(number: u8, place: usize, found: Refusal, text: &mut Text) {
    text.put_figure(number);
    put_count(place, text);
    text.put(" ");
    text.put(meaning(found));
}

fn put_refusal(found: Refusal, text: &mut Text) {
    put_refused(found.number(), found.place(), found, text);
}

// Where the minutes of a cost go.
fn put_split(split: Split, text: &mut Text) {
    text.put_figure(split.ride);
    text.put_figure(split.wait);
    text.put_figure(split.walk);
    text.put_figure(split.extra);
}

// The route buffer begins with a route's links.
fn walk_in(buffer: &[u16], links: u16) -> &[u16] {
    &buffer[..usize::from(links).min(buffer.len())]
}

fn put_links(links: &[u16], text: &mut Text) {
    for link in links {
        text.put_figure(*link);
    }
}

// 0 and the header's figures.
pub fn put_checked(answer: Result<Counts, Refusal>, text: &mut Text) {
    match answer {
        Err(found) => put_refusal(found, text),
        Ok(counts) => {
            text.put("0");
            put_count(counts.nodes, text);
            put_count(counts.lines, text);
            put_count(counts.links, text);
            put_count(counts.turns, text);
            put_count(counts.pairs, text);
            put_count(counts.carry_over, text);
        }
    }
}

// 0, the cost and where the minutes go, or why the walk has none.
pub fn put_costed(answer: Result<Costed, NoCost>, text: &mut Text) {
    match answer {
        Err(NoCost::Refused(found)) => put_refusal(found, text),
        Err(NoCost::TooLong) => text.put("too long"),
        Err(NoCost::NotPermitted) => text.put("not permitted"),
        Ok(Costed { cost, split }) => {
            text.put("0");
            text.put_figure(cost);
            put_split(split, text);
        }
    }
}

pub fn put_searched(answer: Result<(), Refusal>, text: &mut Text) {
    let GivenBack { number, place } = search::given_back(answer);
    match answer {
        Err(found) => put_refused(number, place, found, text),
        Ok(()) => text.put_figure(number),
    }
}

// 0, the cost, where the minutes go, the number of links and the links.
pub fn put_routed(
    answer: Result<Routed, Refusal>,
    book: &[u8],
    origin: NodeNumber,
    buffer: &[u16],
    text: &mut Text,
) {
    let RouteFigures {
        number,
        place,
        cost,
        links,
    } = route_given_back(answer);
    match answer {
        Err(found) => put_refused(number, place, found, text),
        Ok(_) => {
            let walk = walk_in(buffer, links);
            text.put_figure(number);
            text.put_figure(cost);
            put_split(split_in(cost_of(book, origin, walk)), text);
            text.put_figure(links);
            put_links(walk, text);
        }
    }
}

// 0, the fare, the cost, the number of links and the links.
pub fn put_fared(answer: Result<Fared, Refusal>, buffer: &[u16], text: &mut Text) {
    let FareFigures {
        number,
        place,
        cost,
        links,
        fare,
    } = fare_given_back(answer);
    match answer {
        Err(found) => put_refused(number, place, found, text),
        Ok(_) => {
            text.put_figure(number);
            text.put_figure(fare.0);
            text.put_figure(cost);
            text.put_figure(links);
            put_links(walk_in(buffer, links), text);
        }
    }
}

// 0 and the two counts.
pub fn put_edited(answer: Result<Edited, Refusal>, text: &mut Text) {
    let EditFigures {
        number,
        place,
        turns,
        links,
    } = edit::given_back(answer);
    match answer {
        Err(found) => put_refused(number, place, found, text),
        Ok(_) => {
            text.put_figure(number);
            put_count(turns, text);
            put_count(links, text);
        }
    }
}
