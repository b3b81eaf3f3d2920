// The questions that label buffers are lent to, each with its origin first.
use super::lending::{Lent, lend_all};
use super::saying::{put_edited, put_fared, put_routed, put_searched};
use book::{NodeNumber, TurnNumber};
use edit::edit;
use fare::fare;
use script::{Desk, Text};
use search::{route, search};

pub fn say_search(origin: NodeNumber, desk: &mut Desk, text: &mut Text) {
    let Lent {
        book,
        mut turns,
        mut links,
        ..
    } = lend_all(desk);
    let answer = search(book, origin, &mut turns, &mut links);
    put_searched(answer, text);
}

pub fn say_route(origin: NodeNumber, destination: NodeNumber, desk: &mut Desk, text: &mut Text) {
    let Lent {
        book,
        turns,
        links,
        buffer,
        ..
    } = lend_all(desk);
    let answer = route(
        book,
        origin,
        destination,
        turns.lent(),
        links.lent(),
        buffer,
    );
    put_routed(answer, book, origin, buffer, text);
}

pub fn say_fare(origin: NodeNumber, destination: NodeNumber, desk: &mut Desk, text: &mut Text) {
    let Lent {
        book,
        turns,
        links,
        buffer,
        fares,
    } = lend_all(desk);
    let answer = fare(
        book,
        origin,
        destination,
        turns.lent(),
        links.lent(),
        buffer,
        fares,
    );
    put_fared(answer, buffer, text);
}

pub fn say_edit(origin: NodeNumber, turn: TurnNumber, walk: u16, desk: &mut Desk, text: &mut Text) {
    let Lent {
        book,
        mut turns,
        mut links,
        ..
    } = lend_all(desk);
    let answer = edit(book, origin, turn, walk, &mut turns, &mut links);
    put_edited(answer, text);
}
