// The one place where label buffers are lent to a question: those on the desk, as far as each is lent.
use fare::{Fares, Metres, Terms, Won};
use script::{Column, Desk, Table, first_mut};
use search::LabelsMut;

// What lies on the desk, lent to a question.
#[derive(Drop)]
pub struct Lent<'a> {
    pub book: &'a mut [u8],
    pub turns: LabelsMut<'a>,
    pub links: LabelsMut<'a>,
    pub buffer: &'a mut [u16],
    pub fares: Fares<'a>,
}

fn terms_now(desk: &Desk) -> Terms {
    Terms {
        distance: Metres(u64::from(desk.fares.basic_distance)),
        step: Metres(u64::from(desk.fares.step)),
        premium: Won(u64::from(desk.fares.premium)),
    }
}

// A table's buffers; `counted` is how many entries the book counts.
fn lent_of(table: &mut Table, counted: usize) -> LabelsMut<'_> {
    let cost_count = table.lent(Column::Cost, counted);
    let links_count = table.lent(Column::Links, counted);
    let back_count = table.lent(Column::Back, counted);
    let Table {
        cost,
        links,
        back,
        ..
    } = table;
    LabelsMut {
        cost: first_mut(cost, cost_count),
        links: first_mut(links, links_count),
        back: first_mut(back, back_count),
    }
}

pub fn lend_all(desk: &mut Desk) -> Lent<'_> {
    let turns = desk.book.turns();
    let links = desk.book.links();
    let terms = terms_now(desk);
    Lent {
        book: desk.book.as_bytes_mut(),
        turns: lent_of(&mut desk.turns, turns),
        links: lent_of(&mut desk.links, links),
        buffer: desk.route.lent_mut(),
        fares: Fares {
            table: desk.fares.table(),
            terms,
        },
    }
}
