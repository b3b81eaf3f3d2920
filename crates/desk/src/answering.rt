// The answer to a line: what only handles the desk is done by `script`, the rest is asked of the layers.
use super::asking::{say_edit, say_fare, say_route, say_search};
use super::printing::print_file;
use super::saying::{put_checked, put_costed};
use book::{NodeNumber, TurnNumber};
use script::{
    Answer, Desk, Fault, NUMBERS_ROOM, Question, Text, Way, narrow, open_book, same_book, save_book,
};
use search::cost_of;
use sheet::{fare_sheet, sheet};
use std::rt::Files;

// Who answers a script's lines: with the numbers of a line, what lies on the desk, and the text of the answer.
#[derive(Drop)]
pub struct Clerk {
    numbers: [u32; NUMBERS_ROOM],
    desk: Desk,
    text: Text,
}

impl Clerk {
    pub fn new() -> Clerk {
        Clerk {
            numbers: [0; NUMBERS_ROOM],
            desk: Desk::empty(),
            text: Text::new(),
        }
    }

    // Numbers and text stay: a line reads only what it wrote of them.
    pub fn clear_desk(&mut self) {
        self.desk = Desk::empty();
    }

    // The text of the last answer.
    pub fn said(&self) -> &[u8] {
        self.text.as_bytes()
    }

    fn answered(&mut self, rt: &impl Files, line: &[u8]) -> Result<Answer, Fault> {
        let question = Question::read(line, &mut self.numbers)?;
        answer_question(rt, question, &mut self.desk, &mut self.text)?;
        Ok(question.answer())
    }

    // What cannot be read or done is said too.
    pub fn answer(&mut self, rt: &impl Files, line: &[u8]) -> Result<Answer, Fault> {
        self.text.clear();
        let answered = self.answered(rt, line);
        if let Err(fault) = answered {
            self.text.put_fault(fault);
        }
        answered
    }
}

fn say_same(same: bool, text: &mut Text) {
    text.put(if same { "yes" } else { "no" });
}

fn say_cost(origin: u16, walk: &[u32], desk: &Desk, text: &mut Text) {
    let mut links = [0u16; NUMBERS_ROOM];
    for (link, number) in links.iter_mut().zip(walk) {
        *link = narrow(*number);
    }
    let count = walk.len().min(NUMBERS_ROOM);
    let costed = cost_of(desk.book.as_bytes(), NodeNumber(origin), &links[..count]);
    put_costed(costed, text);
}

fn answer_question(
    rt: &impl Files,
    question: Question,
    desk: &mut Desk,
    text: &mut Text,
) -> Result<(), Fault> {
    match question {
        Question::Open(name) => open_book(rt, name, desk)?,
        Question::Save(name) => save_book(rt, name, desk)?,
        Question::Same(name) => say_same(same_book(rt, name, desk)?, text),
        // in closures: the check takes no function of another crate by its name for `Fn`
        Question::Print(name) => print_file(rt, |input, lines| sheet(input, lines), name, text)?,
        Question::PrintFare(name) => print_file(
            rt,
            |input, lines| fare_sheet(input, lines),
            name,
            text,
        )?,
        Question::New(length) => desk.begin_book(length),
        Question::Number { at, values } => desk.book.write_numbers(at, values)?,
        Question::Length(length) => desk.book.set_length(length),
        Question::Alter { buffer, at, value } => desk.alter(buffer, at, value)?,
        Question::Lend { buffer, count } => desk.lend(buffer, count),
        Question::Fares { terms, table } => desk.fares.take(terms, table)?,
        Question::Turn(entry) => desk.put_turn(entry, text)?,
        Question::Link(entry) => desk.put_link(entry, text)?,
        Question::Turns => desk.put_turns(text),
        Question::Links => desk.put_links(text),
        Question::Room => desk.route.put(text),
        Question::Check => put_checked(search::check(desk.book.as_bytes()), text),
        Question::Cost { origin, walk } => say_cost(origin, walk, desk, text),
        Question::Search(origin) => say_search(NodeNumber(origin), desk, text),
        Question::Route(
            Way {
                origin,
                destination,
                room,
            },
        ) => {
            desk.route.set_room(room)?;
            say_route(NodeNumber(origin), NodeNumber(destination), desk, text);
        }
        Question::Fare(
            Way {
                origin,
                destination,
                room,
            },
        ) => {
            desk.route.set_room(room)?;
            say_fare(NodeNumber(origin), NodeNumber(destination), desk, text);
        }
        Question::Edit { origin, turn, walk } => {
            say_edit(NodeNumber(origin), TurnNumber(turn), walk, desk, text);
        }
    }
    Ok(())
}
