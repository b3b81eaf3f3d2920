// A script: its lines one by one, each answered and perhaps held against the answer that is expected.
use super::answering::Clerk;
use script::{Block, Came, Ending, Fault, Place, Tally, split_at_sign};
use std::io;
use std::io::Read;
use std::rt::Files;

pub const LINE_ROOM: usize = 262144;

// A line without its remark; one that has no room has no expected answer either.
fn settle<R: Files + Print>(
    rt: &R,
    place: Place,
    line: Option<&[u8]>,
    clerk: &mut Clerk,
) -> io::Result<Came> {
    let Some(line) = line else {
        return place.show(rt, Err(Fault::LineTooLong), &[]);
    };
    let (said, _) = split_at_sign(line, b'#');
    if said.is_empty() {
        return Ok(Came::Unasked);
    }
    let (question, expected) = split_at_sign(said, b'=');
    let answered = clerk.answer(rt, question);
    match expected {
        Some(expected) => place.hold(rt, question, expected, clerk.said()),
        None => place.show(rt, answered, clerk.said()),
    }
}

pub fn run_script<R: Files + Print>(
    rt: &R,
    file: &mut impl Read,
    name: &[u8],
    clerk: &mut Clerk,
    block: &mut Block,
    room: &mut [u8],
) -> io::Result<()> {
    // no script finds what another one left
    clerk.clear_desk();
    block.clear();
    let mut tally = Tally::default();
    // nothing says that a script ends, so that its lines are counted to a number that no run comes to
    for passed in 0..u64::MAX {
        let place = Place {
            name,
            line: passed + 1,
        };
        let (line, ending) = block.take_line(file, room);
        tally.count(settle(rt, place, line, clerk)?);
        match ending {
            Ending::Line => {}
            Ending::File => break,
            Ending::Broken => {
                place.print_broken(rt)?;
                tally.count(Came::NotAsExpected);
                break;
            }
        }
    }
    tally.print(rt, name)
}
