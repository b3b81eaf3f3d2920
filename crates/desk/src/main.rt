// The travel desk: each line of a script is a question, and its answer is a line.
#![tactic(auto)]

mod answering;
mod asking;
mod lending;
mod printing;
mod saying;
mod scripts;

use answering::Clerk;
use script::{Block, Came, Tally, open_file};
use scripts::{LINE_ROOM, run_script};
use std::env::{Env, FillError};
use std::io;

// The system opens no longer name.
const NAME_ROOM: usize = 4096;

fn say_closed(rt: &impl Print, name: &[u8]) -> io::Result<()> {
    rt.write_all(name)?;
    rt.write_all(b": cannot be opened\n")?;
    let mut tally = Tally::default();
    tally.count(Came::NotAsExpected);
    tally.print(rt, name)
}

// The script that an argument names; a longer name is no file's.
fn run_argument(
    rt: &HostRuntime,
    which: usize,
    clerk: &mut Clerk,
    block: &mut Block,
    room: &mut [u8],
) -> io::Result<()> {
    let mut path = [0u8; NAME_ROOM];
    let length = rt.arg(which, &mut path).unwrap_or(0);
    let name = &path[..length.min(NAME_ROOM)];
    match open_file(rt, name) {
        Ok(mut file) => run_script(rt, &mut file, name, clerk, block, room),
        Err(_) => say_closed(rt, name),
    }
}

// The number of the first argument that is not there; with no bytes to copy it to, one that is there is too long or empty.
fn count_arguments(rt: &impl Env) -> usize {
    (0..usize::MAX)
        .position(|which| matches!(rt.arg(which, &mut []), Err(FillError::NotPresent)))
        .unwrap_or(usize::MAX)
}

// The program's own name is its only argument where no script is named: standard input is then the script.
fn main(rt: HostRuntime) -> io::Result<()> {
    let count = count_arguments(&rt);
    // once for all scripts: to make them anew would cost more than a short script does
    let mut clerk = Clerk::new();
    let mut block = Block::new();
    let mut room = [0u8; LINE_ROOM];
    if count < 2 {
        return run_script(
            &rt,
            &mut rt.stdin(),
            b"standard input",
            &mut clerk,
            &mut block,
            &mut room,
        );
    }
    for which in 1..count {
        run_argument(&rt, which, &mut clerk, &mut block, &mut room)?;
    }
    Ok(())
}
