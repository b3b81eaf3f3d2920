// The printers' lines for a file's bytes as their input.
use script::{FILE_ROOM, Fault, Text, read_file};
use std::rt::Files;

// The longest text of a fare sheet, `LONGEST_TEXT` of `sheet`, which is not public; a route's line is shorter.
const LINES_ROOM: usize = 20557;

// The printer is `sheet` or `fare_sheet`.
pub fn print_file<F: Fn(&[u8], &mut [u8]) -> Option<usize>>(
    rt: &impl Files,
    printer: F,
    name: &[u8],
    text: &mut Text,
) -> Result<(), Fault>
    requires { F.IsAlwaysCallable printer }
{
    let mut room = [0u8; FILE_ROOM];
    let input = read_file(rt, name, &mut room)?;
    let mut lines = [0u8; LINES_ROOM];
    let length = printer(input, &mut lines).ok_or(Fault::NoRoomForTheSheet)?;
    text.put_lines(&lines[..length.min(LINES_ROOM)]);
    Ok(())
}
