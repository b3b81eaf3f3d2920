// A printer: standard input whole, and its text.
use super::files::read_full;
use std::io;
use std::io::Read;

// A good input is shorter, and any longer one has the same text as its first 65,536 bytes (`read_says` and `fare_read_says` in the sheet's OverLong and FareOverLong).
const INPUT_ROOM: usize = 65536;

// The longest text, that of a fare sheet, has 20,557 bytes.
const SHEET_ROOM: usize = 65536;

// What a printer's sheet puts for the input. That it has no room does not happen (`always_room` and `fare_always_room` in the sheet's Printed).
pub fn print_sheet<F: Fn(&[u8], &mut [u8]) -> Option<usize>>(
    rt: &impl Print,
    file: &mut impl Read,
    printer: F,
) -> io::Result<()>
    requires { F.IsAlwaysCallable printer }
{
    let mut input = [0u8; INPUT_ROOM];
    let length = read_full(file, &mut input)?;
    let mut text = [0u8; SHEET_ROOM];
    match printer(&input[..length], &mut text) {
        Some(end) => rt.write_all(&text[..end.min(SHEET_ROOM)]),
        None => Ok(()),
    }
}
