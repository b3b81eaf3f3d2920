// Words and decimal numbers in a line of text. Words stand apart by blanks.
ghost use Rattle.std.specs.Prelude.{◌≡◌, ◌+◌, ◌%◌, ◌<◌, ◌≤◌, ◌↔◌, ◌++◌, length, All, IsOk, IfOk, IfSome, IsOkUnless};
ghost use Rattle.std.specs.List.{before_first};
ghost use Rattle.script.specs.Words.{HasNoBlankEnds, is_blank_byte};

use super::writing::Fault;

// A walk longer than the longest that is costed, with its origin, and some.
pub const NUMBERS_ROOM: usize = 65600;

// What `closed` stands for in a book.
const CLOSED: u32 = 65535;

// A tab, and what some systems end a line with, are blanks too; std's `trim_ascii` would take a form feed as well.
fn is_blank(byte: u8) -> bool
    ensures { result ≡ is_blank_byte byte }
{
    matches!(byte, b' ' | b'\t' | b'\r')
}

// The line without the blanks at its two ends.
pub fn trimmed(line: &[u8]) -> &[u8]
    ensures within { length result.now ≤ length line.now }
    ensures ends { HasNoBlankEnds result.now }
{
    let Some(first) = line.iter().position(|byte| !is_blank(*byte)) else {
        return &[];
    };
    let rest = &line[first..];
    match rest.iter().rposition(|byte| !is_blank(*byte)) {
        Some(last) => &rest[..=last],
        None => &[],
    }
}

// The first word of a line, and the rest of the line.
pub fn split_word(line: &[u8]) -> (&[u8], &[u8])
    ensures word { result.0.now ≡ before_first is_blank_byte line.now }
    ensures rest { HasNoBlankEnds result.1.now }
    ensures within { length result.0.now + length result.1.now ≤ length line.now }
{
    match line.iter().position(|byte| is_blank(*byte)) {
        Some(at) => (&line[..at], trimmed(&line[at..])),
        None => (line, &[]),
    }
}

// What stands before and after a sign that begins a word; within a word it has no meaning, so that a file's name may have it.
pub fn split_at_sign(line: &[u8], sign: u8) -> (&[u8], Option<&[u8]>)
    ensures before { HasNoBlankEnds result.0.now }
    ensures after { IfSome result.1 (λ after. HasNoBlankEnds after.now) }
    ensures within { length result.0.now ≤ length line.now }
    ensures both_within { IfSome result.1 (λ after. length result.0.now + length after.now < length line.now) }
{
    let mut begins = true;
    for (at, byte) in line.iter().enumerate() {
        if begins && *byte == sign {
            return (trimmed(&line[..at]), Some(trimmed(&line[at + 1..])));
        }
        begins = is_blank(*byte);
    }
    (trimmed(line), None)
}

// A word of digits, which std's `parse` would take with a sign too; a number past every limit stays past it.
fn number_of(word: &[u8]) -> Result<u64, Fault> {
    if word == b"closed".as_slice() {
        return Ok(u64::from(CLOSED));
    }
    let mut value = 0u64;
    for byte in word {
        let Some(digit) = char::from(*byte).to_digit(10) else {
            return Err(Fault::NotANumber);
        };
        value = value.saturating_mul(10).saturating_add(u64::from(digit));
    }
    Ok(value)
}

fn number_up_to(word: &[u8], limit: u32) -> Result<u32, Fault>
    ensures { IfOk result (λ number. number ≤ limit) }
{
    match u32::try_from(number_of(word)?) {
        Ok(value) if value <= limit => Ok(value),
        _ => Err(Fault::NumberAbove(u64::from(limit))),
    }
}

// The words of a line as numbers up to a limit.
pub fn read_numbers<'a>(line: &[u8], limit: u32, numbers: &'a mut [u32]) -> Result<&'a [u32], Fault>
    ensures count { IfOk result (λ read. length read.now ≤ length numbers.old) }
    ensures within { IfOk result (λ read. All (λ number. number ≤ limit) read.now) }
{
    // counted by hand: words are not zipped with places, since one without a place is a fault
    let mut count = 0;
    // walked by hand: std's `split` would yield an empty word for each further blank
    let mut rest = line;
    while let [first, behind @ ..] = rest {
        if is_blank(*first) {
            rest = behind;
        } else {
            let last = behind
                .iter()
                .position(|byte| is_blank(*byte))
                .unwrap_or(behind.len());
            let value = number_up_to(&rest[..=last], limit)?;
            if numbers.len() <= count {
                return Err(Fault::TooManyNumbers);
            }
            numbers[count] = value;
            count += 1;
            rest = &behind[last..];
        }
    }
    Ok(&numbers[..count])
}

// A number that was held to two bytes.
pub fn narrow(number: u32) -> u16
    ensures { result ≡ number % 65536 }
{
    (number % 65536) as u16
}

// As many numbers as there have to be.
pub fn exactly<const N: usize>(numbers: &[u32]) -> Result<[u32; N], Fault>
    ensures found { IfOk result (λ found. found ≡ numbers.now) }
    ensures ok { IsOk result ↔ (length numbers.now ≡ N) }
    ensures few { (result ≡ Err Fault.TooFewNumbers) ↔ (length numbers.now < N) }
    ensures many { (result ≡ Err Fault.TooManyNumbers) ↔ (N < length numbers.now) }
{
    match numbers.as_array::<N>() {
        Some(found) => Ok(*found),
        None if numbers.len() < N => Err(Fault::TooFewNumbers),
        None => Err(Fault::TooManyNumbers),
    }
}

// The numbers that there have to be, and those behind them.
pub fn at_least<const N: usize>(numbers: &[u32]) -> Result<(&[u32; N], &[u32]), Fault>
    ensures found { IfOk result (λ found. found.0.now ++ found.1.now ≡ numbers.now) }
    ensures ok { IsOk result ↔ (N ≤ length numbers.now) }
    ensures few { IsOkUnless result Fault.TooFewNumbers }
{
    numbers.split_first_chunk::<N>().ok_or(Fault::TooFewNumbers)
}
