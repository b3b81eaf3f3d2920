// Two-byte numbers, low byte first.
ghost use Rattle.std.specs.Prelude.{◌≡◌, ◌+◌, ◌<◌, length};
ghost use Rattle.book.specs.Number.{number_at, with_number};

#[tactic(auto, unfolding(crate::specs::Number::number_at))]
pub fn number_at(bytes: &[u8], at: usize) -> u16
    requires { at + 1 < length bytes.now }
    ensures { result ≡ number_at bytes.now at }
{
    u16::from_le_bytes([bytes[at], bytes[at + 1]])
}

#[tactic(auto, unfolding(crate::specs::Number::with_number))]
pub fn write_number(bytes: &mut [u8], at: usize, n: u16)
    requires { at + 1 < length bytes.old }
    ensures { bytes.new ≡ with_number bytes.old at n }
{
    let [low, high] = n.to_le_bytes();
    bytes[at] = low;
    bytes[at + 1] = high;
}
