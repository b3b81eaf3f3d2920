// A page takes a byte, or a number in decimal digits, at its place.
ghost use Rattle.std.specs.Prelude.{◌≡◌, [], ◌∷◌, ◌<◌};
ghost use Rattle.sheet.specs.Line.{digit, decimal};
ghost use Rattle.sheet.specs.steps.Storing.{Room, Put};

use super::Page;

fn digit_of(n: u64) -> u8
    requires { n < 10 }
    ensures { result ≡ digit n }
{
    // below 10, so all of it is kept
    b'0' + n as u8
}

impl Page<'_> {
    pub fn put_byte(&mut self, byte: u8)
        requires { Room self.old (byte ∷ []) }
        ensures { Put self.old (byte ∷ []) self.new }
    {
        self.text[self.at] = byte;
        self.at += 1;
    }

    // All digits but the last, then the last: by hand, as in the definition `decimal`, which is among what a reader must believe.
    #[tactic(auto, using(crate::proofs::DigitLaws::length_small, crate::proofs::DigitLaws::length_more, crate::proofs::LineLaws::small_put, crate::proofs::LineLaws::more_put))]
    pub fn put_decimal(&mut self, n: u64)
        requires { Room self.old (decimal n) }
        ensures { Put self.old (decimal n) self.new }
    {
        if n < 10 {
            self.put_byte(digit_of(n));
        } else {
            self.put_decimal(n / 10);
            self.put_byte(digit_of(n % 10));
        }
    }
}
