// What a refusal's number and place are.
ghost use Rattle.std.specs.Prelude.{◌≡◌};
ghost use Rattle.book.specs.Check.{number_of, place_of, given_back};

use super::{GivenBack, Refusal};

impl Refusal {
    pub fn number(self) -> u8
        ensures { result ≡ number_of self }
    {
        match self {
            Refusal::TooShort => 1,
            Refusal::Mark => 2,
            Refusal::Version => 3,
            Refusal::Limit => 4,
            Refusal::Length => 5,
            Refusal::Line(_) => 6,
            Refusal::Link(_) => 7,
            Refusal::Turn(_) => 8,
            Refusal::Pair(_) => 9,
            Refusal::NoNode => 10,
            Refusal::BadChange => 11,
            Refusal::LabelLength => 12,
            Refusal::UntrueLabel => 13,
            Refusal::NoWalk => 14,
            Refusal::NoRoom => 15,
            Refusal::Fares => 17,
        }
    }

    pub fn place(self) -> usize
        ensures { result ≡ place_of self }
    {
        match self {
            Refusal::Line(entry)
            | Refusal::Link(entry)
            | Refusal::Turn(entry)
            | Refusal::Pair(entry) => entry,
            _ => 0,
        }
    }
}

// Number and place of an answer, 0 and 0 where it is done.
pub fn given_back<T: Copy>(answer: Result<T, Refusal>) -> GivenBack
    ensures { result ≡ given_back answer }
{
    match answer {
        Ok(_) => GivenBack {
            number: 0,
            place: 0,
        },
        Err(found) => GivenBack {
            number: found.number(),
            place: found.place(),
        },
    }
}
