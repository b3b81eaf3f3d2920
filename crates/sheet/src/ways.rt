// The way that an input asks for: its two nodes stand before all else, two bytes each.
ghost use Rattle.std.specs.Prelude.{◌≡◌, ◌≤◌, length};
ghost use Rattle.sheet.specs.Sheet.{before_book, origin_of, destination_of};

use super::Way;
use book::NodeNumber;
use search::number_at;

pub fn way_of(input: &[u8]) -> Way
    requires { before_book ≤ length input.now }
    ensures origin { result.origin.0 ≡ origin_of input.now }
    ensures destination { result.destination.0 ≡ destination_of input.now }
{
    Way {
        origin: NodeNumber(number_at(input, 0)),
        destination: NodeNumber(number_at(input, 2)),
    }
}
