// The route printer: origin, destination and book from standard input, one line to standard output.
#![tactic(auto)]

use script::print_sheet;
use sheet::sheet;
use std::io;

// In a closure: the check takes no function of another crate by its name for `Fn`.
fn main(rt: HostRuntime) -> io::Result<()> {
    print_sheet(&rt, &mut rt.stdin(), |input, text| sheet(input, text))
}
