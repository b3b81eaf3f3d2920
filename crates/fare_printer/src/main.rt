// The fare printer: the two nodes, the terms of the fares, book and fare table from standard input, a route's line and its fare to standard output.
#![tactic(auto)]

use script::print_sheet;
use sheet::fare_sheet;
use std::io;

// In a closure: the check takes no function of another crate by its name for `Fn`.
fn main(rt: HostRuntime) -> io::Result<()> {
    print_sheet(&rt, &mut rt.stdin(), |input, text| fare_sheet(input, text))
}
