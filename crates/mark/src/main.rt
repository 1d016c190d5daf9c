// Reads a trace from standard input, marks it, and writes its listing to standard output.
#![tactic(auto)]

use print::Printed;
use rules::Course;

// Where the trace was not read to its end, nothing is marked.
// Kept: each program is one call, with its own text and course.
fn main(rt: HostRuntime) {
    let _written = print::run(&rt, &mut rt.stdin(), Printed::Listing, Course::Full);
}
