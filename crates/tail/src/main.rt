// Reads a trace from standard input, and writes the lines of the tail that finishes it to standard output.
#![tactic(auto)]

use print::Printed;
use rules::Course;

// Where the trace was not read to its end, there is no tail of it.
// Kept: each program is one call, with its own text and course.
fn main(rt: HostRuntime) {
    let _written = print::run(&rt, &mut rt.stdin(), Printed::Tail, Course::Full);
}
