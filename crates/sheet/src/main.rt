// Reads a session sheet from standard input, and writes its counts to standard output.
#![tactic(auto)]

use print::Printed;
use rules::Course;

// Where the sheet was not read to its end, nothing is counted.
// Kept: each program is one call, with its own text and course.
fn main(rt: HostRuntime) {
    let _written = print::run(&rt, &mut rt.stdin(), Printed::Sheet, Course::Full);
}
