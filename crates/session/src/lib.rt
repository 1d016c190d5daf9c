// The session sheet: traces joined end to end, found from the last trailer backwards, marked and counted.
#![tactic(auto)]

ghost use Rattle.std.specs.Prelude.{◌≡◌, [], ◌∷◌, ◌≤◌, ◌<◌, length};
ghost use Rattle.rules.specs.Limits.{full, limits_of};
ghost use Rattle.rules.specs.Rules.{number_in};
ghost use Rattle.decimal.specs.Text.{ended, over, room, Wrote};
ghost use Rattle.marking.specs.Marking.{marked_of};
ghost use Rattle.listing.specs.Listing.{refused_line, text_of, line_room, write_all};
ghost use Rattle.session.specs.Sheet.{pointed, start_of, turned_away, find_from};
ghost use Rattle.session.specs.Counting.{divides_both, common};
ghost use Rattle.session.specs.Session.{count_lines, refused_lines, lowest_line, greatest, counted_lines, session_with, Sessions};
ghost use Rattle.session.specs.Computed.Tally.{count_in, tally_of, refused_with, head_lines, end_lines};

use rules::{Course, OUTPUT, RECORDS, Refusal, Value, Verdict};

// What is said of a sheet: its refusal, or how many traces it holds and how many of them are accepted, both 0 after a refusal; and the length of
// its text.
// Kept: no plainer as a Result: `written` is of both cases, and C reads the counts, 0 after a refusal, without a case.
#[derive(Clone, Copy)]
pub struct Session {
    pub verdict: Verdict,
    pub traces: usize,
    pub accepted: usize,
    pub written: usize,
}

// A trace is accepted, or refused with a number below this.
const NUMBERS: usize = 31;

// How many traces a sheet holds, and how often each number occurs, 0 of those that are accepted.
#[derive(Clone, Copy)]
struct Tally {
    count: usize,
    counts: [usize; NUMBERS],
}

// ---- Finding.

// Where a trailer at `at` with this number points; it must be an `H`.
fn point(s: &[u8], at: usize, number: Option<usize>) -> Option<usize>
    requires { at < length s.now }
    ensures { result ≡ pointed s.now at number }
{
    let a = at.checked_sub(number?)?;
    let head = s[a] == b'H';
    head.then_some(a)
}

// Where the last trace of what is left starts.
fn find_start(s: &[u8]) -> Option<usize>
    requires { 0 < length s.now }
    ensures { result ≡ start_of s.now }
{
    let l = trace::last_line(s);
    point(s, l.at, l.number)
}

// ---- Counting.

// The number of a trace; 0 where it is accepted. The rows are room for its records.
// Kept: a number, 0 where it is accepted: it is the place in the row of counts. The rows are room for `marking::mark`.
fn number_of(
    course: Course,
    t: &[u8],
    what: &mut [u32; RECORDS],
    value: &mut [Value; RECORDS],
) -> usize
    ensures { result ≡ number_in (marked_of (limits_of course) t.now) }
{
    match marking::mark(course, t, what, value) {
        Ok(_) => 0,
        Err(refusal) => usize::from(refusal.number),
    }
}

// Finds the traces from the last trailer backwards, and counts their numbers; `None` where what is left does not end in a trace.
fn count_traces(course: Course, s: &[u8]) -> Option<Tally>
    ensures { result ≡ tally_of (limits_of course) (find_from (length s.now) s.now []) }
{
    let mut what: [u32; RECORDS] = [0; RECORDS];
    let mut value: [Value; RECORDS] = [0; RECORDS];
    let mut counts = [0usize; NUMBERS];
    let mut count = 0;
    let mut left = s;
    // Kept: each trailer says where the trace before it ends, so no `for` knows the rounds.
    while !left.is_empty() {
        let a = find_start(left)?;
        let (rest, trace) = left.split_at(a);
        let k = number_of(course, trace, &mut what, &mut value);
        counts[k] += 1;
        count += 1;
        left = rest;
    }
    Some(Tally { count, counts })
}

// ---- The share.

// Whether d divides both.
fn divides_both(d: usize, a: usize, n: usize) -> bool
    requires { 0 < d }
    ensures { result ≡ divides_both d a n }
{
    (a % d == 0) & (n % d == 0)
}

// The greatest number up to a that divides both.
// Kept: tried: `(1..=a).rev().find(..).unwrap_or(1)`: the proof did not close.
fn divisor(a: usize, n: usize) -> usize
    ensures { result ≡ common a a n }
{
    for d in (1..=a).rev() {
        if divides_both(d, a, n) {
            return d;
        }
    }
    1
}

// ---- Printing. Each writer puts its text at the front of what remains of an output and answers its length.

// The share of a among n in lowest terms.
fn write_lowest(out: &mut [u8], a: usize, n: usize) -> usize
    ensures { Wrote (room line_room (ended (lowest_line a n))) out.old result out.new }
{
    let d = divisor(a, n);
    let beneath = if a == 0 { 1 } else { n / d };
    listing::write_share(out, a / d, beneath)
}

// The line of a number that occurs n times.
fn write_count(out: &mut [u8], k: usize, n: usize) -> usize
    ensures { Wrote (write_all (count_lines k n)) out.old result out.new }
{
    if n == 0 {
        return 0;
    }
    listing::write_refused(out, k, n)
}

// The lines of the numbers that occur, rising.
fn write_counts(out: &mut [u8], counts: &[usize; NUMBERS]) -> usize
    ensures { Wrote (write_all (refused_lines greatest (count_in counts.now))) out.old result out.new }
{
    let mut a = 0;
    for k in 1..NUMBERS {
        a += write_count(&mut out[a..], k, counts[k]);
    }
    a
}

// The numbers of traces and of accepted ones.
fn write_heads(out: &mut [u8], tally: &Tally) -> usize
    ensures { Wrote (write_all (head_lines tally.now.count (count_in tally.now.counts 0))) out.old result out.new }
{
    let a = listing::write_papers(out, tally.count);
    let b = listing::write_accepted(&mut out[a..], tally.counts[0]);
    a + b
}

// The numbers that occur, and the share.
fn write_ends(out: &mut [u8], tally: &Tally) -> usize
    ensures { Wrote (write_all (end_lines tally.now.count (count_in tally.now.counts 0) (count_in tally.now.counts))) out.old result out.new }
{
    let a = write_counts(out, &tally.counts);
    let b = write_lowest(&mut out[a..], tally.counts[0], tally.count);
    a + b
}

// All lines of the traces that are counted.
fn write_tally(out: &mut [u8], tally: &Tally) -> usize
    ensures { Wrote (write_all (counted_lines tally.now.count (count_in tally.now.counts))) out.old result out.new }
{
    let a = write_heads(out, tally);
    let b = write_ends(&mut out[a..], tally);
    a + b
}

// ---- The whole.

// A sheet that is turned away with this number, after a text of this length.
// Kept: the number of a refusal, as `Refusal` has it.
fn turned_away(number: u8, written: usize) -> Session
    ensures { result ≡ refused_with number written }
{
    Session {
        verdict: Err(Refusal { number, line: 0 }),
        traces: 0,
        accepted: 0,
        written,
    }
}

// The same, and its line.
// Kept: the number of a refusal, as `Refusal` has it.
fn refuse(out: &mut [u8], number: u8) -> Session
    requires { full.output ≤ length out.old }
    ensures { (result ≡ session_with full (turned_away number)) × (out.new ≡ over (text_of (refused_line 0 number ∷ [])) out.old) }
{
    let written = listing::write_refused(out, 0, usize::from(number));
    turned_away(number, written)
}

// Marks the traces of a sheet by a course and puts the counts at the front of the output: 7 for an output under 32,768 bytes, then 1, then 31.
pub fn mark_sheet(course: Course, bytes: &[u8], out: &mut [u8]) -> Session
    ensures { Sessions (limits_of course) bytes.now out.old result out.new }
{
    if out.len() < OUTPUT {
        return turned_away(7, 0);
    }
    if 65536 < bytes.len() {
        return refuse(out, 1);
    }
    let Some(tally) = count_traces(course, bytes) else {
        return refuse(out, 31);
    };
    let written = write_tally(out, &tally);
    Session {
        verdict: Ok(()),
        traces: tally.count,
        accepted: tally.counts[0],
        written,
    }
}
