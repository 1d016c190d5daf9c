// A whole trace: marked, with its records, its serial order and its listing in lent memory. Nothing lent is touched before it is known what
// is to be written.
#![tactic(auto)]

ghost use Rattle.std.specs.Prelude.{◌≡◌, ◌++◌};
ghost use Rattle.rules.specs.Limits.{limits_of};
ghost use Rattle.decimal.specs.Text.{ended, room, Wrote};
ghost use Rattle.listing.specs.Listing.{line_room, refused_line, lines_for, write_all};
ghost use Rattle.report.specs.Report.{too_little_report, Lends, Fills, Briefs};
ghost use Rattle.report.specs.Computed.Parts.{ordering_lines, refused_report};

use ordering::{Ordering, Outcome};
use rules::{Course, RECORDS, Refusal, Value, Verdict};

// What is said of a trace: the verdict, the number of events of an accepted one, what is said of its order, and the length of the listing.
// Kept: no plainer as a Result: `written` is of both cases, and `mark_trace`, `mark_events` and C copy `events` records, 0 after a refusal, without a case.
#[derive(Clone, Copy)]
pub struct Report {
    pub verdict: Verdict,
    pub events: usize,
    pub ordering: Ordering,
    pub written: usize,
}

// 7, line 0.
fn lent_short() -> Report
    ensures { result ≡ too_little_report }
{
    Report {
        verdict: Err(Refusal { number: 7, line: 0 }),
        events: 0,
        ordering: Ordering::NoOrder,
        written: 0,
    }
}

// The report of a trace that is refused: its listing is one line.
fn refuse(out: &mut [u8], refusal: Refusal) -> Report
    ensures says { result ≡ refused_report refusal result.written }
    ensures writes { Wrote (room line_room (ended (refused_line refusal.line refusal.number))) out.old result.written out.new }
{
    Report {
        verdict: Err(refusal),
        events: 0,
        ordering: Ordering::NoOrder,
        written: listing::write_refused(out, refusal.line, usize::from(refusal.number)),
    }
}

// The lines about the order: the sections, or what denies it; none where nothing is said of it.
fn write_order(out: &mut [u8], o: Ordering, list: &[u64]) -> usize
    ensures { Wrote (write_all (ordering_lines o list.now)) out.old result out.new }
{
    match o {
        Ordering::Ordered(c) => {
            if list.len() < c {
                return 0;
            }
            listing::write_sections(out, &list[..c])
        }
        Ordering::Unordered(r) => listing::write_unordered(out, r.line, usize::from(r.number)),
        Ordering::NoOrder => 0,
    }
}

// The listing of an accepted trace.
fn write_listing(out: &mut [u8], outcome: &Outcome, list: &[u64]) -> usize
    ensures { Wrote (write_all (lines_for outcome.now.marking.events outcome.now.marking.head outcome.now.marking.memories ++ ordering_lines outcome.now.ordering list.now)) out.old result out.new }
{
    let m = &outcome.marking;
    let a = listing::write_memories(out, m.events, m.head, m.memories);
    let b = write_order(&mut out[a..], outcome.ordering, list);
    a + b
}

// Marks a whole trace, with its order and its listing, where so many places are lent for its records. 7 before all. The rows are room for the records.
// Kept: two rows of plain numbers, as `marking::mark` fills them.
pub fn mark_lent(
    course: Course,
    bytes: &[u8],
    places: usize,
    what: &mut [u32; RECORDS],
    value: &mut [Value; RECORDS],
    out: &mut [u8],
    list: &mut [u64],
    scratch: &mut [u64],
) -> Report
    ensures { Lends (limits_of course) bytes.now places what.old value.old out.old list.old scratch.old result what.new value.new out.new list.new scratch.new }
{
    if rules::is_lent_short(places, out.len()) | rules::is_order_short(list.len(), scratch.len()) {
        return lent_short();
    }
    match ordering::order_trace(course, bytes, what, value, list, scratch) {
        Ok(outcome) => Report {
            verdict: Ok(()),
            events: outcome.marking.events,
            ordering: outcome.ordering,
            written: write_listing(out, &outcome, list),
        },
        Err(refusal) => refuse(out, refusal),
    }
}

// Marks a whole trace, with its records in two rows, its order and its listing.
// Kept: two rows of plain numbers, which C lends (include/dabzhoni.h).
pub fn mark_trace(
    course: Course,
    bytes: &[u8],
    whats: &mut [u32],
    values: &mut [Value],
    out: &mut [u8],
    list: &mut [u64],
    scratch: &mut [u64],
) -> Report
    ensures { Fills (limits_of course) bytes.now whats.old values.old out.old list.old scratch.old result whats.new values.new out.new list.new scratch.new }
{
    let mut what = [0; RECORDS];
    let mut value = [0; RECORDS];
    let places = whats.len().min(values.len());
    let report = mark_lent(
        course, bytes, places, &mut what, &mut value, out, list, scratch,
    );
    records::copy_row(whats, &what[..report.events]);
    records::copy_row(values, &value[..report.events]);
    report
}

// Marks a whole trace, with its records and its listing, where no order is wanted.
// Kept: two rows of plain numbers, which C lends (include/dabzhoni.h).
pub fn mark_unordered(
    course: Course,
    bytes: &[u8],
    whats: &mut [u32],
    values: &mut [Value],
    out: &mut [u8],
) -> Report
    ensures { Briefs (limits_of course) bytes.now whats.old values.old out.old result whats.new values.new out.new }
{
    if rules::is_lent_short(whats.len().min(values.len()), out.len()) {
        return lent_short();
    }
    let mut what = [0; RECORDS];
    let mut value = [0; RECORDS];
    match marking::mark(course, bytes, &mut what, &mut value) {
        Ok(marking) => {
            records::copy_row(whats, &what[..marking.events]);
            records::copy_row(values, &value[..marking.events]);
            Report {
                verdict: Ok(()),
                events: marking.events,
                ordering: Ordering::NoOrder,
                written: listing::write_memories(
                    out,
                    marking.events,
                    marking.head,
                    marking.memories,
                ),
            }
        }
        Err(refusal) => refuse(out, refusal),
    }
}
