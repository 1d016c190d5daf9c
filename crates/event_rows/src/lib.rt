// The forms behind references: one step over a lent state, and a lent row of events. Each function here is thin: what it computes is a
// call of a function over plain values.
#![tactic(auto)]

ghost use Rattle.std.specs.Prelude.{◌≡◌, ◌<◌, length};
ghost use Rattle.rules.specs.Limits.{limits_of};
ghost use Rattle.machine.specs.Stepped.{stepped};
ghost use Rattle.records.specs.Records.{unpacked};
ghost use Rattle.event_rows.specs.EventRows.{filled, FillsEvents, GivesEvents};
ghost use Rattle.rules.specs.Memories.{from};
ghost use Rattle.event_rows.specs.Computed.Lettered.{lettered};
ghost use Rattle.event_rows.specs.Computed.Lines.{event_on};

use finishing::{TAIL, Tail};
use report::Report;
use rules::{Counts, Course, Event, Kind, RECORDS, Refusal, Value, Verdict};
use state::State;

// One step over a state that the caller keeps, changed in place.
pub fn step_in_place(course: Course, s: &mut State, e: Event) -> Verdict
    ensures { record { verdict = result; state = s.new } ≡ stepped (limits_of course) s.old e }
{
    let a = machine::step(course, *s, e);
    *s = a.state;
    a.verdict
}

// How many of the records stand before the first that packs no event.
fn count_of(what: &[u32]) -> usize
    ensures { result ≡ lettered what.now }
{
    what.iter()
        .take_while(|w| rules::is_letter(records::letter_in(**w)))
        .count()
}

// The event of a record that stands for this line. A number that packs none is taken for a read.
fn unpack(w: u32, value: Value, line: usize) -> Event
    ensures { result ≡ unpacked line w value }
{
    let place = records::place_in(w);
    let named = rules::kind_of(records::letter_in(w), place, value);
    Event {
        thread: records::thread_in(w),
        line,
        kind: named.unwrap_or(Kind::Read(place, value)),
    }
}

// Fills a row of events from two rows of records, of which the first stands for this line.
// Kept: two rows of plain numbers, which document 01 has the marking go over.
fn fill_lines(records: &mut [Event], line: usize, what: &[u32], value: &[Value])
    requires line_low { line < 4294967296 }
    requires whats { length what.now ≡ length records.old }
    requires values { length value.now ≡ length records.old }
    ensures { records.new ≡ from (event_on line what.now value.now) 0 (length records.old) }
{
    for (i, record) in records.iter_mut().enumerate() {
        *record = unpack(what[i], value[i], line + i);
    }
}

// Fills a lent row of events from the first n records of two rows, as far as all have places, up to the first record that packs no event, and no
// more than 2,000.
// Kept: document 01 has events struct by struct as a thin form over rows of plain numbers; the count may be more than the rows have (`filled`).
pub fn fill_records(records: &mut [Event], h: Counts, what: &[u32], value: &[Value], n: usize)
    ensures { records.new ≡ filled h what.now value.now n records.old }
{
    let most = n
        .min(RECORDS)
        .min(records.len())
        .min(what.len())
        .min(value.len());
    let m = count_of(&what[..most]);
    let line = rules::line_after(h, 0);
    fill_lines(&mut records[..m], line, &what[..m], &value[..m]);
}

// Marks a whole trace, with its events, its order and its listing. 7 before all.
pub fn mark_events(
    course: Course,
    bytes: &[u8],
    records: &mut [Event],
    out: &mut [u8],
    list: &mut [u64],
    scratch: &mut [u64],
) -> Report
    ensures { FillsEvents (limits_of course) bytes.now records.old out.old list.old scratch.old result records.new out.new list.new scratch.new }
{
    let mut what = [0; RECORDS];
    let mut value = [0; RECORDS];
    let places = records.len();
    let report = report::mark_lent(
        course, bytes, places, &mut what, &mut value, out, list, scratch,
    );
    if let Ok(found) = trace::find(course, bytes) {
        fill_records(records, found.head, &what, &value, report.events);
    }
    report
}

// ---- The tail of a trace.

// Puts the events of the tail of a trace to the front of a lent row; 24 also where it has too few places. All or none.
pub fn finish_events(course: Course, bytes: &[u8], records: &mut [Event]) -> Result<Tail, Refusal>
    ensures { GivesEvents (limits_of course) bytes.now records.old result records.new }
{
    let mut what = [0; TAIL];
    let mut value = [0; TAIL];
    let tail = finishing::make_tail(course, bytes, &mut what, &mut value)?;
    let n = tail.events;
    if records.len() < n {
        return Err(Refusal {
            number: 24,
            line: 0,
        });
    }
    fill_lines(&mut records[..n], tail.line, &what[..n], &value[..n]);
    Ok(tail)
}
