// The text of the tail that finishes a trace, into a lent output.
#![tactic(auto)]

ghost use Rattle.std.specs.Prelude.{◌+◌, ◌≤◌, length};
ghost use Rattle.std.specs.List.{zip};
ghost use Rattle.rules.specs.Limits.{limits_of};
ghost use Rattle.decimal.specs.Text.{room, Wrote};
ghost use Rattle.tail_text.specs.TailText.{tail_output, tail_text};
ghost use Rattle.tail_text.specs.Computed.Rows.{line_room, record_text, records_text};

use finishing::TAIL;
use rules::{Course, Event, Value};

// An output of so many bytes has room for every tail.
pub const TAIL_TEXT: usize = 65536;

// The line of the event that a record names; nothing where it names none. No line tells its own number.
// Kept: two plain numbers, as a record and its value stand in the rows of `make_tail`.
fn write_record(out: &mut [u8], what: u32, value: Value) -> usize
    ensures { Wrote (room line_room (record_text what value)) out.old result out.new }
{
    let place = records::place_in(what);
    let Some(kind) = rules::kind_of(records::letter_in(what), place, value) else {
        return 0;
    };
    let e = Event {
        thread: records::thread_in(what),
        line: 0,
        kind,
    };
    writer::write_event(out, e)
}

// The lines of the records of two rows.
// Kept: two rows of plain numbers, those of `make_tail`.
fn write_records(out: &mut [u8], what: &[u32], value: &[Value]) -> usize
    requires { length (records_text (zip what.now value.now)) + line_room ≤ length out.old }
    ensures { Wrote (λ _. records_text (zip what.now value.now)) out.old result out.new }
{
    let mut length = 0;
    for (&what, &value) in what.iter().zip(value) {
        length += write_record(&mut out[length..], what, value);
    }
    length
}

// Puts the text of the tail of a trace at the front of the output; its length. An output under 65,536 bytes stays as it was, with length 0.
pub fn list_tail(course: Course, s: &[u8], out: &mut [u8]) -> usize
    ensures { Wrote (room tail_output (tail_text (limits_of course) s.now)) out.old result out.new }
{
    if out.len() < TAIL_TEXT {
        return 0;
    }
    let mut what = [0; TAIL];
    let mut value = [0; TAIL];
    match finishing::make_tail(course, s, &mut what, &mut value) {
        Err(refusal) => listing::write_refused(out, refusal.line, usize::from(refusal.number)),
        Ok(tail) => write_records(out, &what[..tail.events], &value[..tail.events]),
    }
}
