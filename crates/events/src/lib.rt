// The event lines of a trace, read forward, line after line.
#![tactic(auto)]

ghost use Rattle.std.specs.Prelude.{◌≡◌, ◌≤◌, drop};
ghost use Rattle.rules.specs.Limits.{full, limits_of, line_after, value_width};
ghost use Rattle.events.specs.Events.{on_integer, right, last, lock_end, notify_end, value_end, field, lock_fields, after_thread};
ghost use Rattle.events.specs.Computed.Lines.{placed, stage, line_at};
ghost use Rattle.events.specs.Reading.{Reads};

use decimal::NotValue;
use rules::{Counts, Course, RECORDS, Refusal, Value, Verdict};

// An event line as plain numbers, and where the next line starts.
// Kept: the letter is a byte, as document 01 has the marking go over plain numbers. The bytes go beside the line, which is handed on changed and the bytes are not.
#[derive(Clone, Copy)]
pub struct Line {
    pub letter: u8,
    pub thread: usize,
    pub place: usize,
    pub value: Value,
    pub next: usize,
}

// How many events were read, and what ended the reading.
// Kept: what was read is marked where a refusal ended the reading too (`Reads`), so the count stands beside the verdict and not in its Ok.
#[derive(Clone, Copy)]
pub struct Read {
    pub count: usize,
    pub verdict: Verdict,
}

// The functions below read on at `line.next`, and put what they read into the line.

// The last field of a lock event other than F.
fn lock_end(s: &[u8], line: Line) -> Option<Line>
    ensures { result ≡ stage (last (lock_end line.letter line.thread)) line.next (drop line.next s.now) }
{
    let r = decimal::number_until(s, line.next, b'\n')?;
    Some(Line {
        place: r.number,
        value: 0,
        next: r.next,
        ..line
    })
}

// The last field of an F: the thread that it notifies.
fn notify_end(s: &[u8], line: Line) -> Option<Line>
    ensures { result ≡ stage (last (notify_end line.letter line.thread line.place)) line.next (drop line.next s.now) }
{
    let r = decimal::number_until(s, line.next, b'\n')?;
    Some(Line {
        value: Value::from(rules::cap(r.number)),
        next: r.next,
        ..line
    })
}

// The fields of a lock event behind the thread: a lock, and behind that of an F a thread.
fn lock_fields(s: &[u8], line: Line) -> Option<Line>
    ensures { result ≡ stage (lock_fields line.letter line.thread) line.next (drop line.next s.now) }
{
    if line.letter != b'F' {
        return lock_end(s, line);
    }
    let r = decimal::number_until(s, line.next, b' ')?;
    notify_end(
        s,
        Line {
            place: r.number,
            next: r.next,
            ..line
        },
    )
}

// The line of an event with a value, where its last field is one.
fn with_value(line: Line, value: Result<Value, NotValue>) -> Option<Line>
    ensures { result ≡ placed line.next (on_integer value (λ z. right line.letter line.thread line.place z)) }
{
    let value = value.ok()?;
    Some(Line { value, ..line })
}

// The last field of an event with a value.
fn value_end(s: &[u8], line: Line) -> Option<Line>
    ensures { result ≡ stage (last (value_end value_width line.letter line.thread line.place)) line.next (drop line.next s.now) }
{
    if s.len() <= line.next {
        return None;
    }
    if s[line.next] == b'-' {
        let r = decimal::number_until(s, line.next + 1, b'\n')?;
        return with_value(
            Line {
                next: r.next,
                ..line
            },
            decimal::negative(Some(r.number)),
        );
    }
    let r = decimal::number_until(s, line.next, b'\n')?;
    with_value(
        Line {
            next: r.next,
            ..line
        },
        decimal::positive(Some(r.number)),
    )
}

// The fields behind the thread: those of a lock event, or a variable and a value.
fn after_thread(s: &[u8], line: Line) -> Option<Line>
    ensures { result ≡ stage (after_thread value_width line.letter line.thread) line.next (drop line.next s.now) }
{
    if rules::is_lock_letter(line.letter) {
        return lock_fields(s, line);
    }
    let r = decimal::number_until(s, line.next, b' ')?;
    value_end(
        s,
        Line {
            place: r.number,
            next: r.next,
            ..line
        },
    )
}

// The fields behind the letter.
fn after_letter(s: &[u8], line: Line) -> Option<Line>
    ensures { result ≡ stage (field (after_thread value_width line.letter)) line.next (drop line.next s.now) }
{
    let r = decimal::number_until(s, line.next, b' ')?;
    after_thread(
        s,
        Line {
            thread: r.number,
            next: r.next,
            ..line
        },
    )
}

// The line that starts at `at`.
fn line_at(s: &[u8], at: usize) -> Option<Line>
    ensures { result ≡ line_at s.now at }
{
    if s.len() <= at {
        return None;
    }
    let letter = s[at];
    if !rules::is_letter(letter) {
        return None;
    }
    let a = at + 1;
    if s.len() <= a {
        return None;
    }
    if s[a] != b' ' {
        return None;
    }
    after_letter(
        s,
        Line {
            letter,
            thread: 0,
            place: 0,
            value: 0,
            next: a + 1,
        },
    )
}

// A reading that ended in a refusal at the line behind n events.
// Kept: the number of a refusal, as `Refusal` has it; beside it the count of a reading, so that it is no twin of `machine::refusal_after`.
fn stopped(h: Counts, n: usize, number: u8) -> Read
    requires { n ≤ full.events }
    ensures { result ≡ record { count = n; verdict = Err (record { number = number; line = line_after h n }) } }
{
    let line = rules::line_after(h, n as u32);
    Read {
        count: n,
        verdict: Err(Refusal { number, line }),
    }
}

// The events of the lines from a place on, one record for each at the front of the two rows: until a line that is no event, or an event
// more than the course has.
// Kept: two rows of plain numbers, which document 01 has the marking go over.
pub fn read_lines(
    course: Course,
    h: Counts,
    s: &[u8],
    from: usize,
    what: &mut [u32; RECORDS],
    value: &mut [Value; RECORDS],
) -> Read
    ensures { Reads (limits_of course) h (drop from s.now) result what.old what.new value.old value.new }
{
    let most = rules::most_events(course) as usize;
    let mut at = from;
    let mut n: usize = 0;
    // Kept: each line says where the next one starts, and what ends the reading at n is asked in the turn itself, so a range over n is no plainer.
    while at < s.len() {
        let Some(l) = line_at(s, at) else {
            return stopped(h, n, 4);
        };
        if most <= n {
            return stopped(h, n, rules::excess_of(course));
        }
        what[n] = records::what_of(l.letter, l.thread, l.place);
        value[n] = l.value;
        at = l.next;
        n += 1;
    }
    Read {
        count: n,
        verdict: Ok(()),
    }
}
