// Finding a trace in bytes: its refusal, or its head, its guards, its volatile variables and the part that holds its events.
#![tactic(auto)]

ghost use Rattle.std.specs.Prelude.{◌≡◌, ◌≤◌, length, drop};
ghost use Rattle.lines.specs.Lines.{split_on};
ghost use Rattle.decimal.specs.Decimal.{natural_of};
ghost use Rattle.rules.specs.Limits.{limits_of, no_volatiles};
ghost use Rattle.trace.specs.Trace.{trailer_number, last_of, trailer_of, head_of, number_within, no_locks, locks_from, is_dash, guards_of, volatiles_from, volatiles_of, second_of, first_of, plain_trace_of, events_of, begins_with_v, trace_of};

use rules::{Counts, Course, Refusal, VARIABLES};

// The lock of each variable, 0 past the last, where line 2 names locks.
pub type Guards = Option<[usize; VARIABLES]>;

// A trace that was found, with the places where its events start and its trailer starts.
#[derive(Clone, Copy)]
pub struct Trace {
    pub head: Counts,
    pub guards: Guards,
    pub from: usize,
    pub to: usize,
}

// The last line: where it starts, and the number of a trailer where it is one.
#[derive(Clone, Copy)]
pub struct LastLine {
    pub at: usize,
    pub number: Option<usize>,
}

const TOO_LONG: Refusal = Refusal { number: 1, line: 0 };

const WRONG_TRAILER: Refusal = Refusal { number: 2, line: 0 };

const WRONG_HEAD: Refusal = Refusal { number: 3, line: 1 };

const WRONG_GUARDS: Refusal = Refusal { number: 6, line: 2 };

const WRONG_VOLATILES: Refusal = Refusal { number: 6, line: 3 };

// The number of a trailer, a line without its end.
fn trailer_number(s: &[u8]) -> Option<usize>
    ensures { result ≡ trailer_number (split_on 32 s.now) }
{
    if lines::count_fields(s) != 2 {
        return None;
    }
    if lines::read_letter(lines::field(s, 0)) != b'Z' {
        return None;
    }
    decimal::read_natural(lines::field(s, 1))
}

// The last line of the bytes.
pub fn last_line(s: &[u8]) -> LastLine
    ensures { result ≡ last_of s.now }
{
    if s.len() == 0 {
        return LastLine {
            at: 0,
            number: None,
        };
    }
    let last = s.len() - 1;
    let at = lines::last_end(&s[..last]);
    if s[last] != b'\n' {
        return LastLine { at, number: None };
    }
    let number = trailer_number(&s[at..last]);
    LastLine { at, number }
}

// The place where the trailer starts: the last line, with the number of bytes before it.
fn find_trailer(s: &[u8]) -> Option<usize>
    ensures { result ≡ trailer_of s.now }
{
    let l = last_line(s);
    l.number.filter(|n| *n == l.at)
}

// Line 1, without its end; 3 asks the limits of the full course in both.
fn read_head(s: &[u8]) -> Option<Counts>
    ensures { result ≡ head_of (split_on 32 s.now) }
{
    if lines::count_fields(s) != 4 {
        return None;
    }
    if lines::read_letter(lines::field(s, 0)) != b'H' {
        return None;
    }
    let threads = decimal::read_natural(lines::field(s, 1))?;
    let variables = decimal::read_natural(lines::field(s, 2))?;
    let locks = decimal::read_natural(lines::field(s, 3))?;
    let head = Counts {
        threads,
        variables,
        locks,
        volatiles: [false; VARIABLES],
    };
    if rules::is_allowed(Course::Full, head) {
        Some(head)
    } else {
        None
    }
}

// A field as a number from `low` on and below `high`.
fn read_within(f: &[u8], low: usize, high: usize) -> Option<usize>
    ensures { result ≡ number_within low high (natural_of f.now) }
{
    decimal::read_natural(f).filter(|n| low <= *n && *n < high)
}

// The locks of the variables, each one of `locks` locks, behind the first field. A lock past the last place is left out.
fn read_locks(s: &[u8], locks: usize) -> Option<[usize; VARIABLES]>
    ensures { result ≡ locks_from 0 no_locks locks (drop 1 (split_on 32 s.now)) }
{
    let mut guards = [0; VARIABLES];
    for (i, field) in s.split(|x| *x == b' ').skip(1).enumerate() {
        let lock = read_within(field, 0, locks)?;
        if i < VARIABLES {
            guards[i] = lock;
        }
    }
    Some(guards)
}

// Whether a line of guards names none.
fn is_dash(s: &[u8]) -> bool
    ensures { result ≡ is_dash (split_on 32 s.now) }
{
    lines::count_fields(s) == 2 && lines::read_letter(lines::field(s, 1)) == b'-'
}

// Line 2, without its end.
fn read_guards(s: &[u8], h: Counts) -> Option<Guards>
    ensures { result ≡ guards_of h.variables h.locks (split_on 32 s.now) }
{
    if lines::read_letter(lines::field(s, 0)) != b'G' {
        return None;
    }
    if is_dash(s) {
        return Some(None);
    }
    if lines::count_fields(s) - 1 != h.variables {
        return None;
    }
    let guards = read_locks(s, h.locks)?;
    Some(Some(guards))
}

// The rising numbers of volatile variables behind the first field. A number past the last place sets no flag.
fn read_flags(s: &[u8], variables: usize) -> Option<[bool; VARIABLES]>
    ensures { result ≡ volatiles_from variables 0 no_volatiles (drop 1 (split_on 32 s.now)) }
{
    let mut volatiles = [false; VARIABLES];
    let mut low: usize = 0;
    for field in s.split(|x| *x == b' ').skip(1) {
        let n = read_within(field, low, variables)?;
        if n < VARIABLES {
            volatiles[n] = true;
        }
        low = n + 1;
    }
    Some(volatiles)
}

// A line 3 that begins with V, without its end.
fn read_volatiles(s: &[u8], variables: usize) -> Option<[bool; VARIABLES]>
    ensures { result ≡ volatiles_of variables (split_on 32 s.now) }
{
    if lines::read_letter(lines::field(s, 0)) != b'V' {
        return None;
    }
    if lines::count_fields(s) < 2 {
        return None;
    }
    read_flags(s, variables)
}

// Line 2, which starts at `at` in what stands before the trailer.
fn find_second(s: &[u8], at: usize, head: Counts) -> Result<Trace, Refusal>
    requires { at ≤ length s.now }
    ensures { result ≡ second_of (drop at s.now) at (length s.now) head }
{
    let rest = &s[at..];
    let b = lines::find(rest, b'\n');
    if rest.len() <= b {
        return Err(WRONG_GUARDS);
    }
    let guards = read_guards(&rest[..b], head).ok_or(WRONG_GUARDS)?;
    Ok(Trace {
        head,
        guards,
        from: at + b + 1,
        to: s.len(),
    })
}

// Line 1, the first of what stands before the trailer.
fn find_first(course: Course, s: &[u8]) -> Result<Trace, Refusal>
    ensures { result ≡ first_of (limits_of course) s.now (length s.now) }
{
    let a = lines::find(s, b'\n');
    if s.len() <= a {
        return Err(WRONG_HEAD);
    }
    let head = read_head(&s[..a]).ok_or(WRONG_HEAD)?;
    if !rules::is_allowed(course, head) {
        return Err(Refusal {
            number: rules::excess_of(course),
            line: 1,
        });
    }
    find_second(s, a + 1, head)
}

// The trace in the bytes with all that stands behind line 2 as its events, or its refusal: 1, 2, 3, over the limits of the course, and 6 in this
// order.
fn find_plain(course: Course, s: &[u8]) -> Result<Trace, Refusal>
    ensures { result ≡ plain_trace_of (limits_of course) s.now }
{
    if 65536 < s.len() {
        return Err(TOO_LONG);
    }
    let to = find_trailer(s).ok_or(WRONG_TRAILER)?;
    find_first(course, &s[..to])
}

// Whether the first line of s is meant as a line of volatile variables.
fn begins_with_v(s: &[u8]) -> bool
    ensures { result ≡ begins_with_v s.now }
{
    s.len() != 0 && s[0] == b'V'
}

// The trace in the bytes, or its refusal: 1, 2, 3, over the limits of the course, and 6 for line 2 and line 3 in this order.
pub fn find(course: Course, s: &[u8]) -> Result<Trace, Refusal>
    ensures { result ≡ trace_of (limits_of course) s.now }
{
    let t = find_plain(course, s)?;
    let rest = &s[t.from..t.to];
    if !begins_with_v(rest) {
        return Ok(t);
    }
    let b = lines::find(rest, b'\n');
    let volatiles = read_volatiles(&rest[..b], t.head.variables).ok_or(WRONG_VOLATILES)?;
    Ok(Trace {
        head: Counts {
            volatiles,
            ..t.head
        },
        from: t.from + b + 1,
        ..t
    })
}

// The part of the bytes that holds the events; empty after a refusal.
pub fn find_events(course: Course, s: &[u8]) -> &[u8]
    ensures { result.now ≡ events_of s.now (trace_of (limits_of course) s.now) }
{
    match find(course, s) {
        Ok(t) => &s[t.from..t.to],
        Err(_) => &[],
    }
}
