// What a program in C calls: a whole trace, marked into lent memory, its tail, the sheet of a sitting, and one step over a state that it keeps.
// Events and answers are plain numbers. include/dabzhoni.h declares these functions and the layout of the state.
#![tactic(auto)]

ghost use Rattle.std.specs.Prelude.{◌≡◌};
ghost use Rattle.rules.specs.Limits.{full, short, limits_of};
ghost use Rattle.c_api.specs.Replies.{initial_of, refusal_reply, reply_of, step_reply, order_reply, mark_reply, MarkReplies, BriefReplies, tail_reply, TailReplies, sheet_reply, SheetReplies};
ghost use Rattle.c_api.specs.Computed.Stepping.{event_of, reply_to};

use finishing::Tail;
use ordering::Ordering;
use report::Report;
use rules::{Counts, Course, Event, Kind, Refusal, VARIABLES, Value, Verdict};
use session::Session;
use state::State;

// The number of a refusal and its line; both are 0 where nothing is refused.
// Kept: the C interface: `struct dabzhoni_reply` of include/dabzhoni.h.
#[repr(C)]
#[derive(Clone, Copy)]
pub struct Reply {
    pub number: usize,
    pub line: usize,
}

// The number of a refusal and its line.
impl From<Refusal> for Reply {
    ghost from_gives = { λ a r. r ≡ refusal_reply a };

    fn from(a: Refusal) -> Reply {
        Reply {
            number: usize::from(a.number),
            line: a.line,
        }
    }
}

// Those of a verdict, both 0 where nothing is refused.
impl From<Verdict> for Reply {
    ghost from_gives = { λ v r. r ≡ reply_of v };

    #[tactic(auto, unfolding(crate::specs::Replies::reply_of))]
    fn from(v: Verdict) -> Reply {
        match v {
            Ok(()) => Reply { number: 0, line: 0 },
            Err(refusal) => Reply::from(refusal),
        }
    }
}

// ---- One step.

// The reply to an event, and the state after it.
#[derive(Clone, Copy)]
pub struct StepReply {
    pub reply: Reply,
    pub state: State,
}

// The event that is tried. Where the letter names none it is of a thread that is not declared, so that it is refused: by 8, or else at the
// line of the next event.
fn event_of(h: Counts, kind: Option<Kind>, thread: usize, line: usize) -> Event
    ensures { result ≡ event_of h kind thread line }
{
    match kind {
        Some(kind) => Event { thread, line, kind },
        None => Event {
            thread: h.threads,
            line,
            kind: Kind::Assign(0, 0),
        },
    }
}

// The reply, where the event that is tried has this one: of a letter that names none 8, which alone has line 0, and else 4.
fn reply_to(kind: Option<Kind>, r: Reply) -> Reply
    ensures { result ≡ reply_to kind r }
{
    if kind.is_none() && r.line != 0 {
        Reply { number: 4, ..r }
    } else {
        r
    }
}

// One step, by value. For F the value is the thread that it notifies; for K, N, Y and C it is not looked at.
pub fn step_numbers(
    course: Course,
    s: State,
    letter: u8,
    thread: usize,
    place: usize,
    value: Value,
) -> StepReply
    ensures { result ≡ step_reply (limits_of course) s letter thread place value }
{
    let line = rules::line_after(s.counts, s.events);
    let kind = rules::kind_of(letter, place, value);
    let e = event_of(s.counts, kind, thread, line);
    let a = machine::step(course, s, e);
    StepReply {
        reply: reply_to(kind, Reply::from(a.verdict)),
        state: a.state,
    }
}

// The state before the first event, with no variable volatile.
pub fn initial_numbers(threads: usize, variables: usize, locks: usize) -> State
    ensures { result ≡ initial_of threads variables locks }
{
    state::initial(Counts {
        threads,
        variables,
        locks,
        volatiles: [false; VARIABLES],
    })
}

// Makes the state before the first event.
#[unsafe(no_mangle)]
pub extern "C" fn dabzhoni_initial(s: &mut State, threads: usize, variables: usize, locks: usize)
    ensures { s.new ≡ initial_of threads variables locks }
{
    *s = initial_numbers(threads, variables, locks);
}

// One step over the state that the caller keeps, changed in place.
fn step_in_place(
    course: Course,
    s: &mut State,
    letter: u8,
    thread: usize,
    place: usize,
    value: Value,
) -> Reply
    ensures { record { reply = result; state = s.new } ≡ step_reply (limits_of course) s.old letter thread place value }
{
    let a = step_numbers(course, *s, letter, thread, place, value);
    *s = a.state;
    a.reply
}

// The same in the full course.
// Kept: the C interface: an exported name for each course.
#[unsafe(no_mangle)]
pub extern "C" fn dabzhoni_step(
    s: &mut State,
    letter: u8,
    thread: usize,
    place: usize,
    value: Value,
) -> Reply
    ensures { record { reply = result; state = s.new } ≡ step_reply full s.old letter thread place value }
{
    step_in_place(Course::Full, s, letter, thread, place, value)
}

// The same in the short course.
// Kept: the C interface: an exported name for each course.
#[unsafe(no_mangle)]
pub extern "C" fn dabzhoni_step_short(
    s: &mut State,
    letter: u8,
    thread: usize,
    place: usize,
    value: Value,
) -> Reply
    ensures { record { reply = result; state = s.new } ≡ step_reply short s.old letter thread place value }
{
    step_in_place(Course::Short, s, letter, thread, place, value)
}

// ---- A whole trace.

// What is said of an order: how many entries the order list has, where there is an order; and the number and the line of what denies it, else 0.
#[derive(Clone, Copy)]
pub struct OrderReply {
    pub sections: Option<usize>,
    pub denial: Reply,
}

// The entries of an order, or what denies it; where nothing is said of one neither.
impl From<Ordering> for OrderReply {
    ghost from_gives = { λ o r. r ≡ order_reply o };

    fn from(o: Ordering) -> OrderReply {
        match o {
            Ordering::Ordered(c) => OrderReply {
                sections: Some(c),
                denial: Reply { number: 0, line: 0 },
            },
            Ordering::Unordered(refusal) => OrderReply {
                sections: None,
                denial: Reply::from(refusal),
            },
            Ordering::NoOrder => OrderReply {
                sections: None,
                denial: Reply { number: 0, line: 0 },
            },
        }
    }
}

// What is said of a trace: the number of a refusal and its line, both 0 where it is accepted; the events of an accepted one, else 0; the
// length of the listing; 1 where there is an order, else 0; how many entries the order list has; and 20 to 22 and its line where the order is
// denied, else 0.
// Kept: the C interface: `struct dabzhoni_marked` of include/dabzhoni.h.
#[repr(C)]
#[derive(Clone, Copy)]
pub struct MarkReply {
    pub number: usize,
    pub line: usize,
    pub events: usize,
    pub written: usize,
    pub ordered: usize,
    pub sections: usize,
    pub denial: usize,
    pub denial_line: usize,
}

// The numbers of a report.
impl From<Report> for MarkReply {
    ghost from_gives = { λ r m. m ≡ mark_reply r };

    #[tactic(auto, unfolding(crate::specs::Replies::mark_reply))]
    fn from(r: Report) -> MarkReply {
        let v = Reply::from(r.verdict);
        let o = OrderReply::from(r.ordering);
        MarkReply {
            number: v.number,
            line: v.line,
            events: r.events,
            written: r.written,
            ordered: usize::from(o.sections.is_some()),
            sections: o.sections.unwrap_or(0),
            denial: o.denial.number,
            denial_line: o.denial.line,
        }
    }
}

// Marks a whole trace, with its records, its order and its listing.
// Kept: the C interface: an exported name for each course.
#[unsafe(no_mangle)]
pub extern "C" fn dabzhoni_mark(
    paper: &[u8],
    what: &mut [u32],
    values: &mut [Value],
    out: &mut [u8],
    order: &mut [u64],
    scratch: &mut [u64],
) -> MarkReply
    ensures { MarkReplies full paper.now what.old values.old out.old order.old scratch.old result what.new values.new out.new order.new scratch.new }
{
    MarkReply::from(report::mark_trace(Course::Full, paper, what, values, out, order, scratch))
}

// The same where no order is wanted.
// Kept: the C interface: an exported name for each course.
#[unsafe(no_mangle)]
pub extern "C" fn dabzhoni_mark_unordered(
    paper: &[u8],
    what: &mut [u32],
    values: &mut [Value],
    out: &mut [u8],
) -> MarkReply
    ensures { BriefReplies full paper.now what.old values.old out.old result what.new values.new out.new }
{
    MarkReply::from(report::mark_unordered(Course::Full, paper, what, values, out))
}

// ---- A whole trace of the short course.

// Marks it, with its records, its order and its listing.
// Kept: the C interface: an exported name for each course.
#[unsafe(no_mangle)]
pub extern "C" fn dabzhoni_mark_short(
    paper: &[u8],
    what: &mut [u32],
    values: &mut [Value],
    out: &mut [u8],
    order: &mut [u64],
    scratch: &mut [u64],
) -> MarkReply
    ensures { MarkReplies short paper.now what.old values.old out.old order.old scratch.old result what.new values.new out.new order.new scratch.new }
{
    MarkReply::from(report::mark_trace(Course::Short, paper, what, values, out, order, scratch))
}

// The same where no order is wanted.
// Kept: the C interface: an exported name for each course.
#[unsafe(no_mangle)]
pub extern "C" fn dabzhoni_mark_short_unordered(
    paper: &[u8],
    what: &mut [u32],
    values: &mut [Value],
    out: &mut [u8],
) -> MarkReply
    ensures { BriefReplies short paper.now what.old values.old out.old result what.new values.new out.new }
{
    MarkReply::from(report::mark_unordered(Course::Short, paper, what, values, out))
}

// ---- The tail of a trace.

// What is said of a tail: the number of a refusal and its line, both 0 where a tail is given; then how many events it has and the line of the
// first, both 0 after a refusal.
// Kept: the C interface: `struct dabzhoni_tail` of include/dabzhoni.h.
#[repr(C)]
#[derive(Clone, Copy)]
pub struct TailReply {
    pub number: usize,
    pub line: usize,
    pub events: usize,
    pub first: usize,
}

// The numbers of a tail, or of its refusal.
impl From<Result<Tail, Refusal>> for TailReply {
    ghost from_gives = { λ t r. r ≡ tail_reply t };

    fn from(t: Result<Tail, Refusal>) -> TailReply {
        match t {
            Ok(tail) => TailReply {
                number: 0,
                line: 0,
                events: tail.events,
                first: tail.line,
            },
            Err(refusal) => TailReply {
                number: usize::from(refusal.number),
                line: refusal.line,
                events: 0,
                first: 0,
            },
        }
    }
}

// Puts the tail of a trace to the front of two rows, all of it or none.
// Kept: the C interface: an exported name for each course.
#[unsafe(no_mangle)]
pub extern "C" fn dabzhoni_finish(paper: &[u8], what: &mut [u32], values: &mut [Value]) -> TailReply
    ensures { TailReplies full paper.now what.old values.old result what.new values.new }
{
    TailReply::from(finishing::finish(Course::Full, paper, what, values))
}

// The same in the short course.
// Kept: the C interface: an exported name for each course.
#[unsafe(no_mangle)]
pub extern "C" fn dabzhoni_finish_short(
    paper: &[u8],
    what: &mut [u32],
    values: &mut [Value],
) -> TailReply
    ensures { TailReplies short paper.now what.old values.old result what.new values.new }
{
    TailReply::from(finishing::finish(Course::Short, paper, what, values))
}

// ---- The sheet of a sitting.

// What is said of a sheet: the number of a refusal and its line, both 0 where the papers are counted; how many papers there are and how many are
// accepted, both 0 after a refusal; and the length of the text.
// Kept: the C interface: `struct dabzhoni_sheet` of include/dabzhoni.h.
#[repr(C)]
#[derive(Clone, Copy)]
pub struct SheetReply {
    pub number: usize,
    pub line: usize,
    pub papers: usize,
    pub accepted: usize,
    pub written: usize,
}

// The numbers of what is said of a sheet.
impl From<Session> for SheetReply {
    ghost from_gives = { λ s r. r ≡ sheet_reply s };

    #[tactic(auto, unfolding(crate::specs::Replies::sheet_reply))]
    fn from(s: Session) -> SheetReply {
        let v = Reply::from(s.verdict);
        SheetReply {
            number: v.number,
            line: v.line,
            papers: s.traces,
            accepted: s.accepted,
            written: s.written,
        }
    }
}

// Marks the papers of a sheet, and puts the counts to the front of the output.
// Kept: the C interface: an exported name for each course.
#[unsafe(no_mangle)]
pub extern "C" fn dabzhoni_sheet(sheet: &[u8], out: &mut [u8]) -> SheetReply
    ensures { SheetReplies full sheet.now out.old result out.new }
{
    SheetReply::from(session::mark_sheet(Course::Full, sheet, out))
}

// The same in the short course.
// Kept: the C interface: an exported name for each course.
#[unsafe(no_mangle)]
pub extern "C" fn dabzhoni_sheet_short(sheet: &[u8], out: &mut [u8]) -> SheetReply
    ensures { SheetReplies short sheet.now out.old result out.new }
{
    SheetReply::from(session::mark_sheet(Course::Short, sheet, out))
}
