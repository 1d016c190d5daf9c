// The serial order of a trace's critical sections, or what denies it one. The events are two rows of records, of a trace that is accepted. The
// first pass asks 20 to 22 and writes nothing lent; the second lists the sections.
#![tactic(auto)]

ghost use Rattle.std.specs.Prelude.{◌≡◌, false, ◌≤◌, ◌<◌, length, slice_index};
ghost use Rattle.rules.specs.Limits.{full, limits_of, order_short, line_after};
ghost use Rattle.rules.specs.Rules.{some};
ghost use Rattle.records.specs.Records.{letter_in, thread_in, place_in, event_at, row_events};
ghost use Rattle.sections.specs.Refusals.{unfinished, denial};
ghost use Rattle.ordering.specs.Answer.{guard_of, answer_for, entries_for, Given};
ghost use Rattle.ordering.specs.Computed.Parts.{Fits, past, no_holds, under_in, Holdable, Held, pending_after, late_after, pending_in, unfinished_in, told_as, code_of, idle_or, Filled, nonzero, Put, Orders, Written};
ghost use Rattle.ordering.specs.Traces.{OrdersTrace};

use marking::Marking;
use rules::{CELLS, Counts, Course, RECORDS, Refusal, THREADS, VARIABLES, Value, Verdict};
use trace::Guards;

// What is said of the order of a trace. `answer_for` in specs/Answer.antt says when each case is given, with its number and values.
// Kept: three cases, each with its name and values in `answer_of` and `answer_for`; an Option of a Result would name none of them.
#[derive(Clone, Copy)]
pub enum Ordering {
    // An order, with so many sections.
    Ordered(usize),
    // Denied: 20 to 22, and the line.
    Unordered(Refusal),
    // Nothing is said of an order: there are no guards, or the trace is refused.
    NoOrder,
}

// ---- The events of a trace.

// An action: its letter, its thread, and its variable or lock.
// Kept: the letter is a byte, as document 01 has the marking go over plain numbers.
#[derive(Clone, Copy)]
struct Action {
    letter: u8,
    thread: usize,
    place: usize,
    ghost thread_low: { thread < 8 },
    ghost place_low: { place < 16 },
}

// The rows of an accepted trace: each record names an event. The values are there for what the contracts say of the events.
// Kept: two rows of plain numbers, which document 01 has the marking go over. No model, and no type shared with `finishing`: `Fits` speaks of the head with both rows.
#[derive(Clone, Copy)]
struct Rows<'a> {
    head: Counts,
    what: &'a [u32],
    value: &'a [Value],
    ghost fits: { Fits head what.now value.now },
    ghost few: { length what.now ≤ 2000 },
}

impl Rows<'_> {
    // The action of the record at index i.
    fn action(&self, i: usize) -> Action
        requires { i < length self.now.what.now }
        ensures letters { result.letter ≡ letter_in (slice_index self.now.what.now i) }
        ensures threads { result.thread ≡ thread_in (slice_index self.now.what.now i) }
        ensures places { result.place ≡ place_in (slice_index self.now.what.now i) }
    {
        let w = self.what[i];
        Action {
            letter: records::letter_in(w),
            thread: records::thread_in(w),
            place: records::place_in(w),
        }
    }
}

// ---- What one event does, k its letter.

// How often each thread holds each lock, at 16 * thread + lock; how often it holds on all locks; and the holds that it gave up while it waits.
// Kept: three arrays of numbers, as the definitions have them (`under_in`, `unfinished_in`); a struct for a thread would hold 16 levels in each.
#[derive(Drop)]
struct Holds {
    levels: [u32; CELLS],
    depths: [u32; THREADS],
    remembered: [u32; THREADS],
}

impl Holds {
    // Before the first event.
    fn none() -> Self
        ensures { result ≡ no_holds }
    {
        Self {
            levels: [0; CELLS],
            depths: [0; THREADS],
            remembered: [0; THREADS],
        }
    }

    // How much the thread of an action holds after it. A Y remembers its holds of the lock and a C takes them again: the level and what is remembered
    // change places, for one of them is 0.
    fn hold(&mut self, a: Action) -> u32
        requires { Holdable self.old a.thread a.place a.letter }
        ensures { Held self.old a.thread a.place a.letter result self.new }
    {
        let k = a.letter;
        let t = a.thread;
        let c = t * VARIABLES + a.place;
        if (k == b'Y') | (k == b'C') {
            let level = self.levels[c];
            let kept = self.remembered[t];
            self.levels[c] = kept;
            self.remembered[t] = level;
            let depth = self.depths[t] - level + kept;
            self.depths[t] = depth;
            return depth;
        }
        let more = u32::from(k == b'K');
        let less = u32::from(k == b'N');
        self.levels[c] = self.levels[c] + more - less;
        let depth = self.depths[t] + more - less;
        self.depths[t] = depth;
        depth
    }

    // Whether the thread of an action holds g, the guard of a variable.
    fn is_under(&self, a: Action, g: usize) -> bool
        ensures { result ≡ under_in self.now a.thread g }
    {
        g < VARIABLES && 0 < self.levels[a.thread * VARIABLES + g]
    }

    // 22: at the end a lock is held or an assign owed, or a thread is waiting.
    fn is_unfinished(&self, h: Counts, pending: &[bool; CELLS]) -> bool
        requires threads_bound { h.threads ≤ 8 }
        requires variables_bound { h.variables ≤ 16 }
        ensures { result ≡ unfinished_in h self.now pending.now }
    {
        (0..h.threads).any(|t| {
            0 < self.depths[t] || owes_some(pending, t, h.variables) || 0 < self.remembered[t]
        })
    }
}

// Whether an assign is owed after a letter, where b says whether one was before: a P announces it, and a B makes it.
fn pending_after(b: bool, k: u8) -> bool
    ensures { result ≡ pending_after b k }
{
    (k == b'P') | (b & (k != b'B'))
}

// Whether a thread is behind an N or Y of its section after a letter, where b says whether it was before, and `any` whether it still holds a lock.
fn late_after(b: bool, k: u8, any: bool) -> bool
    ensures { result ≡ late_after b k any }
{
    any & (((k == b'N') | (k == b'Y')) | b)
}

// Whether thread t owes an assign on one of the first n variables.
fn owes_some(pending: &[bool; CELLS], t: usize, n: usize) -> bool
    requires t_bound { t < 8 }
    requires n_bound { n ≤ 16 }
    ensures { result ≡ some n (pending_in pending.now t) }
{
    (0..n).any(|v| pending[t * VARIABLES + v])
}

// ---- The first pass.

// Denied by this rule, after i events.
// Kept: the number of a refusal, as `Refusal` has it; over the number of an event in a row, where `machine::refusal_after` is over those of a state.
fn denied(h: Counts, rule: u8, i: usize) -> Refusal
    requires { i ≤ 2000 }
    ensures { result ≡ record { number = rule; line = line_after h i } }
{
    Refusal {
        number: rule,
        line: rules::line_after(h, i as u32),
    }
}

// The first pass: 20 and 21 event by event, 22 last. Accepted where nothing denies an order.
fn deny(rows: Rows, locks: &[usize; VARIABLES]) -> Verdict
    ensures { result ≡ told_as (denial rows.entry.head (guard_of locks.now) (row_events rows.entry.head rows.entry.what.now rows.entry.value.now)) }
{
    let mut holds = Holds::none();
    let mut pending = [false; CELLS];
    let mut late = [false; THREADS];
    for i in 0..rows.what.len() {
        let a = rows.action(i);
        let k = a.letter;
        let t = a.thread;
        let under = holds.is_under(a, locks[a.place]);
        if ((k == b'U') | ((k == b'A') | (k == b'B'))) & !under {
            return Err(denied(rows.head, 20, i));
        }
        if ((k == b'K') | (k == b'C')) & late[t] {
            return Err(denied(rows.head, 21, i));
        }
        let depth = holds.hold(a);
        late[t] = late_after(late[t], k, 0 < depth);
        let c = t * VARIABLES + a.place;
        pending[c] = pending_after(pending[c], k);
    }
    if holds.is_unfinished(rows.head, &pending) {
        return Err(denied(rows.head, 22, rows.what.len()));
    }
    Ok(())
}

// ---- The second pass.

// A section as one number.
fn encode(t: usize, first: u64, last: u64) -> u64
    requires t_bound { t < 8 }
    requires first_bound { first < 4096 }
    requires last_bound { last < 4096 }
    ensures { result ≡ code_of t first last }
{
    t as u64 * 16777216 + last * 4096 + first
}

// y where a thread holds nothing, else x.
fn idle_or(depth: u32, x: u64, y: u64) -> u64
    ensures { result ≡ idle_or depth x y }
{
    if depth == 0 { y } else { x }
}

// The section that a thread is in: the line where it begins, and the place of its last K or C.
#[derive(Clone, Copy)]
struct Begun {
    first: u64,
    top: usize,
}

// The second pass. The scratch has a place for each K or C, in their order: each section stands at the place of its last one, 0 at the others. A section
// begins at a K or C before which its thread held nothing, and is written down at the N or Y after which it holds nothing. Other events are passed over. How
// many K and C.
// Kept: `n` counts the K and C, and is no index of the loop.
fn fill(rows: Rows, scratch: &mut [u64]) -> usize
    requires ended { unfinished rows.head (past (event_at rows.head rows.what.now rows.value.now) (length rows.what.now)) ≡ false }
    requires places { full.scratch ≤ length scratch.old }
    ensures { Filled rows.entry.head rows.entry.what.now rows.entry.value.now result scratch.new }
{
    let mut holds = Holds::none();
    let mut begun = [Begun { first: 0, top: 0 }; THREADS];
    let mut n: usize = 0;
    for i in 0..rows.what.len() {
        let a = rows.action(i);
        let k = a.letter;
        let t = a.thread;
        let line = rules::line_after(rows.head, i as u32) as u64;
        if (k == b'K') | (k == b'C') {
            let first = idle_or(holds.depths[t], begun[t].first, line);
            holds.hold(a);
            scratch[n] = 0;
            begun[t] = Begun { first, top: n };
            n += 1;
        } else if (k == b'N') | (k == b'Y') {
            let depth = holds.hold(a);
            let Begun { first, top } = begun[t];
            scratch[top] = idle_or(depth, scratch[top], encode(t, first, line));
        }
    }
    n
}

// The numbers of a part of the scratch that are not 0, to the front of the list. How many.
// Kept: the count is what it answers, and a chain with a filter would have to count again.
fn gather(list: &mut [u64], part: &[u64]) -> usize
    requires { length (nonzero part.now) ≤ length list.old }
    ensures { Put (nonzero part.now) list.old 0 result list.new }
{
    let mut c = 0;
    for x in part {
        if *x != 0 {
            list[c] = *x;
            c += 1;
        }
    }
    c
}

// The order of rows that nothing denies one.
// Kept: the order list and the scratch are two lent parts with a promise each (`Written`), and `order_trace` is called with both.
fn give(rows: Rows, list: &mut [u64], scratch: &mut [u64]) -> usize
    requires { Orders rows.head rows.what.now rows.value.now list.old scratch.old }
    ensures { Written (entries_for rows.entry.head (row_events rows.entry.head rows.entry.what.now rows.entry.value.now)) list.old scratch.old result list.new scratch.new }
{
    let n = fill(rows, scratch);
    let c = gather(list, &scratch[..n]);
    scratch.fill(0);
    c
}

// What is said of the order of an accepted trace, and the order to the front of the list.
// Kept: the order list and the scratch, as in `give`.
fn order_rows(rows: Rows, g: Guards, list: &mut [u64], scratch: &mut [u64]) -> Ordering
    requires { order_short full (length list.old) (length scratch.old) ≡ false }
    ensures { Given (answer_for rows.entry.head g (row_events rows.entry.head rows.entry.what.now rows.entry.value.now)) (entries_for rows.entry.head (row_events rows.entry.head rows.entry.what.now rows.entry.value.now)) list.old scratch.old result list.new scratch.new }
{
    let Some(locks) = g else {
        return Ordering::NoOrder;
    };
    match deny(rows, &locks) {
        Ok(()) => Ordering::Ordered(give(rows, list, scratch)),
        Err(refusal) => Ordering::Unordered(refusal),
    }
}

// A trace marked, and what is said of its order.
#[derive(Clone, Copy)]
pub struct Outcome {
    pub marking: Marking,
    pub ordering: Ordering,
}

// Marks a whole trace and orders its sections. 7 before all. The rows are room for the records of its events.
// Kept: its parameters are those of `report::mark_lent`, which lends them: two rows of plain numbers, an order list and a scratch.
pub fn order_trace(
    course: Course,
    bytes: &[u8],
    what: &mut [u32; RECORDS],
    value: &mut [Value; RECORDS],
    list: &mut [u64],
    scratch: &mut [u64],
) -> Result<Outcome, Refusal>
    ensures { OrdersTrace (limits_of course) bytes.now what.old value.old list.old scratch.old result what.new value.new list.new scratch.new }
{
    if rules::is_order_short(list.len(), scratch.len()) {
        return Err(Refusal { number: 7, line: 0 });
    }
    let marking = marking::mark(course, bytes, what, value)?;
    let rows = Rows {
        head: marking.head,
        what: &what[..marking.events],
        value: &value[..marking.events],
    };
    let ordering = order_rows(rows, marking.guards, list, scratch);
    Ok(Outcome { marking, ordering })
}
