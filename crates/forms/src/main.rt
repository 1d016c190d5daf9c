// Runs the public functions that no other program and no test runs, and writes what they answer to standard output. What is lent is filled
// with 35, 77 and an event of line 9, so that an untouched place shows.
#![tactic(auto)]

ghost use Rattle.std.specs.Prelude.{◌≤◌};

use finishing::Tail;
use ordering::Ordering;
use report::Report;
use rules::{Counts, Course, Event, Kind, Refusal, Value, Verdict};
use state::State;
use std::io::Print;

// ---- What is written.

// Bytes to standard output. Whether they can be written is not looked at: who runs this compares what came.
fn put(rt: &impl Print, bytes: &[u8]) {
    let _ = rt.write_all(bytes);
}

// The first k bytes of an output.
fn show(rt: &impl Print, out: &[u8], k: usize) {
    if k <= out.len() {
        put(rt, &out[..k]);
    }
}

// What a writer puts at the front of an output with room enough.
fn written<F: FnOnce(&mut [u8]) -> usize>(rt: &impl Print, write: F)
    requires { F.IsAlwaysCallable write }
{
    let mut out = [35u8; 514];
    let k = write(&mut out);
    show(rt, &out, k);
}

// `=` and the numbers.
fn row(rt: &impl Print, ns: &[usize]) {
    written(rt, |out| decimal::write_row_line(out, b"=", ns));
}

// What one place of what is lent holds.
trait Shown {
    fn write(&self, rt: &impl Print);
}

// `=` and the number.
// Kept: an impl for each type: std has no `From<u64>` and no `From<u32>` for usize, and an impl by a macro is refused.
impl Shown for u8 {
    fn write(&self, rt: &impl Print) {
        row(rt, &[usize::from(*self)]);
    }
}

// The same.
// Kept: as for u8.
impl Shown for u32 {
    fn write(&self, rt: &impl Print) {
        row(rt, &[*self as usize]);
    }
}

// The same.
// Kept: as for u8.
impl Shown for u64 {
    fn write(&self, rt: &impl Print) {
        row(rt, &[*self as usize]);
    }
}

// `v 0 0` and the value.
impl Shown for Value {
    fn write(&self, rt: &impl Print) {
        written(
            rt,
            |out| decimal::write_value_line(out, b"v", &[0, 0], *self),
        );
    }
}

// The line of the event, and the event.
impl Shown for Event {
    fn write(&self, rt: &impl Print) {
        row(rt, &[self.line]);
        written(rt, |out| writer::write_event(out, *self));
    }
}

// One place of what is lent, where it is lent.
fn place<T: Shown>(rt: &impl Print, lent: &[T], i: usize) {
    if let Some(x) = lent.get(i) {
        x.write(rt);
    }
}

// Number and line of a refusal, both 0 where nothing is refused.
fn refusal(v: Verdict) -> [usize; 2] {
    match v {
        Ok(()) => [0, 0],
        Err(refusal) => [usize::from(refusal.number), refusal.line],
    }
}

// ---- A trace where no order is wanted.

// 1 where there is an order, else 0; then its sections, what denies it, or 0.
fn about_order(o: Ordering) -> [usize; 2] {
    match o {
        Ordering::Ordered(c) => [1, c],
        Ordering::Unordered(refusal) => [0, usize::from(refusal.number)],
        Ordering::NoOrder => [0, 0],
    }
}

// Number, line, events, written, whether there is an order, and what is said of it.
fn reported(rt: &impl Print, r: Report) {
    let [number, line] = refusal(r.verdict);
    let [ordered, order] = about_order(r.ordering);
    row(rt, &[number, line, r.events, r.written, ordered, order]);
}

// What is said, the listing, and what the lent memory then holds.
fn unordered(
    rt: &impl Print,
    course: Course,
    paper: &[u8],
    what: &mut [u32],
    values: &mut [Value],
    out: &mut [u8],
) {
    let r = report::mark_unordered(course, paper, what, values, out);
    reported(rt, r);
    show(rt, out, r.written);
    place(rt, what, 0);
    place(rt, what, 10);
    place(rt, values, 1);
    place(rt, values, 10);
    place(rt, out, 43);
}

// With one place too few of each, then with enough; and three locks in the short course.
fn orderless(rt: &impl Print, paper: &[u8]) {
    let mut what = [77u32; 2000];
    let mut few = [77u32; 1999];
    let mut values: [Value; 2000] = [77; 2000];
    let mut fewer: [Value; 1999] = [77; 1999];
    let mut out = [35u8; 32768];
    let mut narrow = [35u8; 32767];
    unordered(rt, Course::Full, paper, &mut few, &mut values, &mut out);
    unordered(rt, Course::Full, paper, &mut what, &mut fewer, &mut out);
    unordered(rt, Course::Full, paper, &mut what, &mut values, &mut narrow);
    unordered(rt, Course::Full, paper, &mut what, &mut values, &mut out);
    let locks = b"H 2 1 3\nG -\nZ 12\n";
    unordered(rt, Course::Short, locks, &mut what, &mut values, &mut out);
}

// ---- The writers of a trace.

// The line of an event.
fn event(rt: &impl Print, thread: usize, kind: Kind) {
    let e = Event {
        thread,
        line: 3,
        kind,
    };
    written(rt, |out| writer::write_event(out, e));
}

// Counts with no volatile variable.
fn counts(threads: usize, variables: usize, locks: usize) -> Counts {
    Counts {
        threads,
        variables,
        locks,
        volatiles: [false; 16],
    }
}

// The paper of document 01.
fn canonical(rt: &impl Print) {
    let h = counts(2, 1, 1);
    written(rt, |out| writer::write_head(out, h));
    written(rt, |out| writer::write_guards(out, true, &[0]));
    let events = [
        (0, Kind::Lock(0)),
        (0, Kind::Assign(0, 5)),
        (0, Kind::Store(0, 5)),
        (0, Kind::Write(0, 5)),
        (0, Kind::Unlock(0)),
        (1, Kind::Lock(0)),
        (1, Kind::Read(0, 5)),
        (1, Kind::Load(0, 5)),
        (1, Kind::Use(0, 5)),
        (1, Kind::Unlock(0)),
    ];
    for (thread, kind) in events {
        event(rt, thread, kind);
    }
    written(rt, |out| writer::write_trailer(out, 84));
}

// The least and the greatest numbers.
fn limits(rt: &impl Print) {
    written(rt, |out| writer::write_guards(out, false, &[0]));
    let all: [usize; 16] = [0, 1, 2, 3, 4, 5, 6, 7, 8, 9, 10, 11, 12, 13, 14, 15];
    written(rt, |out| writer::write_volatiles(out, &all[..1]));
    written(rt, |out| writer::write_volatiles(out, &all));
    let events = [
        (7, Kind::Assign(15, Value::MIN)),
        (7, Kind::Load(15, Value::MAX)),
        (0, Kind::PrescientStore(15, -1)),
        (7, Kind::PrescientAssign(0, 100)),
        (usize::MAX, Kind::Lock(usize::MAX)),
        (7, Kind::Wait(7)),
        (0, Kind::Notify(7, 7)),
        // A thread that is notified is held at 255.
        (0, Kind::Notify(0, usize::MAX)),
        (7, Kind::Resume(0)),
    ];
    for (thread, kind) in events {
        event(rt, thread, kind);
    }
}

// One byte less than each writer asks for: nothing is written.
fn little_room(rt: &impl Print) {
    let mut out = [35u8; 97];
    let mut narrow = [35u8; 35];
    let mut last = [35u8; 33];
    let e = Event {
        thread: 0,
        line: 3,
        kind: Kind::Lock(0),
    };
    let lengths = [
        writer::write_head(&mut out, counts(2, 1, 1)),
        writer::write_event(&mut out, e),
        writer::write_guards(&mut narrow, true, &[0]),
        writer::write_trailer(&mut last, 84),
        writer::write_volatiles(&mut last, &[0]),
    ];
    row(rt, &lengths);
    place(rt, &out, 0);
    place(rt, &narrow, 0);
    place(rt, &last, 0);
}

// ---- Rows of records.

// Number and line, and variable 0 in main memory, 0 where a row is refused.
fn marked(rt: &impl Print, h: Counts, what: &[u32], values: &[Value]) {
    let r = machine::mark_row(h, what, values);
    row(rt, &refusal(r.map(|_| ())));
    r.map_or(0, |m| m.main[0].value).write(rt);
}

// Rows that are accepted, with a letter that is none, of different lengths, without threads, with another value loaded, and too long.
fn rows(rt: &impl Print) {
    let h = counts(2, 2, 2);
    let none = counts(0, 2, 2);
    // A 0 0, S 0 0, W 0 0, with the greatest value
    let stored: [u32; 3] = [4259840, 5439488, 5701632];
    let most: [Value; 3] = [9223372036854775807; 3];
    // X 0 0
    let letter: [u32; 1] = [5767168];
    let one: [Value; 1] = [0];
    // R 0 0 0, A 0 0 5, L 0 0 0
    let loaded: [u32; 3] = [5373952, 4259840, 4980736];
    let differ: [Value; 3] = [0, 5, 0];
    let long = [4259840u32; 2001];
    let fives: [Value; 2001] = [5; 2001];
    marked(rt, h, &stored, &most);
    marked(rt, h, &letter, &one);
    marked(rt, h, &stored, &one);
    marked(rt, none, &stored, &most);
    marked(rt, h, &loaded, &differ);
    marked(rt, h, &long, &fives);
}

// Variable 1 is volatile: its second assign is 26, at line 5. A volatile variable that is not declared: 3.
fn volatile_rows(rt: &impl Print) {
    let mut h = counts(1, 2, 1);
    h.volatiles[1] = true;
    let fives: [Value; 2] = [5; 2];
    // A 0 0 twice; A 0 1 twice
    let other = [4259840u32; 2];
    let again = [4259841u32; 2];
    marked(rt, h, &other, &fives);
    marked(rt, h, &again, &fives);
    h.volatiles[2] = true;
    marked(rt, h, &other, &fives);
}

// Thread 0 waits, is notified by thread 1 and comes back. Before that F for -1, which is no thread, is 5, and for thread 1, which does not wait, 30, both
// at line 6. The values of K, N, Y and C are not looked at.
fn waiting_rows(rt: &impl Print) {
    let h = counts(2, 1, 1);
    // K 0 0, Y 0 0, K 1 0, F 1 0, N 1 0, C 0 0, N 0 0
    let what: [u32; 7] = [
        4915200, 5832704, 4915456, 4587776, 5112064, 4390912, 5111808,
    ];
    let mut values: [Value; 7] = [-1; 7];
    marked(rt, h, &what, &values);
    values[3] = 1;
    marked(rt, h, &what, &values);
    values[3] = 0;
    marked(rt, h, &what, &values);
}

// ---- The part of a trace that holds its events.

// The part and its length.
fn part(rt: &impl Print, course: Course, paper: &[u8]) {
    let found = trace::find_events(course, paper);
    put(rt, found);
    row(rt, &[found.len()]);
}

// ---- Steps over a lent state.

// Number, line, and the events so far.
fn step(rt: &impl Print, course: Course, s: &mut State, thread: usize, kind: Kind) {
    let e = Event {
        thread,
        line: 0,
        kind,
    };
    let v = event_rows::step_in_place(course, s, e);
    let [number, line] = refusal(v);
    row(rt, &[number, line, s.events as usize]);
}

// One step after the other, each of a thread, in the full course.
fn steps(rt: &impl Print, s: &mut State, events: &[(usize, Kind)]) {
    for (thread, kind) in events {
        step(rt, Course::Full, s, *thread, *kind);
    }
}

// Holder and depth of lock 0, and variable 0 in main memory.
fn held(rt: &impl Print, s: &State) {
    let lock = s.holds[0];
    row(rt, &[lock.holder, lock.depth as usize]);
    s.memory[0].value.write(rt);
}

// A lock that another thread holds.
fn locks(rt: &impl Print, h: Counts) {
    let mut s = state::initial(h);
    let events = [
        (0, Kind::Lock(0)),
        (0, Kind::Lock(0)),
        (0, Kind::Unlock(0)),
        (1, Kind::Lock(0)),
    ];
    steps(rt, &mut s, &events);
    held(rt, &s);
}

// All kinds without a wait; then 5, 9 and 8, which leave the state as it was.
fn kinds(rt: &impl Print, h: Counts) {
    let mut s = state::initial(h);
    let events = [
        (0, Kind::Lock(0)),
        (0, Kind::Read(0, 0)),
        (0, Kind::Load(0, 0)),
        (0, Kind::Use(0, 0)),
        (0, Kind::Assign(0, Value::MAX)),
        (0, Kind::Store(0, Value::MAX)),
        (0, Kind::Write(0, Value::MAX)),
        (0, Kind::PrescientStore(0, Value::MIN)),
        (0, Kind::Write(0, Value::MIN)),
        (0, Kind::PrescientAssign(0, Value::MIN)),
        (0, Kind::Unlock(0)),
    ];
    steps(rt, &mut s, &events);
    held(rt, &s);
    step(rt, Course::Full, &mut s, 2, Kind::Lock(0));
    s.events = 2000;
    step(rt, Course::Full, &mut s, 0, Kind::Lock(0));
    s.events = 2001;
    step(rt, Course::Full, &mut s, 0, Kind::Lock(0));
    held(rt, &s);
}

// The short course: its event 200, then 25, 8 for 201 events, which the full course takes, and 8 for three threads.
fn short_steps(rt: &impl Print, h: Counts) {
    let mut s = state::initial(h);
    s.events = 199;
    step(rt, Course::Short, &mut s, 0, Kind::Lock(0));
    step(rt, Course::Short, &mut s, 2, Kind::Lock(0));
    s.events = 201;
    step(rt, Course::Short, &mut s, 0, Kind::Lock(0));
    step(rt, Course::Full, &mut s, 0, Kind::Lock(0));
    held(rt, &s);
    s = state::initial(counts(3, 2, 2));
    step(rt, Course::Short, &mut s, 0, Kind::Lock(0));
    held(rt, &s);
}

// A volatile variable: lines are one further down. A use without its load, a second assign, an early store; then 8 for a volatile variable that is not
// declared.
fn volatile_steps(rt: &impl Print) {
    let mut h = counts(1, 2, 1);
    h.volatiles[0] = true;
    let mut s = state::initial(h);
    let events = [
        (0, Kind::Use(0, 0)),
        (0, Kind::Assign(0, 5)),
        (0, Kind::Assign(0, 6)),
        (0, Kind::Store(0, 5)),
        (0, Kind::PrescientStore(0, 5)),
        (0, Kind::Write(0, 5)),
    ];
    steps(rt, &mut s, &events);
    s.counts.volatiles[2] = true;
    step(rt, Course::Full, &mut s, 0, Kind::Lock(0));
    held(rt, &s);
}

// What thread 0 waits for: its lock's number plus 1, the holds that it gave up, and whether it is notified.
fn awaited(rt: &impl Print, s: &State) {
    let w = s.waits[0];
    row(rt, &[w.lock, w.depth as usize, usize::from(w.notified)]);
}

// Thread 0 gives up two holds, is notified and takes them again. Refused on the way: F for a thread that does not wait; of the waiting thread an assign, and a
// C before it is notified; F by a thread without the lock, for an undeclared thread, on another lock and a second time; C while another holds the lock.
fn waiting_steps(rt: &impl Print, h: Counts) {
    let mut s = state::initial(h);
    let given_up = [
        (0, Kind::Lock(0)),
        (0, Kind::Lock(0)),
        (0, Kind::Notify(0, 1)),
        (0, Kind::Wait(0)),
    ];
    steps(rt, &mut s, &given_up);
    held(rt, &s);
    awaited(rt, &s);
    let notified = [
        (0, Kind::Assign(0, 5)),
        (0, Kind::Read(0, 0)),
        (0, Kind::Resume(0)),
        (1, Kind::Notify(0, 0)),
        (1, Kind::Lock(0)),
        (1, Kind::Notify(0, 2)),
        (1, Kind::Notify(1, 0)),
        (1, Kind::Notify(0, 0)),
    ];
    steps(rt, &mut s, &notified);
    awaited(rt, &s);
    let resumed = [
        (1, Kind::Notify(0, 0)),
        (0, Kind::Resume(0)),
        (1, Kind::Unlock(0)),
        (0, Kind::Resume(0)),
    ];
    steps(rt, &mut s, &resumed);
    held(rt, &s);
    awaited(rt, &s);
}

// All of these.
fn lent_states(rt: &impl Print) {
    put(rt, b"steps in place\n");
    let h = counts(2, 2, 2);
    volatile_steps(rt);
    locks(rt, h);
    kinds(rt, h);
    waiting_steps(rt, h);
    short_steps(rt, h);
}

// ---- Lent rows of events.

// An event that is in no row of records.
const FILLER: Event = Event {
    thread: 7,
    line: 9,
    kind: Kind::Use(7, 7),
};

// Each event of a row.
fn all_places(rt: &impl Print, rows: &[Event]) {
    for e in rows {
        e.write(rt);
    }
}

// A row of which so many places are lent, after n records.
fn fill(rt: &impl Print, places: usize, what: &[u32], values: &[Value], n: usize)
    requires { places ≤ 5 }
{
    let mut rows = [FILLER; 5];
    event_rows::fill_records(&mut rows[..places], counts(1, 2, 1), what, values, n);
    all_places(rt, &rows);
}

// As many events as are asked for, as there are records, as are lent, as there are values, as are lent again; then up to a number that packs
// none, the second and the first.
fn fills(rt: &impl Print) {
    put(rt, b"rows of events\n");
    // K 0 0, A 0 1 and the least value, N 0 0
    let what: [u32; 3] = [4915200, 4259841, 5111808];
    let values: [Value; 3] = [0, -9223372036854775808, 0];
    let one: [Value; 1] = [0];
    // Y 0 0, F 0 0 and a thread, which a negative number is not, C 0 0
    let waited: [u32; 4] = [5832704, 4587520, 4587520, 4390912];
    let notified: [Value; 4] = [1, 1, -1, 1];
    // K 0 0, X 0 0, N 0 0; then a number above all letters
    let stray: [u32; 3] = [4915200, 5767168, 5111808];
    let above: [u32; 3] = [4294967295, 4915200, 5111808];
    let many = [4915200u32; 7];
    let zeros: [Value; 7] = [0; 7];
    fill(rt, 5, &what, &values, 2);
    fill(rt, 5, &what, &values, 9);
    fill(rt, 2, &what, &values, 3);
    fill(rt, 5, &what, &one, 3);
    fill(rt, 5, &waited, &notified, 4);
    fill(rt, 5, &many, &zeros, 7);
    fill(rt, 5, &stray, &values, 3);
    fill(rt, 5, &above, &values, 3);
}

// ---- A trace into lent events.

// How many places are lent.
#[derive(Clone, Copy)]
struct Lent {
    events: usize,
    bytes: usize,
    entries: usize,
    cells: usize,
}

const ENOUGH: Lent = Lent {
    events: 2000,
    bytes: 32768,
    entries: 1000,
    cells: 1000,
};

// What is said, the listing, and what the lent memory then holds: after the listing the next byte; the first event, the tenth, and the place after it; the first
// three places of the order list; of the scratch the first, the last that must be lent and the next, where they are lent.
fn eventful(rt: &impl Print, course: Course, paper: &[u8], lent: Lent)
    requires { (lent.events ≤ 2000) × ((lent.bytes ≤ 32768) × ((lent.entries ≤ 1000) × (lent.cells ≤ 1001))) }
{
    let mut rows = [FILLER; 2000];
    let mut bytes = [35u8; 32768];
    let mut entries = [77u64; 1000];
    let mut cells = [77u64; 1001];
    let out = &mut bytes[..lent.bytes];
    let list = &mut entries[..lent.entries];
    let scratch = &mut cells[..lent.cells];
    let r = event_rows::mark_events(course, paper, &mut rows[..lent.events], out, list, scratch);
    reported(rt, r);
    show(rt, out, r.written);
    place(rt, out, r.written);
    for i in [0, 9, 10] {
        place(rt, &rows, i);
    }
    for i in 0..3 {
        place(rt, list, i);
    }
    for i in [0, 999, 1000] {
        place(rt, scratch, i);
    }
}

// 7, with one place too few of each.
fn too_few(rt: &impl Print, paper: &[u8]) {
    let few = Lent {
        events: 1999,
        ..ENOUGH
    };
    eventful(rt, Course::Full, paper, few);
    let few = Lent {
        bytes: 32767,
        ..ENOUGH
    };
    eventful(rt, Course::Full, paper, few);
    let few = Lent {
        entries: 999,
        ..ENOUGH
    };
    eventful(rt, Course::Full, paper, few);
    let few = Lent {
        cells: 999,
        ..ENOUGH
    };
    eventful(rt, Course::Full, paper, few);
}

// A trace that is refused, one without an order, and one with it, also from a longer scratch and in the short course, one that is over its limits, one in which
// a thread waits and comes back, and one in which it still waits; an order without sections, and no guards.
fn traces(rt: &impl Print, paper: &[u8]) {
    let orderless: [&[u8]; 2] = [
        b"H 2 1 1\nG 0\nU 0 0 0\nZ 20\n",
        b"H 1 1 1\nG 0\nA 0 0 -9223372036854775808\nZ 39\n",
    ];
    for other in orderless {
        eventful(rt, Course::Full, other, ENOUGH);
    }
    eventful(rt, Course::Full, paper, ENOUGH);
    let more = Lent {
        cells: 1001,
        ..ENOUGH
    };
    eventful(rt, Course::Full, paper, more);
    eventful(rt, Course::Short, paper, ENOUGH);
    eventful(rt, Course::Short, b"H 3 1 1\nG -\nZ 12\n", ENOUGH);
    let others: [&[u8]; 4] = [
        b"H 2 1 1\nG 0\nK 0 0\nR 0 0 0\nL 0 0 0\nU 0 0 0\nY 0 0\nK 1 0\nA 1 0 5\nS 1 0 5\nW 1 0 5\nF 1 0 0\nN 1 0\nC 0 0\nR 0 0 5\nL 0 0 5\nU 0 0 5\nN 0 0\nZ 128\n",
        b"H 1 1 1\nG 0\nK 0 0\nY 0 0\nZ 24\n",
        b"H 1 1 1\nG 0\nZ 12\n",
        b"H 1 1 1\nG -\nZ 12\n",
    ];
    for other in others {
        eventful(rt, Course::Full, other, ENOUGH);
    }
}

// ---- The tail of a trace into lent events.

// Number, line, events, and the line of the first.
fn told(t: Result<Tail, Refusal>) -> [usize; 4] {
    match t {
        Ok(tail) => [0, 0, tail.events, tail.line],
        Err(refusal) => [usize::from(refusal.number), refusal.line, 0, 0],
    }
}

// What is said of a tail, and a row of which so many places are lent for it.
fn finish(rt: &impl Print, course: Course, paper: &[u8], places: usize)
    requires { places ≤ 5 }
{
    let mut rows = [FILLER; 5];
    let tail = event_rows::finish_events(course, paper, &mut rows[..places]);
    row(rt, &told(tail));
    all_places(rt, &rows);
}

// A tail of four events, with one place more, all of them and one too few; none left to do; a trace that is refused; 24 of a volatile variable
// and of a wait; a trace over the limits of the short course.
fn tails(rt: &impl Print) {
    put(rt, b"a tail into events\n");
    let open = b"H 2 1 1\nG 0\nK 0 0\nA 0 0 5\nR 1 0 0\nZ 34\n";
    finish(rt, Course::Full, open, 5);
    finish(rt, Course::Short, open, 4);
    finish(rt, Course::Full, open, 3);
    finish(rt, Course::Full, b"H 1 1 1\nG 0\nZ 12\n", 0);
    finish(rt, Course::Full, b"H 2 1 1\nG 0\nU 0 0 0\nZ 20\n", 5);
    finish(rt, Course::Full, b"H 1 1 0\nG -\nV 0\nA 0 0 5\nZ 24\n", 5);
    finish(rt, Course::Full, b"H 1 1 1\nG 0\nK 0 0\nY 0 0\nZ 24\n", 5);
    finish(rt, Course::Short, b"H 3 1 1\nG -\nZ 12\n", 5);
}

fn main(rt: HostRuntime) {
    let paper =
        b"H 2 1 1\nG 0\nK 0 0\nA 0 0 5\nS 0 0 5\nW 0 0 5\nN 0 0\nK 1 0\nR 1 0 5\nL 1 0 5\nU 1 0 5\nN 1 0\nZ 84\n";
    put(&rt, b"no order wanted\n");
    orderless(&rt, paper);
    orderless(&rt, b"H 1 1 1\nG 0\nK 0 0\nY 0 0\nZ 24\n");
    put(&rt, b"the writers\n");
    canonical(&rt);
    limits(&rt);
    little_room(&rt);
    put(&rt, b"rows of records\n");
    rows(&rt);
    volatile_rows(&rt);
    waiting_rows(&rt);
    put(&rt, b"the events of a trace\n");
    part(&rt, Course::Full, paper);
    part(&rt, Course::Full, b"Z 0\n");
    part(&rt, Course::Full, b"H 1 1 0\nG -\nV 0\nA 0 0 5\nZ 24\n");
    part(&rt, Course::Short, paper);
    part(&rt, Course::Short, b"H 1 5 1\nG -\nK 0 0\nZ 18\n");
    lent_states(&rt);
    fills(&rt);
    put(&rt, b"a trace into events\n");
    too_few(&rt, paper);
    traces(&rt, paper);
    tails(&rt);
}
