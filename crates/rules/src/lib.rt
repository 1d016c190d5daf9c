// The events of a trace, what a trace declares, and what is said of it. What the rules say of events stands in specs/.
#![tactic(auto)]

ghost use Rattle.std.specs.Prelude.{◌≡◌, FitsSigned};
ghost use Rattle.rules.specs.Events.{letter, place, capped, value, thread_of, is_letter, is_lock_letter, kind_of, subject_of};
ghost use Rattle.rules.specs.Limits.{full, limits_of, value_width, most_counts, volatile, any_volatile, stray_volatile, line_after, allowed, declared, lent_short, order_short};
ghost use Rattle.rules.specs.Rules.{told, number_in, line_in};

// The value of a variable. Its width is `value_width` in specs/Limits.antt.
pub type Value = i64;

// ---- The limits of the full course that arrays and lent parts have. The contracts below say that they are those of specs/Limits.antt.

pub const THREADS: usize = 8;

pub const VARIABLES: usize = 16;

pub const LOCKS: usize = 8;

// The cells of a state: one for each thread and variable.
pub const CELLS: usize = THREADS * VARIABLES;

// The places lent for records, output, order list and scratch.
pub const RECORDS: usize = 2000;

pub const OUTPUT: usize = 32768;

pub const ENTRIES: usize = 1000;

pub const SCRATCH: usize = 1000;

// The thirteen kinds, each with its own data: a variable and a value, a lock, or a lock and a thread.
#[derive(Clone, Copy)]
pub enum Kind {
    Use(usize, Value),
    Assign(usize, Value),
    Load(usize, Value),
    Store(usize, Value),
    Read(usize, Value),
    Write(usize, Value),
    Lock(usize),
    Unlock(usize),
    // P, an early store
    PrescientStore(usize, Value),
    // B, the assign that an early store announced
    PrescientAssign(usize, Value),
    // Y, waits: gives up every hold on the lock
    Wait(usize),
    // F, notifies a thread that waits on the lock
    Notify(usize, usize),
    // C, comes back: takes all the holds again
    Resume(usize),
}

// An event: its thread, the number of its line in the trace, and its kind.
#[derive(Clone, Copy)]
pub struct Event {
    pub thread: usize,
    pub line: usize,
    pub kind: Kind,
}

// An outstanding read or store: its value, and a position among all events, from 1: of a read its own, of a store that of its assign, of a P its own.
// With 64 bits for each it has no padding, and the empty queues of a first state are cleared at once.
// Kept: the C interface: `struct dabzhoni_slot` of include/dabzhoni.h.
#[repr(C)]
#[derive(Clone, Copy)]
pub struct Slot {
    pub value: Value,
    pub position: usize,
}

// How many threads, variables and locks a trace declares in its head, and which variables its V line names.
// Kept: the C interface: `struct dabzhoni_counts` of include/dabzhoni.h.
#[repr(C)]
#[derive(Clone, Copy)]
pub struct Counts {
    pub threads: usize,
    pub variables: usize,
    pub locks: usize,
    pub volatiles: [bool; VARIABLES],
}

// The course that a trace is written for: each has its own limits.
#[derive(Clone, Copy)]
pub enum Course {
    Full,
    Short,
}

// The value of a variable in main memory.
#[repr(C)]
#[derive(Clone, Copy)]
pub struct Main {
    pub value: Value,
}

// A thread's copy of a variable: its value, and whether it is usable.
// Kept: a copy has a value where it is not usable too, and the tail of a trace assigns it (`assigning` in the specs of finishing), so no Option.
#[derive(Clone, Copy)]
pub struct Cached {
    pub value: Value,
    pub usable: bool,
}

// The memories after the last event: each variable in main memory, and the copy of thread t and variable v at 16 * t + v.
#[derive(Clone, Copy)]
pub struct Memories {
    pub main: [Main; VARIABLES],
    pub copies: [Cached; CELLS],
}

// The refusal of a trace: its number, and the line that it names.
// Kept: the numbers are the papers' own: `breaks`, `rows`, `judge` and `Marked` in specs/Rules.antt are over them; an enum would add 31 names, and two tables back.
#[derive(Clone, Copy)]
pub struct Refusal {
    pub number: u8,
    pub line: usize,
}

// Accepted, or refused.
pub type Verdict = Result<(), Refusal>;

// ---- Kinds and letters.

// A number held at 255, which no head declares.
#[tactic(auto, unfolding(crate::specs::Events::capped))]
pub fn cap(n: usize) -> u32
    ensures { result ≡ capped n }
{
    n.min(255) as u32
}

// The thread that a number in the place of a value names; a negative one names none. A value has the width that the definitions name.
// Kept: 255 for none, which no head declares, is the number that `thread_of` in specs/Events.antt gives and that a record holds.
pub fn thread_of(x: Value) -> usize
    ensures is { result ≡ thread_of x }
    ensures width { FitsSigned value_width x }
{
    if x < 0 { 255 } else { cap(x as usize) as usize }
}

// The kind with this letter: the thirteen letters; every other byte names none.
// Kept: no TryFrom<u8>, since the place and the value come with the letter, and document 01 asks for this match over the letter bytes.
#[tactic(auto, unfolding(crate::specs::Events::kind_of))]
pub fn kind_of(letter: u8, place: usize, value: Value) -> Option<Kind>
    ensures { result ≡ kind_of letter place value }
{
    match letter {
        b'U' => Some(Kind::Use(place, value)),
        b'A' => Some(Kind::Assign(place, value)),
        b'L' => Some(Kind::Load(place, value)),
        b'S' => Some(Kind::Store(place, value)),
        b'R' => Some(Kind::Read(place, value)),
        b'W' => Some(Kind::Write(place, value)),
        b'K' => Some(Kind::Lock(place)),
        b'N' => Some(Kind::Unlock(place)),
        b'P' => Some(Kind::PrescientStore(place, value)),
        b'B' => Some(Kind::PrescientAssign(place, value)),
        b'Y' => Some(Kind::Wait(place)),
        b'F' => Some(Kind::Notify(place, thread_of(value))),
        b'C' => Some(Kind::Resume(place)),
        _ => None,
    }
}

// Whether a byte is one of the thirteen letters.
pub fn is_letter(k: u8) -> bool
    ensures { result ≡ is_letter k }
{
    kind_of(k, 0, 0).is_some()
}

// Whether a letter is that of a lock event.
#[tactic(auto, unfolding(crate::specs::Events::is_lock_letter))]
pub fn is_lock_letter(k: u8) -> bool
    ensures { result ≡ is_lock_letter k }
{
    (k == b'K') | (k == b'N') | (k == b'Y') | (k == b'F') | (k == b'C')
}

// The letter byte of a kind.
// Kept: no From<Kind> for u8: `u8::from(kind)` says less than this name, which is that of the definition.
pub fn letter_of(k: Kind) -> u8
    ensures { result ≡ letter k }
{
    match k {
        Kind::Use(_, _) => b'U',
        Kind::Assign(_, _) => b'A',
        Kind::Load(_, _) => b'L',
        Kind::Store(_, _) => b'S',
        Kind::Read(_, _) => b'R',
        Kind::Write(_, _) => b'W',
        Kind::Lock(_) => b'K',
        Kind::Unlock(_) => b'N',
        Kind::PrescientStore(_, _) => b'P',
        Kind::PrescientAssign(_, _) => b'B',
        Kind::Wait(_) => b'Y',
        Kind::Notify(_, _) => b'F',
        Kind::Resume(_) => b'C',
    }
}

// The variable or lock of a kind.
pub fn place_of(k: Kind) -> usize
    ensures { result ≡ place k }
{
    match k {
        Kind::Use(v, _)
        | Kind::Assign(v, _)
        | Kind::Load(v, _)
        | Kind::Store(v, _)
        | Kind::Read(v, _)
        | Kind::Write(v, _)
        | Kind::PrescientStore(v, _)
        | Kind::PrescientAssign(v, _) => v,
        Kind::Lock(l) | Kind::Unlock(l) | Kind::Wait(l) | Kind::Notify(l, _) | Kind::Resume(l) => l,
    }
}

// The value of a kind; 0 of a lock event, and of F the thread that it notifies.
pub fn value_of(k: Kind) -> Value
    ensures { result ≡ value k }
{
    match k {
        Kind::Use(_, x)
        | Kind::Assign(_, x)
        | Kind::Load(_, x)
        | Kind::Store(_, x)
        | Kind::Read(_, x)
        | Kind::Write(_, x)
        | Kind::PrescientStore(_, x)
        | Kind::PrescientAssign(_, x) => x,
        Kind::Lock(_) | Kind::Unlock(_) | Kind::Wait(_) | Kind::Resume(_) => 0,
        Kind::Notify(_, u) => Value::from(cap(u)),
    }
}

// The thread whose waiting an event with this letter, thread and value is about.
#[tactic(auto, unfolding(crate::specs::Events::subject_of))]
pub fn subject_of(k: u8, t: usize, x: Value) -> usize
    ensures { result ≡ subject_of k t x }
{
    if k == b'F' { thread_of(x) } else { t }
}

// ---- Limits.

// The most threads, variables and locks of a course.
pub fn most_counts(course: Course) -> Counts
    ensures { result ≡ most_counts (limits_of course) }
{
    match course {
        Course::Full => Counts {
            threads: THREADS,
            variables: VARIABLES,
            locks: LOCKS,
            volatiles: [false; VARIABLES],
        },
        Course::Short => Counts {
            threads: 2,
            variables: 4,
            locks: 2,
            volatiles: [false; VARIABLES],
        },
    }
}

// Whether variable v is volatile.
#[tactic(auto, unfolding(crate::specs::Limits::volatile))]
pub fn is_volatile(h: Counts, v: usize) -> bool
    ensures { result ≡ volatile h v }
{
    v < VARIABLES && h.volatiles[v]
}

// Whether some variable is volatile: there is a V line.
pub fn any_volatile(h: Counts) -> bool
    ensures { result ≡ any_volatile h }
{
    h.volatiles.iter().any(|v| *v)
}

// Whether a variable that is not declared is volatile.
fn stray_volatile(h: Counts) -> bool
    ensures { result ≡ stray_volatile h }
{
    h.volatiles.iter().skip(h.variables).any(|v| *v)
}

// Whether a trace of a course may declare these counts.
pub fn is_allowed(course: Course, h: Counts) -> bool
    ensures { result ≡ allowed (limits_of course) h }
{
    let most = most_counts(course);
    (1 <= h.threads)
        & (h.threads <= most.threads)
        & (1 <= h.variables)
        & (h.variables <= most.variables)
        & (h.locks <= most.locks)
        & !stray_volatile(h)
}

// The most events of a course.
// Kept: this and `excess_of` are two fields of `limits_of`; a struct with both would be made at each call for one of them.
pub fn most_events(course: Course) -> u32
    ensures { result ≡ (limits_of course).events }
{
    match course {
        Course::Full => 2000,
        Course::Short => 200,
    }
}

// The number of the refusal of one event more, and of a head over the limits of the short course.
// Kept: a number of a refusal, as `Refusal` has it; beside `most_events` as said there.
pub fn excess_of(course: Course) -> u8
    ensures { result ≡ (limits_of course).excess }
{
    match course {
        Course::Full => 9,
        Course::Short => 25,
    }
}

// Whether the event's thread, the one that it notifies, and its variable or lock are declared.
pub fn is_declared(h: Counts, e: Event) -> bool
    ensures { result ≡ declared h e }
{
    let k = letter_of(e.kind);
    let subject = subject_of(k, e.thread, value_of(e.kind));
    let places = if is_lock_letter(k) {
        h.locks
    } else {
        h.variables
    };
    (e.thread < h.threads) & ((subject < h.threads) & (place_of(e.kind) < places))
}

// The line of the event after n events.
#[tactic(auto, unfolding(crate::specs::Limits::first_line))]
pub fn line_after(h: Counts, n: u32) -> usize
    ensures { result ≡ line_after h n }
{
    n as usize + if any_volatile(h) { 4 } else { 3 }
}

// 7, where no order is wanted: places lent for records, bytes lent for output.
// Kept: this and `is_order_short` are two refusals, `lent_short` and `order_short`, each of two limits of its own.
#[tactic(auto, unfolding(crate::specs::Limits::lent_short))]
pub fn is_lent_short(records: usize, out: usize) -> bool
    ensures { result ≡ lent_short full records out }
{
    (records < RECORDS) | (out < OUTPUT)
}

// 7, where an order is wanted, also these: places lent for the order list and the scratch.
// Kept: as `is_lent_short`.
#[tactic(auto, unfolding(crate::specs::Limits::order_short))]
pub fn is_order_short(list: usize, scratch: usize) -> bool
    ensures { result ≡ order_short full list scratch }
{
    (list < ENTRIES) | (scratch < SCRATCH)
}

// ---- Verdicts.

// The number of a verdict; 0 where it is accepted.
// Kept: a public function, with `number_in` for its promise; it and `line_of` differ in the part that they read.
pub fn number_of(v: Verdict) -> u8
    ensures { result ≡ number_in (told v) }
{
    match v {
        Ok(()) => 0,
        Err(refusal) => refusal.number,
    }
}

// The line of a verdict; 0 where it is accepted.
// Kept: a public function, with `line_in` for its promise.
pub fn line_of(v: Verdict) -> usize
    ensures { result ≡ line_in (told v) }
{
    match v {
        Ok(()) => 0,
        Err(refusal) => refusal.line,
    }
}
