// The state of the marker, which a caller keeps: what its fields say is in specs/State.antt, refusal 8 in specs/Range.antt, and the state
// after an event in specs/Step.antt.
#![tactic(auto)]

ghost use Rattle.std.specs.Prelude.{◌≡◌, ◌<◌, ◌&&◌};
ghost use Rattle.rules.specs.Limits.{limits_of};
ghost use Rattle.state.specs.State.{start};
ghost use Rattle.state.specs.Range.{hold_ok, holds_ok, wait_ok, threads_ok, cell_ok, cells_ok, queue_ok, queues_ok, in_range};
ghost use Rattle.state.specs.Computed.Places.{cell_place, slot_place, Shape};

use rules::{CELLS, Counts, Course, LOCKS, Main, Slot, THREADS, VARIABLES, Value};

// A queue of at most eight: its oldest is at place `first` of the cell's eight places (modulo 8), the others follow it round.
// Kept: the C interface: `struct dabzhoni_ring` of include/dabzhoni.h.
#[repr(C)]
#[derive(Clone, Copy, Default)]
pub struct Ring {
    pub first: u8,
    pub len: u8,
}

// What is kept for one thread and variable. The outstanding reads and stores themselves are in the state's `reads` and `stores`.
// Kept: the C interface: `struct dabzhoni_cell` of include/dabzhoni.h.
#[repr(C)]
#[derive(Clone, Copy, Default)]
pub struct Cell {
    pub copy: Value,
    pub announced: Value,
    // The latest position that makes the copy usable: of an A or B, or of the read of an L.
    pub source: usize,
    // The position of the thread's last write on the variable.
    pub written: usize,
    // The positions of the read of its latest load, of the read of its latest use, and of its latest A.
    pub loaded: usize,
    pub used: usize,
    pub assigned: usize,
    pub reads: Ring,
    pub stores: Ring,
    pub fresh: bool,
    pub pending: bool,
    // Whether its latest own event on the variable, R and W left aside, is an L, or an A.
    pub after_load: bool,
    pub after_assign: bool,
}

// Who holds a lock: the thread's number plus 1, or 0 where nobody does, and how many times.
// Kept: the C interface: `struct dabzhoni_hold` of include/dabzhoni.h.
#[repr(C)]
#[derive(Clone, Copy, Default)]
pub struct Hold {
    pub holder: usize,
    pub depth: u32,
}

// Which lock a thread waits on: its number plus 1, or 0 where it does not wait; how many holds it gave up; and whether it is notified.
// Kept: the C interface: `struct dabzhoni_wait` of include/dabzhoni.h.
#[repr(C)]
#[derive(Clone, Copy, Default)]
pub struct Waiting {
    pub lock: usize,
    pub depth: u32,
    pub notified: bool,
}

// The places of outstanding reads, and of outstanding stores: eight for each cell.
pub const SLOTS: usize = 8 * CELLS;

// Kept: the C interface: `struct dabzhoni_state` of include/dabzhoni.h.
#[repr(C)]
#[derive(Clone, Copy)]
pub struct State {
    // The declared threads, variables and locks, and the volatile variables.
    pub counts: Counts,
    // The events so far. A position is an event's number among them, from 1.
    pub events: u32,
    // The cell of thread t and variable v is number 16 * t + v.
    pub cells: [Cell; CELLS],
    // The eight places of cell i begin at 8 * i. The position of a store is that of its assign.
    pub reads: [Slot; SLOTS],
    pub stores: [Slot; SLOTS],
    // The position of each thread's last K or C.
    pub locked: [usize; THREADS],
    pub holds: [Hold; LOCKS],
    pub memory: [Main; VARIABLES],
    // The waiting of each thread.
    pub waits: [Waiting; THREADS],
}

// The state before the first event, for these declared counts.
pub fn initial(counts: Counts) -> State
    ensures { result ≡ start counts }
{
    let slot = Slot {
        value: 0,
        position: 0,
    };
    State {
        counts,
        events: 0,
        cells: [Cell::default(); CELLS],
        reads: [slot; SLOTS],
        stores: [slot; SLOTS],
        locked: [0; THREADS],
        holds: [Hold::default(); LOCKS],
        memory: [Main { value: 0 }; VARIABLES],
        waits: [Waiting::default(); THREADS],
    }
}

// ---- Places in the state's arrays.

// The number of the cell of thread t and variable v; 0 where there is none.
pub fn cell_place(t: usize, v: usize) -> usize
    ensures { (result ≡ cell_place t v) × (result < 128) }
{
    if t < THREADS && v < VARIABLES {
        VARIABLES * t + v
    } else {
        0
    }
}

// The place of the j-th of a queue of cell i, from 0; 0 where there is no such cell.
pub fn slot_place(i: usize, q: Ring, j: u8) -> usize
    ensures { (result ≡ slot_place i q j) × (result < 1024) }
{
    if i < CELLS {
        8 * i + (usize::from(q.first) + usize::from(j)) % 8
    } else {
        0
    }
}

// ---- Refusal 8.

// Whether a lock is in range, of so many threads, after n events.
fn hold_ok(threads: usize, n: u32, a: Hold) -> bool
    ensures { result ≡ hold_ok threads n a }
{
    (a.holder <= threads)
        & (a.depth <= n)
        & ((a.holder != 0) | (a.depth == 0))
        & ((a.holder == 0) | (a.depth != 0))
}

// All locks.
fn holds_ok(s: &State) -> bool
    ensures { result ≡ holds_ok s.now }
{
    s.holds
        .iter()
        .all(|a| hold_ok(s.counts.threads, s.events, *a))
}

// Whether the waiting of a thread is in range, of so many locks, after n events. Nothing is asked of one that does not wait.
fn wait_ok(locks: usize, n: u32, w: Waiting) -> bool
    ensures { result ≡ wait_ok locks n w }
{
    (w.lock == 0) | ((w.lock <= locks) & (0 < w.depth) & (w.depth <= n))
}

// All threads: their waiting, and the positions of their last locks.
fn threads_ok(s: &State) -> bool
    ensures { result ≡ threads_ok s.now }
{
    s.waits.iter().zip(&s.locked).all(|(w, at)| wait_ok(s.counts.locks, s.events, *w)
        & (*at <= s.events as usize))
}

// Whether the positions of a cell are at most n.
fn cell_ok(n: u32, c: Cell) -> bool
    ensures { result ≡ cell_ok n c }
{
    let m = n as usize;
    (c.source <= m) & (c.written <= m) & (c.loaded <= m) & (c.used <= m) & (c.assigned <= m)
}

// All cells.
fn cells_ok(s: &State) -> bool
    ensures { result ≡ cells_ok s.now }
{
    s.cells.iter().all(|c| cell_ok(s.events, *c))
}

// A queue of cell i: of at most eight, with positions up to n.
fn queue_ok(n: u32, slots: &[Slot; SLOTS], i: usize, q: Ring) -> bool
    requires { i < 128 }
    ensures { result ≡ queue_ok n slots.now i q }
{
    q.len <= 8 && (0..q.len).all(|j| slots[slot_place(i, q, j)].position <= n as usize)
}

// The queues of all cells, of their reads and of their stores.
fn queues_ok(s: &State) -> bool
    ensures { result ≡ (queues_ok s.now.events s.now.cells s.now.reads (λ c. c.reads) && queues_ok s.now.events s.now.cells s.now.stores (λ c. c.stores)) }
{
    s.cells.iter().enumerate().all(|(i, c)| {
        queue_ok(s.events, &s.reads, i, c.reads) && queue_ok(s.events, &s.stores, i, c.stores)
    })
}

// Refusal 8; and the lengths that the arrays have.
pub fn in_range(course: Course, s: State) -> bool
    ensures { (result ≡ in_range (limits_of course) s) × Shape s }
{
    rules::is_allowed(course, s.counts)
        & (s.events <= rules::most_events(course))
        & holds_ok(&s)
        & threads_ok(&s)
        & cells_ok(&s)
        & queues_ok(&s)
}
