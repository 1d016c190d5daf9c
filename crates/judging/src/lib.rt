// One event judged from the parts of a state that it looks at, and what it leaves of them. Nothing here sees a whole state. What a turn
// answers is in specs/Computed/Turns.antt, and proofs/Turned.antt proves that it is the row of the rules, the checks that lead it left aside, and
// the state after the event; those checks are in specs/Computed/Leads.antt, proofs/Waits.antt and proofs/Leads.antt.
#![tactic(auto)]

ghost use Rattle.std.specs.Prelude.{◌≡◌, ◌<◌, [], get_or};
ghost use Rattle.rules.specs.Events.{A as Assign, B, C, F, K, L, N, P, R, S, W, Y};
ghost use Rattle.state.specs.State.{no_slot, no_hold, no_wait, depth_of, remembered_of, notified_of};
ghost use Rattle.state.specs.Step.{pushed, popped, next_cell};
ghost use Rattle.judging.specs.Computed.Checks.{
  oldest_of,
  others_hold,
  use_checks,
  assign_checks,
  load_checks,
  store_checks,
  read_checks,
  write_checks,
  lock_checks,
  unlock_checks,
  notify_checks,
  prescient_store_checks,
  prescient_assign_checks,
  table,
  first_of,
};
ghost use Rattle.judging.specs.Computed.Leads.{is_waiting, is_barred, is_untold, ahead_rule, barred_rule, is_access, lead_checks, first_lead, lead_rule, bars_use, bars_write, bars_event};
ghost use Rattle.judging.specs.Computed.Turns.{hold_for, wait_for, after_use, is_used, use_rule, cell_turn, reads_turn, stores_turn, wait_turn, lock_turn, turn_of};

use rules::{LOCKS, Main, Slot, THREADS, Value};
use state::{Cell, Hold, Ring, Waiting};

// What some variable of a thread has: a pending prescient store, a fresh assign, an outstanding store that N and Y count.
#[derive(Clone, Copy)]
pub struct OnSome {
    pub pending: bool,
    pub fresh: bool,
    pub stored: bool,
}

// The answers: the number of the first check of the event's row that is broken, if one is, and what the event leaves.
#[derive(Clone, Copy)]
pub struct CellTurn {
    pub rule: Option<u8>,
    pub cell: Cell,
}

#[derive(Clone, Copy)]
pub struct ReadsTurn {
    pub rule: Option<u8>,
    pub cell: Cell,
    pub slot: Slot,
}

#[derive(Clone, Copy)]
pub struct StoresTurn {
    pub rule: Option<u8>,
    pub cell: Cell,
    pub slot: Slot,
    pub main: Main,
}

#[derive(Clone, Copy)]
pub struct LockTurn {
    pub rule: Option<u8>,
    pub hold: Hold,
    pub locked: usize,
}

#[derive(Clone, Copy)]
pub struct WaitTurn {
    pub rule: Option<u8>,
    pub hold: Hold,
    pub wait: Waiting,
    pub locked: usize,
}

// ---- Queues.

// The oldest of a queue, which is s if it has one.
fn oldest(q: Ring, s: Slot) -> Slot
    ensures { result ≡ oldest_of q s }
{
    if q.len == 0 {
        Slot {
            value: 0,
            position: 0,
        }
    } else {
        s
    }
}

// A queue with one more behind; the same where it is full.
fn push(q: Ring) -> Ring
    ensures { result ≡ pushed q }
{
    if q.len < 8 {
        Ring {
            len: q.len + 1,
            ..q
        }
    } else {
        q
    }
}

// A queue without its oldest.
fn pop(q: Ring) -> Ring
    ensures { result ≡ popped q }
{
    Ring {
        first: (q.first % 8 + 1) % 8,
        len: q.len.saturating_sub(1),
    }
}

// ---- The checks of each row, in the row's order; false fills them.

#[derive(Clone, Copy)]
struct Checks {
    pub first: bool,
    pub second: bool,
    pub third: bool,
    pub fourth: bool,
    pub fifth: bool,
}

const NONE: Checks = Checks {
    first: false,
    second: false,
    third: false,
    fourth: false,
    fifth: false,
};

// U.
fn use_checks(c: Cell, locked: usize, x: Value) -> Checks
    ensures { result ≡ use_checks c locked x }
{
    Checks {
        first: !(locked < c.source),
        second: x != c.copy,
        ..NONE
    }
}

// A.
fn assign_checks(c: Cell) -> Checks
    ensures { result ≡ assign_checks c }
{
    Checks {
        first: !c.pending & (c.reads.len != 0),
        ..NONE
    }
}

// L; s is the oldest outstanding read.
fn load_checks(c: Cell, s: Slot, x: Value) -> Checks
    ensures { result ≡ load_checks c s x }
{
    Checks {
        first: c.reads.len == 0,
        second: c.pending,
        third: c.fresh,
        fourth: (c.stores.len != 0) | (s.position < c.written),
        fifth: x != s.value,
    }
}

// S.
fn store_checks(c: Cell, locked: usize, x: Value) -> Checks
    ensures { result ≡ store_checks c locked x }
{
    Checks {
        first: c.pending,
        second: !c.fresh,
        third: !(locked < c.source),
        fourth: x != c.copy,
        fifth: 8 <= c.stores.len,
    }
}

// R.
fn read_checks(c: Cell, m: Main, x: Value) -> Checks
    ensures { result ≡ read_checks c m x }
{
    Checks {
        first: x != m.value,
        second: 8 <= c.reads.len,
        third: (c.stores.len != 0) | (c.fresh & !c.pending),
        ..NONE
    }
}

// W; s is the oldest outstanding store.
fn write_checks(c: Cell, s: Slot, x: Value) -> Checks
    ensures { result ≡ write_checks c s x }
{
    Checks {
        first: c.stores.len == 0,
        second: x != s.value,
        ..NONE
    }
}

// How many times thread t holds a lock.
fn depth_of(a: Hold, t: usize) -> u32
    ensures { result ≡ depth_of a t }
{
    if t < THREADS && a.holder == t + 1 {
        a.depth
    } else {
        0
    }
}

// Whether one of n threads other than t holds a lock.
fn others_hold(a: Hold, n: usize, t: usize) -> bool
    ensures { result ≡ others_hold a n t }
{
    if t < THREADS {
        (0 < a.holder) & (a.holder <= n) & (a.holder != t + 1) & (0 < a.depth)
    } else {
        false
    }
}

// K and C, of n threads; w is what some variable of the thread has.
fn lock_checks(a: Hold, n: usize, w: OnSome, t: usize) -> Checks
    ensures { result ≡ lock_checks a n w t }
{
    Checks {
        first: others_hold(a, n, t),
        second: w.pending,
        ..NONE
    }
}

// N and Y.
fn unlock_checks(a: Hold, w: OnSome, t: usize) -> Checks
    ensures { result ≡ unlock_checks a w t }
{
    Checks {
        first: depth_of(a, t) == 0,
        second: w.fresh,
        third: w.stored,
        ..NONE
    }
}

// F.
fn notify_checks(a: Hold, t: usize) -> Checks
    ensures { result ≡ notify_checks a t }
{
    Checks {
        first: depth_of(a, t) == 0,
        ..NONE
    }
}

// P.
fn prescient_store_checks(c: Cell) -> Checks
    ensures { result ≡ prescient_store_checks c }
{
    Checks {
        first: c.pending,
        second: 8 <= c.stores.len,
        third: c.reads.len != 0,
        ..NONE
    }
}

// B.
fn prescient_assign_checks(c: Cell, x: Value) -> Checks
    ensures { result ≡ prescient_assign_checks c x }
{
    Checks {
        first: !c.pending,
        second: x != c.announced,
        ..NONE
    }
}

// ---- The rows.

// The numbers that lead each row.
const LEAD: [u8; 5] = [29, 30, 26, 27, 28];

// The rows of U, A, L, S, R, W, K, N, P, B, Y, F, C behind them; 0 fills a row.
const ROWS: [[u8; 5]; 13] = [
    [17, 18, 0, 0, 0],
    [23, 0, 0, 0, 0],
    [10, 13, 15, 16, 18],
    [13, 14, 17, 18, 19],
    [18, 19, 23, 0, 0],
    [10, 18, 0, 0, 0],
    [11, 13, 0, 0, 0],
    [12, 15, 16, 0, 0],
    [13, 19, 23, 0, 0],
    [10, 18, 0, 0, 0],
    [12, 15, 16, 0, 0],
    [12, 0, 0, 0, 0],
    [11, 13, 0, 0, 0],
];

// The row at a place of the table.
fn row_at(i: usize) -> [u8; 5]
    requires { i < 13 }
    ensures { result ≡ get_or table i [] }
{
    ROWS[i]
}

// The number of a row at its first broken check, if one is.
fn first_of(b: Checks, row: [u8; 5]) -> Option<u8>
    ensures { result ≡ first_of b row }
{
    if b.first {
        Some(row[0])
    } else if b.second {
        Some(row[1])
    } else if b.third {
        Some(row[2])
    } else if b.fourth {
        Some(row[3])
    } else if b.fifth {
        Some(row[4])
    } else {
        None
    }
}

// ---- The checks that lead each row: of waiting threads.

// Whether a thread waits on one of n locks.
fn is_waiting(w: Waiting, n: usize) -> bool
    ensures { result ≡ is_waiting w n }
{
    (0 < w.lock) & (w.lock <= n) & (0 < w.depth)
}

// 29: whether letter k is barred to a thread that waits as w says, of n locks.
fn is_barred(w: Waiting, n: usize, k: u8) -> bool
    ensures { result ≡ is_barred w n k }
{
    if w.lock == 0 {
        return false;
    }
    !((k == b'C') | (k == b'R') | (k == b'W')) & is_waiting(w, n)
}

// How many holds a thread remembers of lock l.
fn remembered_of(w: Waiting, l: usize) -> u32
    ensures { result ≡ remembered_of w l }
{
    if l < w.lock && w.lock == l + 1 {
        w.depth
    } else {
        0
    }
}

// Whether it is notified on lock l.
fn notified_of(w: Waiting, l: usize) -> bool
    ensures { result ≡ notified_of w l }
{
    if l < w.lock {
        (w.lock == l + 1) & w.notified
    } else {
        false
    }
}

// 30: letter k on lock l, whose subject waits as w says.
fn is_untold(w: Waiting, l: usize, k: u8) -> bool
    ensures { result ≡ is_untold w l k }
{
    let n = remembered_of(w, l);
    let told = notified_of(w, l);
    ((k == b'F') & (!(0 < n) | told)) | ((k == b'C') & !((0 < n) & told))
}

// What letter k on lock l breaks of 29 and 30. `own` is the waiting of its thread, w that of its subject, of n locks.
pub fn ahead_rule(own: Waiting, w: Waiting, n: usize, l: usize, k: u8) -> Option<u8>
    ensures { result ≡ ahead_rule own w n l k }
{
    if is_barred(own, n, k) {
        Some(LEAD[0])
    } else if is_untold(w, l, k) {
        Some(LEAD[1])
    } else {
        None
    }
}

// What a letter other than F and C, which alone break 30, breaks of them.
pub fn barred_rule(w: Waiting, n: usize, k: u8) -> Option<u8>
    ensures { result ≡ barred_rule w n k }
{
    if is_barred(w, n, k) {
        Some(LEAD[0])
    } else {
        None
    }
}

// ---- The checks that lead each row: of an event on a volatile variable.

// Which of 26, 27 and 28 are broken.
#[derive(Clone, Copy)]
struct Lead {
    pub neighbour: bool,
    pub order: bool,
    pub prescient: bool,
}

// Whether a letter is that of a thread's own event on a variable, R and W left aside.
fn is_access(k: u8) -> bool
    ensures { result ≡ is_access k }
{
    (k == b'U') | (k == b'A') | (k == b'L') | (k == b'S') | (k == b'P') | (k == b'B')
}

// Letter k on a volatile variable; `order` is what 27 asks of all variables.
fn lead_checks(c: Cell, order: bool, k: u8) -> Lead
    ensures { result ≡ lead_checks c order k }
{
    let load = (k == b'U') != c.after_load;
    let assign = (k == b'S') != c.after_assign;
    Lead {
        neighbour: is_access(k) & (load | assign),
        order,
        prescient: (k == b'P') | (k == b'B'),
    }
}

// The number of the first broken check of these, if one is.
fn first_lead(b: Lead) -> Option<u8>
    ensures { result ≡ first_lead b }
{
    if b.neighbour {
        Some(LEAD[2])
    } else if b.order {
        Some(LEAD[3])
    } else if b.prescient {
        Some(LEAD[4])
    } else {
        None
    }
}

// What letter k breaks of the checks that lead its row, on a volatile variable.
pub fn lead_rule(c: Cell, order: bool, k: u8) -> Option<u8>
    ensures { result ≡ lead_rule c order k }
{
    first_lead(lead_checks(c, order, k))
}

// Whether a volatile variable bars a use whose read is at `read`: it has an assign that is not written, or its write or the read of its use is
// not before that.
fn bars_use(c: Cell, read: usize) -> bool
    ensures { result ≡ bars_use c read }
{
    c.fresh | (c.stores.len != 0) | !(c.written < read) | !(c.used < read)
}

// Whether it bars a write whose assign is at a: it has an assign before a that is not written. `front` is the slot at the first place of its stores.
fn bars_write(c: Cell, front: Slot, a: usize) -> bool
    ensures { result ≡ bars_write c front a }
{
    ((c.stores.len != 0) & (front.position < a)) | (c.fresh & (c.assigned < a))
}

// Whether the volatile variable of cell `other` bars letter k on that of cell c. Each has its slot at the first place of its stores.
pub fn bars_event(c: Cell, front: Slot, other: Cell, first: Slot, k: u8) -> bool
    ensures { result ≡ bars_event c front other first k }
{
    let used = bars_use(other, c.loaded);
    let written = bars_write(other, first, front.position);
    ((k == b'U') & used) | ((k == b'W') & ((c.stores.len != 0) & written))
}

// ---- What an event leaves. `p` is its position.
// Kept: a copy of the cell that is changed, and early returns for a lock and a waiting: struct updates and `if` with `else` miss the bar of
// instructions an event (docs/PERFORMANCE.md), 380 in place of 375.

// Whether U leaves a cell as it is.
pub fn is_used(c: Cell) -> bool
    ensures { result ≡ is_used c }
{
    !c.after_load & !c.after_assign & (c.used == c.loaded)
}

// U, wherever it stands and whatever its value.
pub fn used(c: Cell) -> Cell
    ensures { result ≡ after_use c }
{
    let mut d = c;
    d.used = c.loaded;
    d.after_load = false;
    d.after_assign = false;
    d
}

// A.
fn assigned(c: Cell, x: Value, p: usize) -> Cell
    ensures { result ≡ next_cell p no_slot Assign x c }
{
    let mut d = c;
    d.copy = x;
    d.fresh = true;
    d.source = p;
    d.assigned = p;
    d.after_load = false;
    d.after_assign = true;
    d
}

// B.
fn prescient_assigned(c: Cell, x: Value, p: usize) -> Cell
    ensures { result ≡ next_cell p no_slot B x c }
{
    let mut d = c;
    d.copy = x;
    d.fresh = false; // its store has gone out already
    d.pending = false;
    d.source = p;
    d.after_load = false;
    d.after_assign = false;
    d
}

// L; s is the oldest outstanding read.
fn loaded(c: Cell, s: Slot, x: Value, p: usize) -> Cell
    ensures { result ≡ next_cell p s L x c }
{
    let mut d = c;
    d.copy = x;
    d.reads = pop(c.reads);
    d.source = c.source.max(s.position);
    d.loaded = s.position;
    d.after_load = true;
    d.after_assign = false;
    d
}

// R.
fn has_read(c: Cell, s: Slot, x: Value, p: usize) -> Cell
    ensures { result ≡ next_cell p s R x c }
{
    let mut d = c;
    d.reads = push(c.reads);
    d
}

// S.
fn stored(c: Cell, x: Value, p: usize) -> Cell
    ensures { result ≡ next_cell p no_slot S x c }
{
    let mut d = c;
    d.fresh = false;
    d.stores = push(c.stores);
    d.after_load = false;
    d.after_assign = false;
    d
}

// P.
fn prescient_stored(c: Cell, x: Value, p: usize) -> Cell
    ensures { result ≡ next_cell p no_slot P x c }
{
    let mut d = c;
    d.pending = true;
    d.announced = x;
    d.stores = push(c.stores);
    d.after_load = false;
    d.after_assign = false;
    d
}

// W.
fn has_written(c: Cell, x: Value, p: usize) -> Cell
    ensures { result ≡ next_cell p no_slot W x c }
{
    let mut d = c;
    d.stores = pop(c.stores);
    d.written = p;
    d
}

// K: one hold more.
fn taken(a: Hold, t: usize) -> Hold
    ensures { result ≡ hold_for a no_wait t K }
{
    if t < THREADS && a.depth < 2000 {
        return Hold {
            holder: t + 1,
            depth: depth_of(a, t) + 1,
        };
    }
    a
}

// N: one hold less.
fn left(a: Hold, t: usize) -> Hold
    ensures { result ≡ hold_for a no_wait t N }
{
    let n = depth_of(a, t);
    if t < THREADS && a.depth < 2000 {
        if n <= 1 {
            return Hold {
                holder: 0,
                depth: 0,
            };
        }
        return Hold {
            holder: a.holder,
            depth: n - 1,
        };
    }
    a
}

// Y: no hold is left.
fn given_up(a: Hold, t: usize) -> Hold
    ensures { result ≡ hold_for a no_wait t Y }
{
    if t < THREADS && a.depth < 2000 {
        return Hold {
            holder: 0,
            depth: 0,
        };
    }
    a
}

// C: the holds that w remembers.
fn taken_again(a: Hold, w: Waiting, t: usize) -> Hold
    ensures { result ≡ hold_for a w t C }
{
    if t < THREADS && a.depth < 2000 {
        return Hold {
            holder: t + 1,
            depth: w.depth,
        };
    }
    a
}

// Y on lock l: remembers the holds.
fn waiting(w: Waiting, a: Hold, l: usize, t: usize) -> Waiting
    ensures { result ≡ wait_for w a l t Y }
{
    if l < LOCKS {
        return Waiting {
            lock: l + 1,
            depth: depth_of(a, t),
            notified: false,
        };
    }
    w
}

// F on lock l.
fn notified(w: Waiting, l: usize) -> Waiting
    ensures { result ≡ wait_for w no_hold l 0 F }
{
    if l < LOCKS {
        return Waiting {
            lock: w.lock,
            depth: w.depth,
            notified: true,
        };
    }
    w
}

// C on lock l: waits no longer.
fn back(w: Waiting, l: usize) -> Waiting
    ensures { result ≡ wait_for w no_hold l 0 C }
{
    if l < LOCKS {
        return Waiting {
            lock: 0,
            depth: 0,
            notified: false,
        };
    }
    w
}

// ---- The turns. A letter that is none of a turn's breaks nothing there and leaves everything.

// U: what it breaks.
pub fn use_rule(c: Cell, locked: usize, x: Value) -> Option<u8>
    ensures { result ≡ use_rule c locked x }
{
    first_of(use_checks(c, locked, x), row_at(0))
}

// U, A, B: the cell alone.
// Kept: here and in the turns below the numbers of an event are apart, as in the definitions `cell_turn` to `wait_turn`.
pub fn cell_turn(c: Cell, locked: usize, k: u8, x: Value, p: usize) -> CellTurn
    ensures { result ≡ cell_turn c locked k x p }
{
    match k {
        b'U' => CellTurn {
            rule: use_rule(c, locked, x),
            cell: used(c),
        },
        b'A' => CellTurn {
            rule: first_of(assign_checks(c), row_at(1)),
            cell: assigned(c, x, p),
        },
        b'B' => CellTurn {
            rule: first_of(prescient_assign_checks(c, x), row_at(9)),
            cell: prescient_assigned(c, x, p),
        },
        _ => CellTurn {
            rule: None,
            cell: c,
        },
    }
}

// R, L: the reads of the cell. `front` is the slot at the queue's first place, `behind` the one behind its last.
// Kept: `front` and `behind` apart: `machine::run` has them from two places, and an `Ends` made for the call is taken apart again.
pub fn reads_turn(
    c: Cell,
    front: Slot,
    behind: Slot,
    main: Main,
    k: u8,
    x: Value,
    p: usize,
) -> ReadsTurn
    ensures { result ≡ reads_turn c front behind main k x p }
{
    let s = oldest(c.reads, front);
    match k {
        b'L' => ReadsTurn {
            rule: first_of(load_checks(c, s, x), row_at(2)),
            cell: loaded(c, s, x, p),
            slot: behind,
        },
        b'R' => ReadsTurn {
            rule: first_of(read_checks(c, main, x), row_at(4)),
            cell: has_read(c, s, x, p),
            slot: Slot {
                value: x,
                position: p,
            },
        },
        _ => ReadsTurn {
            rule: None,
            cell: c,
            slot: behind,
        },
    }
}

// S, P, W: the stores of the cell, and its variable in main memory. S has the position of its assign.
// Kept: one record that the arms change; with a record of its own in each arm it stays a call, 7 % more instructions (docs/PERFORMANCE.md).
pub fn stores_turn(
    c: Cell,
    front: Slot,
    behind: Slot,
    main: Main,
    locked: usize,
    k: u8,
    x: Value,
    p: usize,
) -> StoresTurn
    ensures { result ≡ stores_turn c front behind main locked k x p }
{
    let mut turn = StoresTurn {
        rule: None,
        cell: c,
        slot: behind,
        main,
    };
    match k {
        b'W' => {
            turn.rule = first_of(write_checks(c, oldest(c.stores, front), x), row_at(5));
            turn.cell = has_written(c, x, p);
            turn.main = Main { value: x };
        }
        b'S' => {
            turn.rule = first_of(store_checks(c, locked, x), row_at(3));
            turn.cell = stored(c, x, p);
            turn.slot = Slot {
                value: x,
                position: c.assigned,
            };
        }
        b'P' => {
            turn.rule = first_of(prescient_store_checks(c), row_at(8));
            turn.cell = prescient_stored(c, x, p);
            turn.slot = Slot {
                value: x,
                position: p,
            };
        }
        _ => {}
    }
    turn
}

// K, N: a lock, and the position of the thread's last lock. `any` is what the variables of the thread have. Each arm gives a record of its own: one that the arms
// change is slower here (docs/PERFORMANCE.md).
pub fn lock_turn(
    a: Hold,
    locked: usize,
    threads: usize,
    any: OnSome,
    t: usize,
    k: u8,
    p: usize,
) -> LockTurn
    ensures { result ≡ lock_turn a locked threads any t k p }
{
    match k {
        b'K' => LockTurn {
            rule: first_of(lock_checks(a, threads, any, t), row_at(6)),
            hold: taken(a, t),
            locked: p,
        },
        b'N' => LockTurn {
            rule: first_of(unlock_checks(a, any, t), row_at(7)),
            hold: left(a, t),
            locked,
        },
        _ => LockTurn {
            rule: None,
            hold: a,
            locked,
        },
    }
}

// Y, F, C on lock l: these, and the waiting of the event's subject.
// Kept: one record that the arms change, as in `stores_turn`: with a record of its own in each arm it stays a call.
pub fn wait_turn(
    a: Hold,
    w: Waiting,
    locked: usize,
    threads: usize,
    any: OnSome,
    t: usize,
    l: usize,
    k: u8,
    p: usize,
) -> WaitTurn
    ensures { result ≡ wait_turn a w locked threads any t l k p }
{
    let mut turn = WaitTurn {
        rule: None,
        hold: a,
        wait: w,
        locked,
    };
    match k {
        b'C' => {
            turn.rule = first_of(lock_checks(a, threads, any, t), row_at(12));
            turn.hold = taken_again(a, w, t);
            turn.wait = back(w, l);
            turn.locked = p;
        }
        b'Y' => {
            turn.rule = first_of(unlock_checks(a, any, t), row_at(10));
            turn.hold = given_up(a, t);
            turn.wait = waiting(w, a, l, t);
        }
        b'F' => {
            turn.rule = first_of(notify_checks(a, t), row_at(11));
            turn.wait = notified(w, l);
        }
        _ => {}
    }
    turn
}

// ---- An event of any letter.

// The slots at the first place of a queue and behind its last.
#[derive(Clone, Copy)]
pub struct Ends {
    pub front: Slot,
    pub behind: Slot,
}

// The parts of a state that an event may look at.
#[derive(Clone, Copy)]
pub struct Parts {
    pub cell: Cell,
    pub reads: Ends,
    pub stores: Ends,
    pub main: Main,
    pub hold: Hold,
    pub wait: Waiting,
    pub locked: usize,
}

// The number of the first check of the event's row that is broken, if one is, and what the event leaves of each part.
#[derive(Clone, Copy)]
pub struct Turn {
    pub rule: Option<u8>,
    pub cell: Cell,
    pub read: Slot,
    pub store: Slot,
    pub main: Main,
    pub hold: Hold,
    pub wait: Waiting,
    pub locked: usize,
}

// All turns: one of them is the letter's. `n` threads are declared, and `any` is what the variables of thread t have.
// Kept: no switch on the letter: each turn leaves what is not its own, which `turn_of` says; the numbers of an event are apart as in the definitions.
pub fn any_turn(
    a: Parts,
    n: usize,
    any: OnSome,
    t: usize,
    l: usize,
    k: u8,
    x: Value,
    p: usize,
) -> Turn
    ensures { result ≡ turn_of a n any t l k x p }
{
    let lock = lock_turn(a.hold, a.locked, n, any, t, k, p);
    let waits = wait_turn(lock.hold, a.wait, lock.locked, n, any, t, l, k, p);
    let alone = cell_turn(a.cell, a.locked, k, x, p);
    let read = reads_turn(alone.cell, a.reads.front, a.reads.behind, a.main, k, x, p);
    let store = stores_turn(
        read.cell,
        a.stores.front,
        a.stores.behind,
        a.main,
        a.locked,
        k,
        x,
        p,
    );
    let rule = lock
        .rule
        .or(waits.rule)
        .or(alone.rule)
        .or(read.rule)
        .or(store.rule);
    Turn {
        rule,
        cell: store.cell,
        read: read.slot,
        store: store.slot,
        main: store.main,
        hold: waits.hold,
        wait: waits.wait,
        locked: waits.locked,
    }
}
