// The marking of events one after the other: a row of records by index, with the state and what lock events ask for in locals; and one step over a
// state that the caller keeps, by value.
#![tactic(auto)]

ghost use Rattle.std.specs.Prelude.{◌≡◌, ◌≤◌, ◌<◌, [], length};
ghost use Rattle.rules.specs.Limits.{full, limits_of, line_after};
ghost use Rattle.rules.specs.Rules.{judge, said};
ghost use Rattle.rules.specs.Memories.{memories_of};
ghost use Rattle.state.specs.State.{words_in};
ghost use Rattle.state.specs.Step.{step_state};
ghost use Rattle.judging.specs.Computed.Leads.{bars_at, order_at, lead_with};
ghost use Rattle.judging.specs.Computed.Turns.{parts_at, awaits_write};
ghost use Rattle.records.specs.Records.{row_lines};
ghost use Rattle.machine.specs.Stepped.{step_with, stepped};
ghost use Rattle.machine.specs.Rows.{MarksRow};
ghost use Rattle.machine.specs.Computed.Walk.{walk, state_of, outcome_of, answer_of, marked, Turnable};
ghost use Rattle.machine.specs.Computed.Tallies.{moved, tally_after, tally_of, Small, some_in, Ready};

use judging::{Ends, OnSome, Parts};
use rules::{
    CELLS, Cached, Counts, Course, Event, Memories, Refusal, Slot, THREADS, VARIABLES, Value,
    Verdict,
};
use state::{Cell, SLOTS, State};

// What is said of an event, and the state that is left.
// Kept: the state stands beside a refusal too: a refused step hands it back (`stepped`).
#[derive(Clone, Copy)]
pub struct Answer {
    pub verdict: Verdict,
    pub state: State,
}

// How many of a thread's declared variables have a pending prescient store, a fresh assign, an outstanding store that N and Y count.
#[derive(Clone, Copy, Default)]
pub struct Tally {
    pub pending: u32,
    pub fresh: u32,
    pub stored: u32,
}

// ---- What lock events ask for.

// Whether a store that N and Y count is outstanding: with an assign owed the latest is left aside.
fn awaits_write(c: &Cell) -> bool
    ensures { result ≡ awaits_write c.now }
{
    u8::from(c.pending) < c.stores.len
}

// n things have it, of which one had it or not and has it or not now.
fn moved(n: u32, was: bool, is: bool) -> u32
    requires { n ≤ 16 }
    ensures { result ≡ moved n was is }
{
    (n + u32::from(is)).saturating_sub(u32::from(was))
}

// A tally after a cell of its thread, c, became d.
fn tally_after(a: Tally, c: &Cell, d: &Cell) -> Tally
    requires { Small a }
    ensures { result ≡ tally_after a c.now d.now }
{
    Tally {
        pending: moved(a.pending, c.pending, d.pending),
        fresh: moved(a.fresh, c.fresh, d.fresh),
        stored: moved(a.stored, awaits_write(c), awaits_write(d)),
    }
}

// What some variable has.
fn some_in(a: Tally) -> OnSome
    ensures { result ≡ some_in a }
{
    OnSome {
        pending: 0 < a.pending,
        fresh: 0 < a.fresh,
        stored: 0 < a.stored,
    }
}

// The tally of thread t.
fn tally_of(s: &State, t: usize) -> Tally
    requires thread { t < 8 }
    requires variables { s.now.counts.variables ≤ 16 }
    ensures { result ≡ tally_of s.now t }
{
    let mut tally = Tally::default();
    for v in 0..s.counts.variables {
        let c = &s.cells[state::cell_place(t, v)];
        tally.pending += u32::from(c.pending);
        tally.fresh += u32::from(c.fresh);
        tally.stored += u32::from(awaits_write(c));
    }
    tally
}

// ---- What volatile variables ask for.

// Whether volatile variable u bars letter k of thread t on volatile variable v.
fn bars_at(
    cells: &[Cell; CELLS],
    stores: &[Slot; SLOTS],
    t: usize,
    v: usize,
    k: u8,
    u: usize,
) -> bool
    ensures { result ≡ bars_at cells.now stores.now t v k u }
{
    let at = state::cell_place(t, v);
    let c = cells[at];
    let front = stores[state::slot_place(at, c.stores, 0)];
    let i = state::cell_place(t, u);
    let other = cells[i];
    let first = stores[state::slot_place(i, other.stores, 0)];
    judging::bars_event(c, front, other, first, k)
}

// 27: whether a volatile variable bars letter k of thread t on volatile variable v.
// Kept: parts of a state behind references, as `order_at` and `lead_with` have them; all of a state would say less of what is read.
fn volatile_order(
    h: &Counts,
    cells: &[Cell; CELLS],
    stores: &[Slot; SLOTS],
    t: usize,
    v: usize,
    k: u8,
) -> bool
    ensures { result ≡ order_at h.now cells.now stores.now t v k }
{
    (0..h.variables).any(|u| rules::is_volatile(*h, u) & bars_at(cells, stores, t, v, k, u))
}

// What letter k of thread t on variable v breaks of the checks that lead its row; c is the cell of both.
fn lead_of(
    h: &Counts,
    c: &Cell,
    cells: &[Cell; CELLS],
    stores: &[Slot; SLOTS],
    t: usize,
    v: usize,
    k: u8,
) -> Option<u8>
    ensures { result ≡ lead_with h.now c.now cells.now stores.now t v k }
{
    if !rules::is_volatile(*h, v) {
        return None;
    }
    if (k == b'U') | (k == b'W') {
        let order = volatile_order(h, cells, stores, t, v, k);
        return judging::lead_rule(*c, order, k);
    }
    judging::lead_rule(*c, false, k)
}

// ---- A row of events.

// The refusal with this number of the event after n events.
// Kept: the number of a refusal, as `Refusal` has it.
fn refusal_after(number: u8, h: &Counts, n: u32) -> Refusal
    ensures { result ≡ record { number = number; line = line_after h.now n } }
{
    Refusal {
        number,
        line: rules::line_after(*h, n),
    }
}

// Refuses the event after n events by the rule with this number, if one is broken.
fn refuse_if(rule: Option<u8>, h: &Counts, n: u32) -> Verdict
    ensures { result ≡ said (marked rule (line_after h.now n)) }
{
    if let Some(number) = rule {
        return Err(refusal_after(number, h, n));
    }
    Ok(())
}

// The copies in the cells of a state, where these are the positions of the threads' last locks.
fn copies_of(cells: &[Cell; CELLS], locked: &[usize; THREADS]) -> [Cached; CELLS]
    ensures { result ≡ (memories_of (words_in (state_of cells.now locked.now []))).copies }
{
    std::array::from_fn(|i| Cached {
        value: cells[i].copy,
        usable: locked[i / VARIABLES] < cells[i].source,
    })
}

// The records of two rows, one after the other, from a state in range: line by line 4, 9, 5 and the row of its letter.
// Kept: two rows of plain numbers gone through by index, as document 01 has it; the values are as many (`as_many`).
fn run(
    mut s: State,
    mut tallies: [Tally; THREADS],
    what: &[u32],
    value: &[Value],
) -> Result<Memories, Refusal>
    requires ready { Ready s tallies }
    requires as_many { length value.now ≡ length what.now }
    ensures { result ≡ outcome_of (walk full s (row_lines s.counts what.now value.now)) }
{
    // The declared counts, copied once: read from the state they would be copied at each event.
    let declared = s.counts;
    for i in 0..what.len() {
        let w = what[i];
        let x = value[i];
        let k = records::letter_in(w);
        let t = records::thread_in(w);
        let v = records::place_in(w);
        let n = s.events;
        if !rules::is_letter(k) {
            return Err(refusal_after(4, &declared, n));
        }
        if 2000 <= n {
            return Err(refusal_after(9, &declared, n));
        }
        if s.counts.threads <= t {
            return Err(refusal_after(5, &declared, n));
        }
        s.events = n + 1;
        let p = n as usize + 1;
        let own = s.waits[t];
        let last = s.locked[t];
        if rules::is_lock_letter(k) {
            if s.counts.locks <= v {
                return Err(refusal_after(5, &declared, n));
            }
            let any = some_in(tallies[t]);
            if (k == b'K') | (k == b'N') {
                // K, N: a lock, and what the variables of the thread have.
                refuse_if(judging::barred_rule(own, s.counts.locks, k), &declared, n)?;
                let turn = judging::lock_turn(s.holds[v], last, s.counts.threads, any, t, k, p);
                refuse_if(turn.rule, &declared, n)?;
                s.locked[t] = turn.locked;
                s.holds[v] = turn.hold;
            } else {
                // Y, F, C: these, and who waits.
                let subject = rules::subject_of(k, t, x);
                if s.counts.threads <= subject {
                    return Err(refusal_after(5, &declared, n));
                }
                let wait = s.waits[subject];
                let ahead = judging::ahead_rule(own, wait, s.counts.locks, v, k);
                refuse_if(ahead, &declared, n)?;
                let turn = judging::wait_turn(
                    s.holds[v],
                    wait,
                    last,
                    s.counts.threads,
                    any,
                    t,
                    v,
                    k,
                    p,
                );
                refuse_if(turn.rule, &declared, n)?;
                s.locked[t] = turn.locked;
                s.holds[v] = turn.hold;
                s.waits[subject] = turn.wait;
            }
        } else {
            if s.counts.variables <= v {
                return Err(refusal_after(5, &declared, n));
            }
            refuse_if(judging::barred_rule(own, s.counts.locks, k), &declared, n)?;
            let at = state::cell_place(t, v);
            let c = s.cells[at];
            if declared.volatiles[v] {
                // What leads the row of an event on a volatile variable.
                let lead = lead_of(&declared, &c, &s.cells, &s.stores, t, v, k);
                refuse_if(lead, &declared, n)?;
            }
            if k == b'U' {
                // The cell alone, and nothing that is tallied; one that leaves the cell as it is writes nothing.
                refuse_if(judging::use_rule(c, last, x), &declared, n)?;
                if !judging::is_used(c) {
                    s.cells[at] = judging::used(c);
                }
            } else if (k == b'R') | (k == b'L') {
                // The reads of the cell.
                let front = s.reads[state::slot_place(at, c.reads, 0)];
                let end = state::slot_place(at, c.reads, c.reads.len);
                let turn = judging::reads_turn(c, front, s.reads[end], s.memory[v], k, x, p);
                refuse_if(turn.rule, &declared, n)?;
                s.cells[at] = turn.cell;
                s.reads[end] = turn.slot;
            } else if (k == b'S') | ((k == b'P') | (k == b'W')) {
                // The stores of the cell, and the variable in main memory.
                let front = s.stores[state::slot_place(at, c.stores, 0)];
                let end = state::slot_place(at, c.stores, c.stores.len);
                let turn = judging::stores_turn(
                    c,
                    front,
                    s.stores[end],
                    s.memory[v],
                    last,
                    k,
                    x,
                    p,
                );
                refuse_if(turn.rule, &declared, n)?;
                tallies[t] = tally_after(tallies[t], &c, &turn.cell);
                s.cells[at] = turn.cell;
                s.stores[end] = turn.slot;
                s.memory[v] = turn.main;
            } else {
                // The cell alone.
                let turn = judging::cell_turn(c, last, k, x, p);
                refuse_if(turn.rule, &declared, n)?;
                tallies[t] = tally_after(tallies[t], &c, &turn.cell);
                s.cells[at] = turn.cell;
            }
        }
    }
    Ok(Memories {
        main: s.memory,
        copies: copies_of(&s.cells, &s.locked),
    })
}

// Marks two rows of records, with these counts declared.
// Kept: two rows of plain numbers, as document 01 has it; rows of different lengths are refused (`MarksRow`).
pub fn mark_row(h: Counts, what: &[u32], value: &[Value]) -> Result<Memories, Refusal>
    ensures { MarksRow h what.now value.now result }
{
    if value.len() != what.len() {
        return Err(Refusal { number: 7, line: 0 });
    }
    if !rules::is_allowed(Course::Full, h) {
        return Err(Refusal { number: 3, line: 1 });
    }
    run(state::initial(h), [Tally::default(); THREADS], what, value)
}

// ---- One step.

// The parts of a state that an event of thread t on variable v or lock l, with subject u, looks at.
fn parts_of(s: &State, t: usize, v: usize, l: usize, u: usize) -> Parts
    requires thread { t < 8 }
    requires variable { v < 16 }
    requires lock { l < 8 }
    requires subject { u < 8 }
    ensures { result ≡ parts_at s.now t v l u }
{
    let at = state::cell_place(t, v);
    let cell = s.cells[at];
    Parts {
        cell,
        reads: Ends {
            front: s.reads[state::slot_place(at, cell.reads, 0)],
            behind: s.reads[state::slot_place(at, cell.reads, cell.reads.len)],
        },
        stores: Ends {
            front: s.stores[state::slot_place(at, cell.stores, 0)],
            behind: s.stores[state::slot_place(at, cell.stores, cell.stores.len)],
        },
        main: s.memory[v],
        hold: s.holds[l],
        wait: s.waits[u],
        locked: s.locked[t],
    }
}

// The state after an event, or the refusal by the first rule of its row that it breaks.
fn take_turn(s: &State, e: Event) -> Result<State, Refusal>
    requires { Turnable s.now e }
    ensures { answer_of s.now result ≡ step_with s.now e (judge s.now.counts (words_in s.now) e) }
{
    let k = rules::letter_of(e.kind);
    let place = rules::place_of(e.kind);
    let on_lock = rules::is_lock_letter(k);
    let v = if on_lock { 0 } else { place };
    let l = if on_lock { place } else { 0 };
    let t = e.thread;
    let x = rules::value_of(e.kind);
    let u = rules::subject_of(k, t, x);
    let parts = parts_of(s, t, v, l, u);
    let cell = parts.cell;
    let any = some_in(tally_of(s, t));
    let p = s.events as usize + 1;
    let turn = judging::any_turn(parts, s.counts.threads, any, t, l, k, x, p);
    let ahead = judging::ahead_rule(s.waits[t], parts.wait, s.counts.locks, l, k);
    let lead = lead_of(&s.counts, &cell, &s.cells, &s.stores, t, v, k);
    refuse_if(ahead.or(lead.or(turn.rule)), &s.counts, s.events)?;
    let at = state::cell_place(t, v);
    let mut next = *s;
    next.events += 1;
    next.cells[at] = turn.cell;
    next.reads[state::slot_place(at, cell.reads, cell.reads.len)] = turn.read;
    next.stores[state::slot_place(at, cell.stores, cell.stores.len)] = turn.store;
    next.locked[t] = turn.locked;
    next.holds[l] = turn.hold;
    next.memory[v] = turn.main;
    next.waits[u] = turn.wait;
    Ok(next)
}

// The state after one event: 8, then 9 or in the short course 25, 5, then its row.
fn next_state(course: Course, s: &State, e: Event) -> Result<State, Refusal>
    ensures { answer_of s.now result ≡ stepped (limits_of course) s.now e }
{
    if !state::in_range(course, *s) {
        return Err(Refusal { number: 8, line: 0 });
    }
    if rules::most_events(course) <= s.events {
        let excess = rules::excess_of(course);
        return Err(refusal_after(excess, &s.counts, s.events));
    }
    if !rules::is_declared(s.counts, e) {
        return Err(refusal_after(5, &s.counts, s.events));
    }
    take_turn(s, e)
}

// One event. A refused step hands the state back as it was.
pub fn step(course: Course, s: State, e: Event) -> Answer
    ensures { result ≡ stepped (limits_of course) s e }
{
    match next_state(course, &s, e) {
        Ok(state) => Answer {
            verdict: Ok(()),
            state,
        },
        Err(refusal) => Answer {
            verdict: Err(refusal),
            state: s,
        },
    }
}
