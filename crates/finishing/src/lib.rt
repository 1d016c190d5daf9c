// The tail that finishes a trace: events after which nothing is outstanding, fresh, owed or held. It is made from the records of an accepted trace
// and the copies that it leaves: thread by thread, its variables and then its locks.
#![tactic(auto)]

ghost use Rattle.std.specs.Prelude.{◌≡◌, [], ◌∷◌, map, ◌≤◌, ◌<◌, replicate, pos};
ghost use Rattle.rules.specs.Events.{N};
ghost use Rattle.rules.specs.Limits.{limits_of};
ghost use Rattle.rules.specs.Memories.{below, each};
ghost use Rattle.records.specs.Records.{letter_in};
ghost use Rattle.finishing.specs.Tail.{Gives};
ghost use Rattle.finishing.specs.Computed.Parts.{
  here,
  facts_after,
  facts_in,
  depth_after,
  depth_in,
  any_new,
  feeds,
  rest_in,
  entry_of,
  assigning,
  closing,
  cells_entries,
  lock_entries,
  whats_of,
  tail_entries,
  filled,
  added,
};
ghost use Rattle.finishing.specs.Computed.Filled.{Adds};

use rules::{CELLS, Cached, Counts, Course, RECORDS, Refusal, VARIABLES, Value};
use std::marker::Model;

// The most events of a tail.
pub const TAIL: usize = 2256;

// How many events a tail has, and the line of the first.
#[derive(Clone, Copy)]
pub struct Tail {
    pub events: usize,
    pub line: usize,
}

// An event as its record and its value.
#[derive(Clone, Copy)]
struct Entry {
    what: u32,
    value: Value,
}

// A thread, and one of its variables or locks.
#[derive(Clone, Copy)]
struct Key {
    thread: usize,
    place: usize,
}

impl Key {
    // Whether a record is of this thread on this variable or lock.
    #[tactic(auto, unfolding(crate::specs::Computed::Parts::here))]
    fn matches(self, what: u32) -> bool
        ensures { result ≡ here self.thread self.place what }
    {
        records::thread_in(what) == self.thread && records::place_in(what) == self.place
    }

    // Whether a record is one that a letter pairs with: an S or P with W, an R with L.
    #[tactic(auto, unfolding(crate::specs::Computed::Parts::feeds))]
    fn feeds(self, letter: u8, what: u32) -> bool
        ensures { result ≡ feeds letter self.thread self.place what }
    {
        self.matches(what)
            && match records::letter_in(what) {
                b'S' | b'P' => letter == b'W',
                b'R' => letter == b'L',
                _ => false,
            }
    }

    // The event with a letter and a value.
    fn entry(self, letter: u8, value: Value) -> Entry
        ensures { result ≡ entry_of letter self.thread self.place value }
    {
        Entry {
            what: records::what_of(letter, self.thread, self.place),
            value,
        }
    }
}

// ---- What the records say of a thread and its variable or lock.

// Whether an assign is pending, and its announced value; whether the copy is fresh; how many loads and writes there are.
// Kept: `pending` and `announced` are two words of the rules: the latest P has its value also where its assign is made.
#[derive(Clone, Copy, Default)]
struct Facts {
    pending: bool,
    announced: Value,
    fresh: bool,
    loads: usize,
    writes: usize,
}

impl Facts {
    // The facts after one record more of the same thread and variable.
    #[tactic(auto, unfolding(crate::specs::Computed::Parts::facts_after))]
    fn after(self, e: Entry) -> Facts
        requires { (self.loads < 65536) × (self.writes < 65536) }
        ensures { result ≡ facts_after e self }
    {
        match records::letter_in(e.what) {
            b'P' => Facts {
                pending: true,
                announced: e.value,
                ..self
            },
            b'B' => Facts {
                pending: false,
                fresh: false,
                ..self
            },
            b'A' => Facts {
                fresh: true,
                ..self
            },
            b'S' => Facts {
                fresh: false,
                ..self
            },
            b'L' => Facts {
                loads: self.loads + 1,
                ..self
            },
            b'W' => Facts {
                writes: self.writes + 1,
                ..self
            },
            _ => self,
        }
    }
}

// How often a thread holds a lock after one record more of both, where K and N alone lock and unlock.
#[tactic(auto, unfolding(crate::specs::Computed::Parts::depth_after))]
fn depth_after(what: u32, depth: u32) -> u32
    requires { depth < 65536 }
    ensures { result ≡ depth_after (letter_in what) depth }
{
    match records::letter_in(what) {
        b'K' => depth + 1,
        b'N' => depth.saturating_sub(1),
        _ => depth,
    }
}

// The records of an accepted trace, with the value of each beside it. A clause sees them as pairs.
// Kept: two rows of plain numbers, which document 01 has the marking go over; a clause sees one list of pairs.
#[derive(Drop)]
struct Rows<'a> {
    what: &'a [u32],
    value: &'a [Value],
}

impl<'a> Model for Rows<'a> {
    ghost use Rattle.std.specs.Prelude.{◌≡◌, ◌≤◌, ℕ, ℤ, List, length};
    ghost use Rattle.std.specs.List.{zip};

    ghost Value = { List (ℕ × ℤ) };

    ghost view = { λ r. zip r.what.now r.value.now };

    ghost invariant = { λ r. (length r.value.now ≡ length r.what.now) × (length r.what.now ≤ 2000) };
}

impl<'a> Rows<'a> {
    // The facts of a thread and variable.
    fn facts_of(&self, key: Key) -> Facts
        ensures { result ≡ facts_in key.thread key.place self.now }
    {
        let mut facts = Facts::default();
        for (&what, &value) in self.what.iter().zip(self.value) {
            if key.matches(what) {
                facts = facts.after(Entry { what, value });
            }
        }
        facts
    }

    // How often a thread holds a lock.
    fn depth_of(&self, key: Key) -> u32
        ensures { result ≡ depth_in key.thread key.place (whats_of self.now) }
    {
        let mut depth = 0;
        for &what in self.what {
            if key.matches(what) {
                depth = depth_after(what, depth);
            }
        }
        depth
    }

    // Whether one of the records is a Y, F or C.
    fn any_new(&self) -> bool
        ensures { result ≡ any_new (whats_of self.now) }
    {
        self.what.iter().any(|what| matches!(records::letter_in(*what), b'Y' | b'F' | b'C'))
    }

    // Puts the writes of the outstanding stores, letter a W, or the loads of the outstanding reads, letter an L: of all but the first `skip`.
    fn put_rest(&self, key: Key, letter: u8, skip: usize, out: &mut Out)
        ensures { Adds (map (entry_of letter key.thread key.place) (rest_in letter key.thread key.place skip self.now)) out.old out.new }
    {
        let fed = self
            .what
            .iter()
            .zip(self.value)
            .filter(|(what, _)| key.feeds(letter, **what));
        for (_, &value) in fed.skip(skip) {
            out.put(key.entry(letter, value));
        }
    }
}

// ---- The tail's records, into two rows.

// Two rows with so many records at their front.
// Kept: two lent rows, as C has them, and how many records are written at the front of both.
#[derive(Drop)]
struct Out<'a> {
    whats: &'a mut [u32],
    values: &'a mut [Value],
    count: usize,
}

impl<'a> Out<'a> {
    // Puts one record more; one that has no place is left out.
    fn put(&mut self, e: Entry)
        ensures { Adds (e ∷ []) self.old self.new }
    {
        let n = self.count;
        if n < self.whats.len() && n < self.values.len() {
            self.whats[n] = e.what;
            self.values[n] = e.value;
            self.count = n + 1;
        }
    }

    // Puts the store and the write of a fresh copy, after an assign where it is not usable.
    fn put_fresh(&mut self, copy: Cached, key: Key)
        ensures { Adds (assigning copy key.thread key.place) self.old self.new }
    {
        if !copy.usable {
            self.put(key.entry(b'A', copy.value));
        }
        self.put(key.entry(b'S', copy.value));
        self.put(key.entry(b'W', copy.value));
    }

    // Puts the pending assign, or what a fresh copy asks for.
    fn put_closing(&mut self, facts: Facts, copy: Cached, key: Key)
        ensures { Adds (closing facts copy key.thread key.place) self.old self.new }
    {
        if facts.pending {
            self.put(key.entry(b'B', facts.announced));
        } else if facts.fresh {
            self.put_fresh(copy, key);
        }
    }

    // Puts the unlocks of so many holds.
    fn put_unlocks(&mut self, key: Key, depth: u32)
        ensures { Adds (replicate depth (entry_of N key.thread key.place (pos 0))) self.old self.new }
    {
        for _ in 0..depth {
            self.put(key.entry(b'N', 0));
        }
    }
}

// An accepted trace: its head, the copies that it leaves, and its records.
#[derive(Drop)]
struct Accepted<'a> {
    head: Counts,
    copies: &'a [Cached; CELLS],
    rows: Rows<'a>,
    ghost allowed: { (head.threads ≤ 8) × (head.variables ≤ 16) },
}

impl<'a> Accepted<'a> {
    // Puts what settles a variable for a thread.
    fn finish_cell(&self, key: Key, out: &mut Out)
        requires { (key.thread < 8) × (key.place < 16) }
        ensures { Adds (cells_entries self.now.copies.now key.thread self.now.rows key.place) out.old out.new }
    {
        let facts = self.rows.facts_of(key);
        let copy = self.copies[VARIABLES * key.thread + key.place];
        self.rows.put_rest(key, b'W', facts.writes, out);
        out.put_closing(facts, copy, key);
        self.rows.put_rest(key, b'L', facts.loads, out);
    }

    // Puts what settles the variables for a thread.
    fn finish_cells(&self, thread: usize, out: &mut Out)
        requires { thread < 8 }
        ensures { Adds (each (cells_entries self.now.copies.now thread self.now.rows) (below self.now.head.variables)) out.old out.new }
    {
        for place in 0..self.head.variables {
            self.finish_cell(Key { thread, place }, out);
        }
    }

    // Puts what gives up the locks of a thread.
    fn finish_locks(&self, thread: usize, out: &mut Out)
        ensures { Adds (each (lock_entries thread (whats_of self.now.rows)) (below self.now.head.locks)) out.old out.new }
    {
        for place in 0..self.head.locks {
            let key = Key { thread, place };
            out.put_unlocks(key, self.rows.depth_of(key));
        }
    }

    // Puts the tail.
    fn finish(&self, out: &mut Out)
        ensures { Adds (tail_entries self.now.head self.now.copies.now self.now.rows) out.old out.new }
    {
        for thread in 0..self.head.threads {
            self.finish_cells(thread, out);
            self.finish_locks(thread, out);
        }
    }

    // Puts the tail to the front of two rows; how many events it has there.
    // Kept: the two rows of `make_tail`.
    fn fill(&self, whats: &mut [u32], values: &mut [Value]) -> usize
        ensures { filled result whats.new values.new ≡ added (tail_entries self.now.head self.now.copies.now self.now.rows) (filled 0 whats.old values.old) }
    {
        let mut out = Out {
            whats,
            values,
            count: 0,
        };
        self.finish(&mut out);
        out.count
    }
}

// ---- The tail of a trace.

// Puts the tail of a trace to the front of two rows that have room for every tail. A refused trace gives its own refusal; 24 where it has a V line, Y, F or C.
// Kept: two rows, so that `finish` copies each to the one that C lends.
pub fn make_tail(
    course: Course,
    bytes: &[u8],
    whats: &mut [u32; TAIL],
    values: &mut [Value; TAIL],
) -> Result<Tail, Refusal>
    ensures { Gives (limits_of course) bytes.now whats.old values.old result whats.new values.new }
{
    let mut what = [0; RECORDS];
    let mut value = [0; RECORDS];
    let marked = marking::mark(course, bytes, &mut what, &mut value)?;
    let n = marked.events;
    let rows = Rows {
        what: &what[..n],
        value: &value[..n],
    };
    if rules::any_volatile(marked.head) || rows.any_new() {
        return Err(Refusal {
            number: 24,
            line: 0,
        });
    }
    let accepted = Accepted {
        head: marked.head,
        copies: &marked.memories.copies,
        rows,
    };
    let events = accepted.fill(whats, values);
    let line = rules::line_after(marked.head, n as u32);
    Ok(Tail { events, line })
}

// Puts the tail of a trace to the front of two lent rows; 24 also where one of them has too few places. All or none.
// Kept: two rows, which C lends (include/dabzhoni.h).
pub fn finish(
    course: Course,
    bytes: &[u8],
    whats: &mut [u32],
    values: &mut [Value],
) -> Result<Tail, Refusal>
    ensures { Gives (limits_of course) bytes.now whats.old values.old result whats.new values.new }
{
    let mut what = [0; TAIL];
    let mut value = [0; TAIL];
    let tail = make_tail(course, bytes, &mut what, &mut value)?;
    let n = tail.events;
    if whats.len() < n || values.len() < n {
        return Err(Refusal {
            number: 24,
            line: 0,
        });
    }
    records::copy_row(whats, &what[..n]);
    records::copy_row(values, &value[..n]);
    Ok(tail)
}
