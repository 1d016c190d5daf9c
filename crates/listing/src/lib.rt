// The lines that are printed for a trace and for a sheet. Each goes to the front of what remains of an output, and its writer answers its length.
// Where less room remains than a line may need, nothing of it is written.
#![tactic(auto)]

ghost use Rattle.std.specs.Prelude.{◌∷◌, ◌≤◌, ◌<◌, length};
ghost use Rattle.rules.specs.Memories.{below, each};
ghost use Rattle.decimal.specs.Text.{natural_text, word_row, word_value, ended, room, Wrote};
ghost use Rattle.sections.specs.Entries.{entry_in};
ghost use Rattle.listing.specs.Listing.{
  accepted_line,
  main_line,
  section_line,
  refused_line,
  unordered_line,
  papers_line,
  share_front,
  share_line,
  line_room,
  write_all,
  main_lines,
  copy_lines,
  entry_lines,
  main_at,
  usable_copy,
  copy_at,
  copies_at,
  lines_for,
};

use rules::{CELLS, Cached, Counts, Course, Main, Memories, VARIABLES, Value};

// Where so many bytes remain, a line is written.
const LINE_ROOM: usize = 128;

// ---- A line.

// A line of a word and at most three numbers.
// Kept: two functions, since one with an `Option<Value>` is no plainer: two more definitions in its clauses, and a `None` at each of five calls.
fn row_line(out: &mut [u8], word: &[u8], ns: &[usize]) -> usize
    requires { (length word.now ≤ 16) × (length ns.now ≤ 3) }
    ensures { Wrote (room line_room (ended (word_row word.now ns.now))) out.old result out.new }
{
    if out.len() < LINE_ROOM {
        return 0;
    }
    decimal::write_row_line(out, word, ns)
}

// A line of a word, at most two numbers and a value.
fn value_line(out: &mut [u8], word: &[u8], ns: &[usize], x: Value) -> usize
    requires { (length word.now ≤ 16) × (length ns.now ≤ 2) }
    ensures { Wrote (room line_room (ended (word_value word.now ns.now x))) out.old result out.new }
{
    if out.len() < LINE_ROOM {
        return 0;
    }
    decimal::write_value_line(out, word, ns, x)
}

// The refusal of a trace.
// Kept: one call of `row_line`, with its own word and promise.
pub fn write_refused(out: &mut [u8], line: usize, number: usize) -> usize
    ensures { Wrote (room line_room (ended (refused_line line number))) out.old result out.new }
{
    row_line(out, b"refused", &[line, number])
}

// Why a trace has no order.
// Kept: one call of `row_line`, with its own word and promise.
pub fn write_unordered(out: &mut [u8], line: usize, number: usize) -> usize
    ensures { Wrote (room line_room (ended (unordered_line line number))) out.old result out.new }
{
    row_line(out, b"unordered", &[line, number])
}

// The number of events of a trace, or of accepted traces of a sheet.
// Kept: one call of `row_line`, with its own word and promise.
pub fn write_accepted(out: &mut [u8], n: usize) -> usize
    ensures { Wrote (room line_room (ended (accepted_line n))) out.old result out.new }
{
    row_line(out, b"accepted", &[n])
}

// The number of traces of a sheet.
// Kept: one call of `row_line`, with its own word and promise.
pub fn write_papers(out: &mut [u8], n: usize) -> usize
    ensures { Wrote (room line_room (ended (papers_line n))) out.old result out.new }
{
    row_line(out, b"papers", &[n])
}

// The word of a share, a space and a number.
fn share_front(out: &mut [u8], a: usize) -> usize
    requires { 37 ≤ length out.old }
    ensures { Wrote (room 37 (share_front a)) out.old result out.new }
{
    let m = decimal::write_bytes(out, b"share");
    let n = decimal::write_number(&mut out[m..], b' ', a);
    m + n
}

// A slash and a number, and the end of the line.
fn share_end(out: &mut [u8], b: usize) -> usize
    requires { 33 ≤ length out.old }
    ensures { Wrote (room 33 (ended (47 ∷ natural_text b))) out.old result out.new }
{
    let m = decimal::write_number(out, b'/', b);
    let n = decimal::write_byte(&mut out[m..], 10);
    m + n
}

// The share of the accepted traces of a sheet.
pub fn write_share(out: &mut [u8], a: usize, b: usize) -> usize
    ensures { Wrote (room line_room (ended (share_line a b))) out.old result out.new }
{
    if out.len() < LINE_ROOM {
        return 0;
    }
    let m = share_front(out, a);
    let n = share_end(&mut out[m..], b);
    m + n
}

// A variable's value in main memory.
fn write_main(out: &mut [u8], v: usize, m: Main) -> usize
    ensures { Wrote (room line_room (ended (main_line v m.value))) out.old result out.new }
{
    value_line(out, b"main", &[v], m.value)
}

// The copy of thread t and variable v, where it is usable.
fn write_copy(out: &mut [u8], t: usize, v: usize, c: Cached) -> usize
    ensures { Wrote (write_all (copy_lines (usable_copy t v c))) out.old result out.new }
{
    if !c.usable {
        return 0;
    }
    value_line(out, b"copy", &[t, v], c.value)
}

// A section: its thread, first and last line in one number.
fn write_section(out: &mut [u8], w: u64) -> usize
    ensures { Wrote (room line_room (ended (section_line (entry_in w)))) out.old result out.new }
{
    let t = (w / 16777216) as usize;
    let first = (w % 4096) as usize;
    let last = (w / 4096 % 4096) as usize;
    row_line(out, b"section", &[t, first, last])
}

// ---- Lines one after the other.

// The values of the first n variables in main memory.
// Kept: no plainer with parts `&main[..n]`: the bound is then asked of a part at the call, and of one for each thread in the next two.
fn write_mains(out: &mut [u8], main: &[Main; VARIABLES], n: usize) -> usize
    requires { n ≤ 16 }
    ensures { Wrote (write_all (main_lines (each (main_at main.now) (below n)))) out.old result out.new }
{
    let mut a = 0;
    for v in 0..n {
        a += write_main(&mut out[a..], v, main[v]);
    }
    a
}

// The usable copies of thread t, of the first n variables.
// Kept: n as in `write_mains`.
fn write_thread(out: &mut [u8], copies: &[Cached; CELLS], t: usize, n: usize) -> usize
    requires { (t < 8) × (n ≤ 16) }
    ensures { Wrote (write_all (copy_lines (each (copy_at copies.now t) (below n)))) out.old result out.new }
{
    let mut a = 0;
    for v in 0..n {
        a += write_copy(&mut out[a..], t, v, copies[VARIABLES * t + v]);
    }
    a
}

// The usable copies of the first m threads, by thread then variable, of the first n variables.
// Kept: n as in `write_mains`.
fn write_copies(out: &mut [u8], copies: &[Cached; CELLS], n: usize, m: usize) -> usize
    requires { (n ≤ 16) × (m ≤ 8) }
    ensures { Wrote (write_all (copy_lines (each (copies_at copies.now n) (below m)))) out.old result out.new }
{
    let mut a = 0;
    for t in 0..m {
        a += write_thread(&mut out[a..], copies, t, n);
    }
    a
}

// The events, n of them, and the memories after them; nothing where no head may declare the counts.
pub fn write_memories(out: &mut [u8], n: usize, h: Counts, m: Memories) -> usize
    ensures { Wrote (write_all (lines_for n h m)) out.old result out.new }
{
    if !rules::is_allowed(Course::Full, h) {
        return 0;
    }
    let a = write_accepted(out, n);
    let b = write_mains(&mut out[a..], &m.main, h.variables);
    let c = write_copies(&mut out[a + b..], &m.copies, h.variables, h.threads);
    a + b + c
}

// The sections of an order.
pub fn write_sections(out: &mut [u8], entries: &[u64]) -> usize
    ensures { Wrote (write_all (entry_lines entries.now)) out.old result out.new }
{
    let mut a = 0;
    for w in entries {
        a += write_section(&mut out[a..], *w);
    }
    a
}
