// What the programs do: a trace or a session sheet is read from standard input, and its listing, its tail or its counts are written to standard
// output.
#![tactic(auto)]

ghost use Rattle.std.specs.Prelude.{ℕ, List, ◌<◌, ◌≤◌, ◌≡◌, ◌^◌, cond, ltb, length, replicate, take, IsOk, MatchOption};
ghost use Rattle.std.specs.Fn.{FnOnceReturnsAtMut};
ghost use Rattle.std.specs.Io.KnownBytes.{Consumes, IsAtEnd};
ghost use Rattle.rules.specs.Limits.{full, limits_of};
ghost use Rattle.decimal.specs.Text.{over};
ghost use Rattle.session.specs.Session.{sheet_text};
ghost use Rattle.report.specs.Report.{listing_of};
ghost use Rattle.tail_text.specs.TailText.{tail_text};
ghost use Rattle.print.specs.Input.{bytes_read, printed_of};

use rules::{Course, ENTRIES, OUTPUT, RECORDS, SCRATCH, Value};
use std::io::{Eprint, Print, Read};
use tail_text::TAIL_TEXT;

// One byte more than a trace or a sheet may have tells that there are more.
pub const INPUT: usize = 65537;

// What is printed of an input: the listing of a trace, the text of its tail, or the counts of a session sheet.
// Kept: an enum and no closure: a function that calls a parameter requires that it may, and no public function has a `requires`.
#[derive(Clone, Copy)]
pub enum Printed {
    Listing,
    Tail,
    Sheet,
}

// A read failed after so many bytes.
#[derive(Clone, Copy)]
pub struct ReadFailed {
    pub count: usize,
}

// Reads to the front of `text` until it is full, the input ends or a read fails. Of a reader whose bytes are known these are its first, in order, and nothing
// is left where no read fails and `text` is not full.
fn fill<R: Read>(reader: &mut R, text: &mut [u8]) -> Result<usize, ReadFailed>
    ensures count { bytes_read result ≤ length text.new }
    ensures front { bytes_read result ≡ length (take (bytes_read result) text.new) }
    ensures read { Consumes (R.remaining reader.old) (R.remaining reader.new) (take (bytes_read result) text.new) }
    ensures whole { IsOk result → bytes_read result < length text.new → IsAtEnd (R.remaining reader.new) }
{
    let mut done = 0;
    // Kept: a read says how many bytes it gave, so no `for` knows where the next one goes.
    while done < text.len() {
        match reader.read(&mut text[done..]) {
            Ok(0) => break,
            Ok(n) => done += n,
            Err(_) => return Err(ReadFailed { count: done }),
        }
    }
    Ok(done)
}

// Reads an input, as standard input, to the front of `text`, or says on standard error that it cannot. Fewer bytes than `text` has are the whole input where
// a further read answered 0; otherwise a read failed.
pub fn read_input<R: Read>(
    rt: &impl Eprint,
    reader: &mut R,
    text: &mut [u8],
) -> Result<usize, ReadFailed>
    ensures count { bytes_read result ≤ length text.new }
    ensures front { bytes_read result ≡ length (take (bytes_read result) text.new) }
    ensures read { Consumes (R.remaining reader.old) (R.remaining reader.new) (take (bytes_read result) text.new) }
    ensures whole { IsOk result → bytes_read result < length text.new → IsAtEnd (R.remaining reader.new) }
{
    let input = fill(reader, text);
    if input.is_err() {
        let _ = eprintln!(rt; "the paper cannot be read");
    }
    input
}

// Hands a text to standard output, or says on standard error that it cannot.
fn hand_on(rt: &(impl Print + Eprint), text: &[u8], failed: &str) {
    if rt.write_all(text).is_err() {
        let _ = eprintln!(rt; "{failed}");
    }
}

// Puts the listing of a trace of a course at the front of the output; its length. An output under 32,768 bytes stays as it was, with length 0.
pub fn list_trace(course: Course, s: &[u8], out: &mut [u8]) -> usize
    ensures { (result ≡ cond (ltb (length out.old) full.output) 0 (length (listing_of (limits_of course) s.now))) × (out.new ≡ cond (ltb (length out.old) full.output) out.old (over (listing_of (limits_of course) s.now) out.old)) }
{
    let mut what: [u32; RECORDS] = [0; RECORDS];
    let mut values: [Value; RECORDS] = [0; RECORDS];
    let mut list = [0u64; ENTRIES];
    let mut scratch = [0u64; SCRATCH];
    let r = report::mark_lent(
        course,
        s,
        RECORDS,
        &mut what,
        &mut values,
        out,
        &mut list,
        &mut scratch,
    );
    r.written
}

// Puts the text of a session sheet, whose traces are marked by a course, at the front of the output; its length. An output under 32,768 bytes stays as it
// was, with length 0.
fn list_sheet(course: Course, s: &[u8], out: &mut [u8]) -> usize
    ensures { (result ≡ cond (ltb (length out.old) full.output) 0 (length (sheet_text (limits_of course) s.now))) × (out.new ≡ cond (ltb (length out.old) full.output) out.old (over (sheet_text (limits_of course) s.now) out.old)) }
{
    session::mark_sheet(course, s, out).written
}

// Hands the text that `write` puts at the front of an output of N bytes to standard output; its length.
fn print_text<const N: usize, F: FnOnce(&mut [u8]) -> usize>(
    rt: &(impl Print + Eprint),
    write: F,
    failed: &str,
) -> usize
    requires callable { F.IsAlwaysCallable write }
    requires size { N < 2 ^ 63 }
    requires fits { (n : ℕ) (out : List ℕ) → FnOnceReturnsAtMut F.FnOnce write (replicate N 0) n out → n ≤ N }
    ensures { (out : List ℕ) × FnOnceReturnsAtMut F.FnOnce write (replicate N 0) result out }
{
    let mut out = [0u8; N];
    let n = write(&mut out);
    hand_on(rt, &out[..n], failed);
    n
}

// Hands the listing of a trace of a course to standard output; its length.
// Kept: this, `print_tail` and `print_sheet` are public, each with its own text for its promise; what they share is `print_text`.
pub fn print_listing(rt: &(impl Print + Eprint), course: Course, s: &[u8]) -> usize
    ensures { result ≡ length (listing_of (limits_of course) s.now) }
{
    print_text::<OUTPUT, _>(
        rt,
        |out| list_trace(course, s, out),
        "the listing cannot be written",
    )
}

// Hands the text of the tail of a trace of a course to standard output; its length.
pub fn print_tail(rt: &(impl Print + Eprint), course: Course, s: &[u8]) -> usize
    ensures { result ≡ length (tail_text (limits_of course) s.now) }
{
    print_text::<TAIL_TEXT, _>(
        rt,
        |out| tail_text::list_tail(course, s, out),
        "the tail cannot be written",
    )
}

// Hands the text of a session sheet, whose traces are marked by a course, to standard output; its length.
// Kept: as `print_listing`.
pub fn print_sheet(rt: &(impl Print + Eprint), course: Course, s: &[u8]) -> usize
    ensures { result ≡ length (sheet_text (limits_of course) s.now) }
{
    print_text::<OUTPUT, _>(
        rt,
        |out| list_sheet(course, s, out),
        "the sheet cannot be written",
    )
}

// Reads an input, as standard input, and prints what is asked for of it, by a course, where it was read to its end; the length of that.
pub fn run<R: Read>(
    rt: &(impl Print + Eprint),
    reader: &mut R,
    printed: Printed,
    course: Course,
) -> Option<usize>
    ensures { (input : List ℕ) × (Consumes (R.remaining reader.old) (R.remaining reader.new) input × MatchOption result (Unit {0}) (λ n. (length input < INPUT → IsAtEnd (R.remaining reader.new)) × (n ≡ length (printed_of printed (limits_of course) input)))) }
{
    let mut text = [0u8; INPUT];
    let count = read_input(rt, reader, &mut text).ok()?;
    let input = &text[..count];
    Some(match printed {
        Printed::Listing => print_listing(rt, course, input),
        Printed::Tail => print_tail(rt, course, input),
        Printed::Sheet => print_sheet(rt, course, input),
    })
}
