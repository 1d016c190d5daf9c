// Numbers in base ten: read from a whole field, and written into the front of what remains of an output.
#![tactic(auto)]

ghost use Rattle.std.specs.Prelude.{◌≡◌, [], ◌∷◌, ◌+◌, ◌*◌, ◌≤◌, ◌<◌, min, leb, length, drop};
ghost use Rattle.rules.specs.Limits.{value_width};
ghost use Rattle.decimal.specs.Decimal.{cap, digits_from, natural_of, positive_of, negative_of};
ghost use Rattle.decimal.specs.Computed.Forward.{scan, number_until};
ghost use Rattle.decimal.specs.Text.{natural_text, signed_text, integer_text, row_text, word_row, word_value, ended, over, room, Wrote};

use rules::Value;

// Why a field is no value: it is no number of the right form, or its number is outside the range.
#[derive(Clone, Copy)]
pub enum NotValue {
    Bad,
    Outside,
}

// A number and the place behind the byte that ends it.
#[derive(Clone, Copy)]
pub struct Reached {
    pub number: usize,
    pub next: usize,
}

// A value is from -LIMIT to LIMIT - 1.
const LIMIT: usize = 9223372036854775808;

const CAP: usize = LIMIT + 1;

// One digit more stays at the cap or below.
const PLAIN: usize = CAP / 10;

// Where so many bytes remain, a byte and a number are written.
const NUMBER_ROOM: usize = 32;

// One more digit, held at the cap. The cap ends in 9: up to PLAIN any digit more is at most the cap, and past it none is below.
fn push_digit(n: usize, d: usize) -> usize
    requires { d < 10 }
    ensures { result ≡ min cap (n * 10 + d) }
{
    if n <= PLAIN { n * 10 + d } else { CAP }
}

// The digits of a field, without a look at a leading zero.
fn digits(f: &[u8]) -> Option<usize>
    ensures { result ≡ digits_from 0 f.now }
{
    let mut n: usize = 0;
    for b in f {
        if !b.is_ascii_digit() {
            return None;
        }
        n = push_digit(n, usize::from(*b - b'0'));
    }
    Some(n)
}

// A field as a number: digits alone, at least one, and no leading zero. CAP stands for every larger number too.
pub fn read_natural(f: &[u8]) -> Option<usize>
    ensures { result ≡ natural_of f.now }
{
    if f.is_empty() {
        return None;
    }
    if f[0] == b'0' && 1 < f.len() {
        return None;
    }
    digits(f)
}

// The digits from `at` up to the byte d, without a look at a leading zero.
fn scan_digits(s: &[u8], at: usize, d: u8) -> Option<Reached>
    ensures { result ≡ scan d 0 at (drop at s.now) }
{
    let mut n: usize = 0;
    for i in at..s.len() {
        let b = s[i];
        if b == d {
            return Some(Reached {
                number: n,
                next: i + 1,
            });
        }
        if !b.is_ascii_digit() {
            return None;
        }
        n = push_digit(n, usize::from(b - b'0'));
    }
    None
}

// The number from `at` up to the byte d, of any length: digits, at least one, and no leading zero.
fn long_number(s: &[u8], at: usize, d: u8) -> Option<Reached>
    requires { at < length s.now }
    ensures { result ≡ number_until d at (drop at s.now) }
{
    let r = scan_digits(s, at, d)?;
    if r.next <= at + 1 {
        return None;
    }
    if s[at] == b'0' && at + 2 < r.next {
        return None;
    }
    Some(r)
}

// The number from `at` up to the byte d. One digit, as most numbers have, is read at once.
pub fn number_until(s: &[u8], at: usize, d: u8) -> Option<Reached>
    ensures { result ≡ number_until d at (drop at s.now) }
{
    if s.len() <= at {
        return None;
    }
    let b = s[at];
    let e = at + 1;
    if e < s.len() && s[e] == d && b.is_ascii_digit() && b != d {
        return Some(Reached {
            number: usize::from(b - b'0'),
            next: e + 1,
        });
    }
    long_number(s, at, d)
}

// The value of a number without a minus.
// Kept: what may not change: `positive_of` in specs/Decimal.antt is over a number or none.
pub fn positive(n: Option<usize>) -> Result<Value, NotValue>
    ensures { result ≡ positive_of value_width n }
{
    let m = n.ok_or(NotValue::Bad)?;
    Value::try_from(m).map_err(|_| NotValue::Outside)
}

// The value of a number after a minus, which is not 0: -m as -1 - (m - 1), which does not wrap at the least value.
// Kept: what may not change: `negative_of` in specs/Decimal.antt is over a number or none; std has no TryFrom to the negative value of a size.
pub fn negative(n: Option<usize>) -> Result<Value, NotValue>
    ensures { result ≡ negative_of value_width n }
{
    let m = n.ok_or(NotValue::Bad)?;
    if m == 0 {
        Err(NotValue::Bad)
    } else if m <= LIMIT {
        Ok(-1 - ((m - 1) as Value))
    } else {
        Err(NotValue::Outside)
    }
}

// A number in base ten, at the front of the buffer: all digits but the last, and behind them this one; the number of its digits.
fn put_natural(out: &mut [u8], n: usize) -> usize
    requires { length (natural_text n) ≤ length out.old }
    ensures { (result ≡ length (natural_text n)) × (out.new ≡ over (natural_text n) out.old) }
{
    if n < 10 {
        out[0] = b'0' + n as u8;
        return 1;
    }
    let k = put_natural(out, n / 10);
    out[k] = b'0' + (n % 10) as u8;
    k + 1
}

// A number, after a minus where it is that of a negative value.
fn put_signed(out: &mut [u8], is_negative: bool, n: usize) -> usize
    requires { length (signed_text is_negative n) ≤ length out.old }
    ensures { (result ≡ length (signed_text is_negative n)) × (out.new ≡ over (signed_text is_negative n) out.old) }
{
    if is_negative {
        out[0] = b'-';
        1 + put_natural(&mut out[1..], n)
    } else {
        put_natural(out, n)
    }
}

// The writers below put their text at the front of what remains of an output and answer its length. Where less room remains than they ask
// for, they write nothing.

// Some bytes.
pub fn write_bytes(out: &mut [u8], t: &[u8]) -> usize
    ensures { Wrote (room (length t.now) t.now) out.old result out.new }
{
    if out.len() < t.len() {
        return 0;
    }
    out[..t.len()].copy_from_slice(t);
    t.len()
}

// One byte.
pub fn write_byte(out: &mut [u8], b: u8) -> usize
    ensures { Wrote (room 1 (b ∷ [])) out.old result out.new }
{
    write_bytes(out, &[b])
}

// A byte, and then a number, after a minus where it is that of a negative value.
fn write_signed(out: &mut [u8], b: u8, is_negative: bool, n: usize) -> usize
    ensures { Wrote (room 32 (b ∷ signed_text is_negative n)) out.old result out.new }
{
    if out.len() < NUMBER_ROOM {
        return 0;
    }
    out[0] = b;
    1 + put_signed(&mut out[1..], is_negative, n)
}

// A byte, and then a number.
pub fn write_number(out: &mut [u8], b: u8, n: usize) -> usize
    ensures { Wrote (room 32 (b ∷ natural_text n)) out.old result out.new }
{
    write_signed(out, b, false, n)
}

// A byte, and then a value.
pub fn write_value(out: &mut [u8], b: u8, x: Value) -> usize
    ensures { Wrote (room 32 (b ∷ integer_text x)) out.old result out.new }
{
    write_signed(out, b, x < 0, x.unsigned_abs() as usize)
}

// A space and a number for each of the numbers.
pub fn write_row(out: &mut [u8], ns: &[usize]) -> usize
    ensures { Wrote (room (32 * length ns.now) (row_text ns.now)) out.old result out.new }
{
    if out.len() / NUMBER_ROOM < ns.len() {
        return 0;
    }
    let mut a: usize = 0;
    for n in ns {
        a += write_number(&mut out[a..], b' ', *n);
    }
    a
}

// ---- Lines: a word, a space and a number for each of the numbers, and for some a value.

// Whether n bytes are enough for a word of w bytes, k numbers and e bytes more.
fn is_enough(n: usize, w: usize, k: usize, e: usize) -> bool
    ensures { result ≡ leb (w + 32 * k + e) n }
{
    w <= n && e <= n - w && k <= (n - w - e) / NUMBER_ROOM
}

// A word, and a space and a number for each of the numbers.
fn word_row(out: &mut [u8], word: &[u8], ns: &[usize]) -> usize
    requires { length word.now + 32 * length ns.now ≤ length out.old }
    ensures { Wrote (room (length word.now + 32 * length ns.now) (word_row word.now ns.now)) out.old result out.new }
{
    let a = write_bytes(out, word);
    let b = write_row(&mut out[a..], ns);
    a + b
}

// A space and a value, and the end of the line.
fn end_value(out: &mut [u8], x: Value) -> usize
    requires { 33 ≤ length out.old }
    ensures { Wrote (room 33 (ended (32 ∷ integer_text x))) out.old result out.new }
{
    let a = write_value(out, b' ', x);
    let b = write_byte(&mut out[a..], b'\n');
    a + b
}

// A line of a word and numbers.
// Kept: this and the next are two promises, `word_row` and `word_value`, and share `is_enough` and `word_row`; one with a closure for the end has more clauses than both.
pub fn write_row_line(out: &mut [u8], word: &[u8], ns: &[usize]) -> usize
    ensures { Wrote (room (length word.now + 32 * length ns.now + 1) (ended (word_row word.now ns.now))) out.old result out.new }
{
    if !is_enough(out.len(), word.len(), ns.len(), 1) {
        return 0;
    }
    let a = word_row(out, word, ns);
    let b = write_byte(&mut out[a..], b'\n');
    a + b
}

// A line of a word, numbers and a value.
// Kept: as `write_row_line`.
pub fn write_value_line(out: &mut [u8], word: &[u8], ns: &[usize], x: Value) -> usize
    ensures { Wrote (room (length word.now + 32 * length ns.now + 33) (ended (word_value word.now ns.now x))) out.old result out.new }
{
    if !is_enough(out.len(), word.len(), ns.len(), 33) {
        return 0;
    }
    let a = word_row(out, word, ns);
    let b = end_value(&mut out[a..], x);
    a + b
}
