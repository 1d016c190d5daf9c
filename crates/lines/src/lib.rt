// The lines of a text and the fields of a line.
#![tactic(auto)]

ghost use Rattle.std.specs.Prelude.{◌≡◌, [], ◌+◌, length, get_or, drop};
ghost use Rattle.lines.specs.Lines.{before, split_on, letter, up_to};

// The place of the first byte b, or the length where there is none.
// Kept: the length where there is none, as `before` in specs/Lines.antt: what stands before the byte is then the part up to it in both cases.
pub fn find(s: &[u8], b: u8) -> usize
    ensures { result ≡ before b s.now }
{
    for i in 0..s.len() {
        if s[i] == b {
            return i;
        }
    }
    s.len()
}

// The length of s up to and with its last byte 10.
pub fn last_end(s: &[u8]) -> usize
    ensures { result ≡ up_to 10 s.now }
{
    s.iter().rposition(|x| *x == b'\n').map_or(0, |i| i + 1)
}

// The byte of a field of one byte; 0 for any other field.
// Kept: callers compare it with one letter, which is never 0; with an Option each of them says Some(b'..') and nothing else changes.
pub fn read_letter(f: &[u8]) -> u8
    ensures { result ≡ letter f.now }
{
    if f.len() == 1 { f[0] } else { 0 }
}

// The number of fields of a line.
pub fn count_fields(s: &[u8]) -> usize
    ensures { result ≡ length (split_on 32 s.now) }
{
    let mut n = 1;
    for b in s {
        n += usize::from(*b == b' ');
    }
    n
}

// The place of the first space from `at` on; where there is none, the length, or `at` where it is greater.
// Kept: the length where there is none, as in `find`.
pub fn space_from(s: &[u8], at: usize) -> usize
    ensures { result ≡ at + before 32 (drop at s.now) }
{
    at + find(&s[at.min(s.len())..], b' ')
}

// The j-th field of a line, a part of it; nothing where there are not so many.
pub fn field(s: &[u8], j: usize) -> &[u8]
    ensures { result.now ≡ get_or (split_on 32 s.now) j [] }
{
    s.split(|x| *x == b' ').nth(j).unwrap_or(&[])
}
