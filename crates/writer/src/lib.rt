// The canonical text of a trace, written line by line: each line goes to the front of what remains of an output, and its writer answers its
// length. Where less room remains than a writer asks for, it writes nothing.
#![tactic(auto)]

ghost use Rattle.std.specs.Prelude.{◌+◌, ◌*◌, cond, length, Some, None};
ghost use Rattle.decimal.specs.Text.{ended, room, Wrote};
ghost use Rattle.writer.specs.Text.{head_line, guard_row, volatiles_text, event_line, trailer_line};

use rules::{Counts, Event};

// Line 1.
pub fn write_head(out: &mut [u8], c: Counts) -> usize
    ensures { Wrote (room 98 (ended (head_line c))) out.old result out.new }
{
    decimal::write_row_line(out, b"H", &[c.threads, c.variables, c.locks])
}

// The trailer, behind n bytes.
pub fn write_trailer(out: &mut [u8], n: usize) -> usize
    ensures { Wrote (room 34 (ended (trailer_line n))) out.old result out.new }
{
    decimal::write_row_line(out, b"Z", &[n])
}

// Line 2: the locks of the variables, or a dash where there are no guards.
// Kept: a flag beside the row: also where there are no guards, the length of the row says how much room is asked for.
pub fn write_guards(out: &mut [u8], given: bool, ns: &[usize]) -> usize
    ensures { Wrote (room (32 * length ns.now + 4) (ended (guard_row (cond given (Some ns.now) None)))) out.old result out.new }
{
    if out.len() < 4 {
        return 0;
    }
    if (out.len() - 4) / 32 < ns.len() {
        return 0;
    }
    if given {
        decimal::write_row_line(out, b"G", ns)
    } else {
        decimal::write_bytes(out, b"G -\n")
    }
}

// Line 3: the volatile variables; nothing where there are none.
pub fn write_volatiles(out: &mut [u8], ns: &[usize]) -> usize
    ensures { Wrote (room (32 * length ns.now + 2) (volatiles_text ns.now)) out.old result out.new }
{
    if ns.is_empty() {
        return 0;
    }
    decimal::write_row_line(out, b"V", ns)
}

// The line of an event.
pub fn write_event(out: &mut [u8], e: Event) -> usize
    ensures { Wrote (room 98 (ended (event_line e))) out.old result out.new }
{
    if out.len() < 98 {
        return 0;
    }
    let letter = rules::letter_of(e.kind);
    let ns = [e.thread, rules::place_of(e.kind)];
    if rules::is_lock_letter(letter) && letter != b'F' {
        return decimal::write_row_line(out, &[letter], &ns);
    }
    decimal::write_value_line(out, &[letter], &ns, rules::value_of(e.kind))
}
