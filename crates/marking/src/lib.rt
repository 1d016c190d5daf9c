// Marks a whole trace: finds it in the bytes, reads its lines into two rows of plain numbers, and marks these.
#![tactic(auto)]

ghost use Rattle.std.specs.Prelude.{◌≡◌, ◌≤◌, length};
ghost use Rattle.rules.specs.Limits.{limits_of};
ghost use Rattle.marking.specs.Marking.{Marks};
ghost use Rattle.marking.specs.Computed.Rows.{read_marking};

use events::Read;
use rules::{Counts, Course, Memories, RECORDS, Refusal, Value};
use trace::Guards;

// An accepted trace: its head, its guards, the number of its events, and the memories after the last.
#[derive(Clone, Copy)]
pub struct Marking {
    pub head: Counts,
    pub guards: Guards,
    pub events: usize,
    pub memories: Memories,
}

// Marks the records of two rows that were read. The refusal is the first in line order.
// Kept: two rows of plain numbers, which document 01 has the marking go over.
fn mark_read(
    h: Counts,
    guards: Guards,
    read: Read,
    what: &[u32],
    value: &[Value],
) -> Result<Marking, Refusal>
    requires { (read.count ≤ length what.now) × (read.count ≤ length value.now) }
    ensures { result ≡ read_marking h guards read what.now value.now }
{
    let n = read.count;
    let memories = machine::mark_row(h, &what[..n], &value[..n])?;
    read.verdict?;
    Ok(Marking {
        head: h,
        guards,
        events: n,
        memories,
    })
}

// Marks a whole trace: 1, 2, 3, over the limits of the course, 6, then line by line 4, one event too many, 5 and the row. The rows are room for the records of its events.
// Kept: two rows of plain numbers, which document 01 has the marking go over.
pub fn mark(
    course: Course,
    bytes: &[u8],
    what: &mut [u32; RECORDS],
    value: &mut [Value; RECORDS],
) -> Result<Marking, Refusal>
    ensures { Marks (limits_of course) bytes.now what.old value.old result what.new value.new }
{
    let t = trace::find(course, bytes)?;
    let read = events::read_lines(course, t.head, &bytes[..t.to], t.from, what, value);
    mark_read(t.head, t.guards, read, what, value)
}
