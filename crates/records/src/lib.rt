// Records: an event as two plain numbers. Their layout is in specs/Records.antt.
#![tactic(auto)]

ghost use Rattle.std.specs.Prelude.{◌≡◌};
ghost use Rattle.records.specs.Records.{what_of, packed, letter_in, thread_in, place_in, onto};

use rules::Event;

// What an event is, from its letter, thread, and variable or lock.
pub fn what_of(letter: u8, thread: usize, place: usize) -> u32
    ensures { result ≡ what_of letter thread place }
{
    u32::from(letter) * 65536 + rules::cap(thread) * 256 + rules::cap(place)
}

// The record of an event; its value stands beside it.
pub fn pack(e: Event) -> u32
    ensures { result ≡ packed e }
{
    what_of(rules::letter_of(e.kind), e.thread, rules::place_of(e.kind))
}

// The letter in a record.
pub fn letter_in(w: u32) -> u8
    ensures { result ≡ letter_in w }
{
    u8::try_from(w / 65536).unwrap_or(0)
}

// The thread in a record.
pub fn thread_in(w: u32) -> usize
    ensures { result ≡ thread_in w }
{
    (w / 256 % 256) as usize
}

// The variable or lock in a record.
pub fn place_in(w: u32) -> usize
    ensures { result ≡ place_in w }
{
    (w % 256) as usize
}

// ---- Rows of records.

// Puts a row to the front of a lent one, as far as that has places.
pub fn copy_row<T: Copy>(lent: &mut [T], row: &[T])
    ensures { lent.new ≡ onto row.now lent.old }
{
    let n = lent.len().min(row.len());
    lent[..n].copy_from_slice(&row[..n]);
}
