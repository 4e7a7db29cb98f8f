// Vectors of a receiver's record: its bytes, what is told of it, a fresh one, and one of the old kind taken over.
ghost use Rattle.std.specs.Prelude.{◌≤◌};

use crate::vector::{Vector, joined, refused};
use records::{FrameKind, OldRecord, Record};
use sets::ParameterSet;

// The sixteen kinds by their bits, 1 for a repeat, the oldest most significant.
fn kinds_of(bits: usize) -> [FrameKind; 16] {
    let mut kinds = [FrameKind { repeat: false }; 16];
    let mut left = bits;
    for kind in kinds.iter_mut().rev() {
        kind.repeat = left % 2 == 1;
        left /= 2;
    }
    kinds
}

// A byte and the bits of sixteen kinds as the number of their three bytes, of which each turn keeps the last 23 bits.
fn bits_of(before: u8, kinds: [FrameKind; 16]) -> usize {
    kinds.iter().fold(usize::from(before), |bits, kind| {
        bits % 8388608 * 2 + usize::from(kind.repeat)
    })
}

// The record in bytes 1 to 15, whose set is in the first eleven.
pub(crate) fn record_of(vector: &Vector, last: ParameterSet) -> Record {
    Record {
        last,
        g2: vector.byte(12),
        kinds: kinds_of(vector.number(13, 2)),
        repeats: vector.byte(15),
    }
}

// The record of the old kind in bytes 1 to 14, whose set is in the first eleven.
fn old_record_of(vector: &Vector, last: ParameterSet) -> OldRecord {
    OldRecord {
        last,
        g2: vector.byte(12),
        kinds: kinds_of(vector.number(13, 2)),
    }
}

// Whether the record is the one in the fifteen bytes from `start`.
pub(crate) fn record_agrees(vector: &Vector, start: usize, rec: Record) -> bool
    requires { start ≤ 241 }
{
    vector.set_agrees(start, rec.last)
        & (vector.number(start + 11, 3) == bits_of(rec.g2, rec.kinds))
        & (vector.bytes[start + 14] == rec.repeats)
}

// Kind 14: whether a record is valid, and whether its number of repeats mutes, right or wrong.
pub(crate) fn tests_agree(vector: &Vector, last: ParameterSet) -> bool {
    let rec = record_of(vector, last);
    let valid = u8::from(records::is_valid(rec));
    let muted = u8::from(records::is_muted(rec.repeats));
    vector.number(16, 2) == joined(0, valid, muted)
}

// Kind 15: what a sender and a receiver start with.
pub(crate) fn fresh_agrees(vector: &Vector) -> bool {
    (vector.byte(1) == u8::from(frame::fresh_sync())) & record_agrees(vector, 2, records::fresh())
}

// Kind 34: a record of the old kind taken over; the record counts after a refusal too.
pub(crate) fn taken_over_agrees(vector: &Vector, last: ParameterSet) -> bool {
    let taken = records::take_over(old_record_of(vector, last));
    (vector.byte(15) == refused(taken.answer)) & record_agrees(vector, 16, taken.next)
}
