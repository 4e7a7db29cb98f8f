// Vectors of the 54 bits of a frame, and of what a frame is read as.
ghost use Rattle.std.specs.Prelude.{◌≤◌};

use crate::orders::order_of;
use crate::vector::{Vector, refused};
use reading::Accepted;

// Kind 10: the frame of 54 bits, and the refusal after it; beside a refusal stand zeros.
pub(crate) fn frame_agrees(vector: &Vector) -> bool {
    let placed = order::place_bits(vector.number(1, 8) as u64, order_of(vector));
    vector.bytes_agree(9, &placed.unwrap_or([0; 7])) & (vector.byte(16) == refused(placed))
}

// Kind 11: the 54 bits of a frame; beside a refusal stands 0.
pub(crate) fn logical_agrees(vector: &Vector) -> bool {
    let size = vector.number(1, 1);
    let taken = order::logical_bits(vector.part(2, size), order_of(vector));
    (size <= 9)
        & (vector.byte(11) == refused(taken))
        & (vector.number(12, 8) as u64 == taken.unwrap_or(0))
}

// Whether 54 bits are read as the thirteen bytes from `start` say: erased, the set, and the repaired count. Of an erasure
// nothing else is told.
pub(crate) fn content_agrees(vector: &Vector, start: usize, reading: Option<Accepted>) -> bool
    requires { start ≤ 243 }
{
    let erased = vector.bytes[start];
    match reading {
        None => erased == 1,
        Some(accepted) => {
            (erased == 0)
                & vector.set_agrees(start + 1, accepted.set)
                & (vector.bytes[start + 12] == accepted.repaired)
        }
    }
}

// Kind 13: what 54 bits are read as.
pub(crate) fn reading_agrees(vector: &Vector) -> bool {
    content_agrees(vector, 9, reading::read(vector.number(1, 8) as u64))
}
