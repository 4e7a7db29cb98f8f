// Vectors of confidences: choosing a word, what 54 bits are read as, and taking those of a frame.
ghost use Rattle.std.specs.Prelude.{◌+◌, ◌≤◌};

use crate::coder::{length_of, word_number};
use crate::frames::content_agrees;
use crate::orders::order_of;
use crate::vector::{Vector, refused};
use order::SoftBits;

// So many confidences from `start` on.
fn confidences_of<const N: usize>(vector: &Vector, start: usize) -> [u8; N]
    requires { start + N ≤ 256 }
{
    vector.bytes[start..start + N].try_into().unwrap()
}

// Kind 30: choosing a word, with the eight confidences in bytes 3 to 10.
pub(crate) fn choice_agrees(vector: &Vector) -> bool {
    let length = length_of(vector.byte(1));
    let outcome = soft::choose(length, vector.byte(2), confidences_of(vector, 3));
    vector.number(11, 3) == word_number(outcome)
}

// Kind 31: what 54 bits are read as with their confidences, those in bytes 10 to 63.
pub(crate) fn reading_agrees(vector: &Vector) -> bool {
    let reading = reading::read_soft(vector.number(1, 8) as u64, confidences_of(vector, 10));
    content_agrees(vector, 67, reading)
}

// Kind 35: the 54 bits of a frame, taken with at most 56 confidences; the refusal, the bits, and the confidence of each, zeros
// beside a refusal.
pub(crate) fn taking_agrees(vector: &Vector) -> bool {
    let size = vector.number(16, 1);
    let count = vector.number(61, 1);
    let taken = order::soft_bits(
        vector.part(17, size),
        order_of(vector),
        vector.part(62, count),
    );
    let told = taken.unwrap_or(SoftBits {
        bits: 0,
        confidences: [0; 54],
    });
    (size <= 9)
        & (count <= 56)
        & (vector.byte(26) == refused(taken))
        & (vector.number(27, 8) as u64 == told.bits)
        & vector.bytes_agree(118, &told.confidences)
}
