// Vectors of calls whose arguments are at most three bytes from byte 1 on, and whose answer is at most three bytes after them.
use crate::coder::{class_number, code_number, length_of, level_number, word_number};
use crate::vector::Vector;

// Kind 2: the class of a pitch code.
pub(crate) fn class_agrees(vector: &Vector) -> bool {
    vector.number(2, 3) == class_number(vector.byte(1))
}

// Kind 3: the pitch code of an index.
pub(crate) fn code_agrees(vector: &Vector) -> bool {
    vector.number(2, 2) == code_number(vector.byte(1))
}

// Kind 4: a word decoded.
pub(crate) fn word_agrees(vector: &Vector) -> bool {
    let outcome = hamming::decode(length_of(vector.byte(1)), vector.byte(2));
    vector.number(3, 3) == word_number(outcome)
}

// Kind 5: the parity bits of a word.
pub(crate) fn parity_agrees(vector: &Vector) -> bool {
    let parity = hamming::parity_of(length_of(vector.byte(1)), vector.byte(2));
    vector.number(3, 1) == usize::from(parity)
}

// Kind 6: the first level of a frame.
pub(crate) fn first_level_agrees(vector: &Vector) -> bool {
    let level = gain::first_level(vector.byte(1), vector.byte(2), vector.byte(3));
    vector.number(4, 3) == level_number(level)
}

// Kind 7: the level of a code.
pub(crate) fn level_agrees(vector: &Vector) -> bool {
    vector.number(2, 3) == level_number(gain::level(vector.byte(1)))
}
