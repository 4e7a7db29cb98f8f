// Vectors of codebooks in their text form.
use crate::codebooks::HELD;
use crate::text_rule::write_text;
use crate::vector::{Vector, refused};
use refusal::Refusal;

// Whether the text, read into a buffer of as many numbers as are expected, gives the refusal in byte 72, and these numbers. A
// vector has at most 3,201.
fn text_agrees<F: FnOnce(&[u8], &mut [i64]) -> Result<(), Refusal>>(
    vector: &Vector,
    expected: &[i64],
    read: F,
) -> bool
    requires { F.IsAlwaysCallable read }
{
    let mut text = console::large_buffer();
    let mut buffer = [HELD; 3201];
    let Some(room) = buffer.get_mut(..expected.len()) else {
        return false;
    };
    let answer = read(write_text(vector, &mut text), room);
    (vector.byte(72) == refused(answer)) & buffer.starts_with(expected)
}

// Kind 20: reading the LSF codebook.
pub(crate) fn lsf_agrees(vector: &Vector, expected: &[i64]) -> bool {
    text_agrees(
        vector,
        expected,
        |text, room| codebook_text::read_lsf(text, room),
    )
}

// Kind 21: reading the codebook of magnitudes.
pub(crate) fn magnitudes_agree(vector: &Vector, expected: &[i64]) -> bool {
    text_agrees(
        vector,
        expected,
        |text, room| codebook_text::read_magnitudes(text, room),
    )
}
