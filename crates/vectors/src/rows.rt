// Vectors of rows of a codebook.
use crate::codebooks::numbers_agree;
use crate::vector::Vector;

// Whether the refusal is the one in byte 72, and the row the one from byte 73 on: how many numbers, and these.
fn row_agrees(vector: &Vector, refusal: u8, row: &[i64]) -> bool {
    (vector.byte(72) == refusal) & (vector.number(73, 1) == row.len()) & numbers_agree(vector, row)
}

// Kind 16: a row of the LSF codebook, and its refusal.
pub(crate) fn lsf_row_agrees(vector: &Vector, codebook: &[i64]) -> bool {
    let stage = vector.byte(1);
    let index = vector.byte(2);
    let refusal = codebook::lsf_row_refusal(codebook, stage, index);
    row_agrees(vector, refusal, codebook::lsf_row(codebook, stage, index))
}

// Kind 17: a row of the magnitude codebook, and its refusal.
pub(crate) fn magnitude_row_agrees(vector: &Vector, codebook: &[i64]) -> bool {
    let index = vector.number(1, 2) as u16;
    let refusal = codebook::magnitude_row_refusal(codebook, index);
    row_agrees(vector, refusal, codebook::magnitude_row(codebook, index))
}
