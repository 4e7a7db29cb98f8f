// Vectors of LSF values and magnitudes.
use crate::codebooks::{HELD, numbers_agree};
use crate::vector::{Vector, refused};
use refusal::Refusal;
use sets::ParameterSet;

// Whether the values of the set in bytes 1 to 11 by a codebook, and their output, are those in bytes 72 to 169: the refusal,
// and twelve numbers. Where these are the bytes of no set, no call agrees.
fn values_agree<F: FnOnce(ParameterSet, &[i64], &mut [i64]) -> Result<(), Refusal>>(
    vector: &Vector,
    codebook: &[i64],
    write: F,
) -> bool
    requires { F.IsAlwaysCallable write }
{
    let Ok(set) = set_bytes::read(vector.part(1, 11)) else {
        return false;
    };
    let mut out = [HELD; 12];
    let Some(room) = out.get_mut(..vector.number(12, 1)) else {
        return false;
    };
    let answer = write(set, codebook, room);
    (vector.byte(72) == refused(answer)) & numbers_agree(vector, &out)
}

// Kind 18: the LSF values.
pub(crate) fn lsf_values_agree(vector: &Vector, codebook: &[i64]) -> bool {
    values_agree(
        vector,
        codebook,
        |set, codebook, room| codebook_values::lsf_values(set, codebook, room),
    )
}

// Kind 19: the magnitudes.
pub(crate) fn magnitudes_agree(vector: &Vector, codebook: &[i64]) -> bool {
    values_agree(
        vector,
        codebook,
        |set, codebook, room| codebook_values::magnitudes(set, codebook, room),
    )
}
