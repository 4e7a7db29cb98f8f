// Vectors of parameter sets: their ranges, and their bytes.
ghost use Rattle.std.specs.Prelude.{◌≤◌};

use crate::vector::{Vector, refused};
use sets::ParameterSet;

// Kind 12: the ranges and the indices of a set.
pub(crate) fn ranges_agree(vector: &Vector, set: ParameterSet) -> bool {
    let x = sets::indices_of(set);
    let bytes = [
        u8::from(sets::is_in_range(set)),
        u8::from(sets::is_sendable(set)),
        x.l1,
        x.l2,
        x.l3,
        x.l4,
        x.g2,
        x.g1,
    ];
    vector.bytes_agree(12, &bytes)
}

// Whether the fields of a set are those from `start`: 1 if voiced, the six indices, pitch, B, F, flag, with 0 for what it lacks.
fn fields_agree(vector: &Vector, start: usize, set: ParameterSet) -> bool
    requires { start ≤ 245 }
{
    let fields = match set {
        ParameterSet::Unvoiced(x) => [0, x.l1, x.l2, x.l3, x.l4, x.g2, x.g1, 0, 0, 0, 0],
        ParameterSet::Voiced(x, v) => [
            1,
            x.l1,
            x.l2,
            x.l3,
            x.l4,
            x.g2,
            x.g1,
            v.pitch,
            v.bandpass,
            v.fourier,
            v.aperiodic,
        ],
    };
    vector.bytes_agree(start, &fields)
}

// Kind 23: the set in bytes.
pub(crate) fn reading_agrees(vector: &Vector) -> bool {
    let size = vector.number(1, 1);
    let read = set_bytes::read(vector.part(2, size));
    let told = match read {
        Ok(set) => fields_agree(vector, 15, set),
        Err(_) => vector.bytes_agree(15, &[0; 11]),
    };
    (size <= 12) & (vector.byte(14) == refused(read)) & told
}

// Kind 24: the bytes of a set. The set is the one in the expected bytes, if its fields are those in bytes 1 to 11.
pub(crate) fn writing_agrees(vector: &Vector) -> bool {
    set_bytes::read(vector.part(12, 11)).is_ok_and(|set| fields_agree(vector, 1, set)
        & vector.set_agrees(12, set))
}
