// Vectors of gain codes.
ghost use Rattle.std.specs.Prelude.{◌≤◌};

use crate::vector::{Vector, joined, refused};
use quantiser::GainCodes;

// The four bytes from `at` as a signed number in two's complement.
fn signed(vector: &Vector, at: usize) -> i32
    requires { at ≤ 252 }
{
    (vector.number(at, 4) as u32).cast_signed()
}

// Kind 8: gain codes chosen; the refusal, and both codes.
pub(crate) fn choice_agrees(vector: &Vector) -> bool {
    let chosen = quantiser::choose(signed(vector, 1), signed(vector, 5), vector.byte(9));
    let codes = chosen.unwrap_or(GainCodes { g2: 0, g1: 0 });
    vector.number(10, 3) == joined(refused(chosen), codes.g2, codes.g1)
}
