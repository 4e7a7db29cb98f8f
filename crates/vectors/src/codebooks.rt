// The codebook that a vector gives by a rule, and lists of numbers.
ghost use Rattle.std.specs.Prelude.{◌≤◌};

use crate::vector::Vector;

// What each number of an output or a buffer holds before a call.
pub(crate) const HELD: i64 = -7;

// A number read as a signed one in two's complement.
fn signed(x: usize) -> i64 {
    (x as u64).cast_signed()
}

// What is added to number i for the next one: `jump` after each tenth, otherwise `step`.
fn added(i: usize, step: usize, jump: usize) -> usize {
    if i % 10 == 9 { jump } else { step }
}

// The numbers from `start` on, modulo 2 to the 64th.
fn rule(codebook: &mut [i64], start: usize, step: usize, jump: usize) {
    let mut value = start;
    for (i, entry) in codebook.iter_mut().enumerate() {
        *entry = signed(value);
        value = value.wrapping_add(added(i, step, jump));
    }
}

// The replacement in the ten bytes from `at`: another number at a place; past the last one nothing changes.
fn replace_by(codebook: &mut [i64], vector: &Vector, at: usize)
    requires { at ≤ 246 }
{
    if let Some(entry) = codebook.get_mut(vector.number(at, 2)) {
        *entry = signed(vector.number(at + 2, 8));
    }
}

// The numbers that bytes 18 to 71 give: the rule, and three replacements. They are put where they stand: an array handed back
// would be copied.
pub(crate) fn write_codebook(vector: &Vector, codebook: &mut [i64]) {
    rule(
        codebook,
        vector.number(18, 8),
        vector.number(26, 8),
        vector.number(34, 8),
    );
    replace_by(codebook, vector, 42);
    replace_by(codebook, vector, 52);
    replace_by(codebook, vector, 62);
}

// Whether these are the numbers from byte 74, eight bytes each; a vector has twelve at most.
pub(crate) fn numbers_agree(vector: &Vector, numbers: &[i64]) -> bool {
    let (given, _) = vector.bytes[74..].as_chunks::<8>();
    numbers.len() <= 12
        && given
            .iter()
            .zip(numbers)
            .all(|(bytes, x)| i64::from_be_bytes(*bytes) == *x)
}
