// The class of a pitch code, from its count of ones.
ghost use Rattle.std.specs.Prelude.{◌≡◌, ◌<◌};
ghost use Rattle.bits.specs.Bits.{bits};
ghost use Rattle.pitch.specs.Pitch.{index, class_of, class_answer};

use crate::PitchClass;
use refusal::Refusal;

// The index of a seven-bit code, taken as a voiced one.
fn index_of(code: u8) -> u8
    requires { code < 128 }
    ensures { result ≡ index code }
{
    INDEX[usize::from(code)]
}

// The class of a seven-bit code.
fn class_of(code: u8) -> PitchClass
    requires { code < 128 }
    ensures { result ≡ class_of (bits 7 code) }
{
    let ones = code.count_ones();
    if ones < 2 {
        return PitchClass::Unvoiced;
    }
    if ones < 3 {
        return PitchClass::Erased;
    }
    PitchClass::Voiced(index_of(code))
}

// The class of a code. Refused: 5, a number past 127.
pub fn classify(code: u8) -> Result<PitchClass, Refusal>
    ensures { result ≡ class_answer code }
{
    if code < 128 {
        Ok(class_of(code))
    } else {
        Err(Refusal::OutOfRange)
    }
}

// Of each code the number of smaller codes with at least three ones: its index where it is voiced.
const INDEX: [u8; 128] = [
    0, 0, 0, 0, 0, 0, 0, 0, 1, 1, 1, 1, 2, 2, 3, 4, 5, 5, 5, 5, 6, 6, 7, 8, 9, 9, 10, 11, 12, 13,
    14, 15, 16, 16, 16, 16, 17, 17, 18, 19, 20, 20, 21, 22, 23, 24, 25, 26, 27, 27, 28, 29, 30, 31,
    32, 33, 34, 35, 36, 37, 38, 39, 40, 41, 42, 42, 42, 42, 43, 43, 44, 45, 46, 46, 47, 48, 49, 50,
    51, 52, 53, 53, 54, 55, 56, 57, 58, 59, 60, 61, 62, 63, 64, 65, 66, 67, 68, 68, 69, 70, 71, 72,
    73, 74, 75, 76, 77, 78, 79, 80, 81, 82, 83, 84, 85, 86, 87, 88, 89, 90, 91, 92, 93, 94, 95, 96,
    97, 98,
];
