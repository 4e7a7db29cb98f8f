// The pitch code that is sent for an index.
ghost use Rattle.std.specs.Prelude.{◌≡◌};
ghost use Rattle.pitch.specs.Pitch.{code_answer};

use refusal::Refusal;

// The code of an index. Refused: 5, a number past 98.
pub fn encode(index: u8) -> Result<u8, Refusal>
    ensures { result ≡ code_answer index }
{
    if 98 < index {
        return Err(Refusal::OutOfRange);
    }
    Ok(CODES[usize::from(index)])
}

// The codes with at least three ones, rising.
const CODES: [u8; 99] = [
    7, 11, 13, 14, 15, 19, 21, 22, 23, 25, 26, 27, 28, 29, 30, 31, 35, 37, 38, 39, 41, 42, 43, 44,
    45, 46, 47, 49, 50, 51, 52, 53, 54, 55, 56, 57, 58, 59, 60, 61, 62, 63, 67, 69, 70, 71, 73, 74,
    75, 76, 77, 78, 79, 81, 82, 83, 84, 85, 86, 87, 88, 89, 90, 91, 92, 93, 94, 95, 97, 98, 99,
    100, 101, 102, 103, 104, 105, 106, 107, 108, 109, 110, 111, 112, 113, 114, 115, 116, 117, 118,
    119, 120, 121, 122, 123, 124, 125, 126, 127,
];
