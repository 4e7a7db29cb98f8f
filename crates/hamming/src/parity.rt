// The parity bits of a word.
ghost use Rattle.std.specs.Prelude.{◌≡◌, ◌<◌};
ghost use Rattle.bits.specs.Bits.{value, bits};
ghost use Rattle.hamming.specs.Word.{length_of, data_bits, parity, parity_of};

use crate::WordLength;

// The four parity bits of four data bits, p0 most significant.
fn all_parity(u: u8) -> u8
    requires { u < 16 }
    ensures { result ≡ value (parity (bits 4 u)) }
{
    PARITY[usize::from(u)]
}

// The parity bits of the data in the low bits of a number, p0 most significant. Only word A has p3, and
// word B's fourth data bit is a spare 0.
pub fn parity_of(length: WordLength, u: u8) -> u8
    ensures { result ≡ value (parity_of (length_of length) (bits (data_bits (length_of length)) u)) }
{
    match length {
        WordLength::Six => all_parity(u % 8 * 2) / 2,
        WordLength::Seven => all_parity(u % 16) / 2,
        WordLength::Eight => all_parity(u % 16),
    }
}

// The parity bits of every four data bits, by the number that these make.
const PARITY: [u8; 16] = [0, 14, 7, 9, 11, 5, 12, 2, 13, 3, 10, 4, 6, 8, 1, 15];
