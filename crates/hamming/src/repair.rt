// The outcome of a received word by its syndrome, which tells the bit to flip back, if any.
ghost use Rattle.std.specs.Prelude.{◌≡◌, ◌<◌, ◌^◌};
ghost use Rattle.bits.specs.Bits.{value, bits};
ghost use Rattle.hamming.specs.Word.{length_of, check_bits, syndrome, flip_at, fix_of, decode};
ghost use Rattle.hamming.specs.Table.{entry_of};

use crate::parity::parity_of;
use crate::{Word, WordLength};

// The syndrome of a word: its parity bits plus the parity of its data.
fn syndrome_of(length: WordLength, word: u8) -> u8
    ensures number { bits (check_bits (length_of length)) result ≡ syndrome (length_of length) (bits (length_of length) word) }
    ensures bound { result < 16 }
{
    let weight = length.data_weight();
    (word % weight) ^ parity_of(length, word / weight)
}

// What the table has for a syndrome of a word of this length.
fn entry_at(length: WordLength, syndrome: u8) -> u8
    requires { syndrome < 16 }
    ensures { result ≡ entry_of (fix_of (length_of length) (bits (check_bits (length_of length)) syndrome)) }
{
    match length {
        WordLength::Six => FIXES[0][usize::from(syndrome)],
        WordLength::Seven => FIXES[1][usize::from(syndrome)],
        WordLength::Eight => FIXES[2][usize::from(syndrome)],
    }
}

// A word with bit k, counted from the first, flipped.
fn flipped(length: WordLength, word: u8, k: u8) -> u8
    requires { (k < length_of length) × (word < 2 ^ length_of length) }
    ensures { result ≡ value (flip_at k (bits (length_of length) word)) }
{
    word ^ (1 << (length.bits() - 1 - usize::from(k)))
}

// The outcome of the word in the low bits of a number: the table is asked at its syndrome.
pub fn decode(length: WordLength, word: u8) -> Option<Word>
    ensures { result ≡ decode (length_of length) (bits (length_of length) word) }
{
    let word = length.word_in(word);
    let weight = length.data_weight();
    match entry_at(length, syndrome_of(length, word)) {
        ERASE => None,
        STAND => Some(Word {
            data: word / weight,
            repaired: 0,
        }),
        k => Some(Word {
            data: flipped(length, word, k) / weight,
            repaired: 1,
        }),
    }
}

// The table's mark of a syndrome that lets the word stand.
const STAND: u8 = 8;

// Its mark of a syndrome that erases the frame.
const ERASE: u8 = 9;

// The table of tables: a row for the words of six, seven and eight bits, in it for each syndrome the
// bit to flip, counted from the first, or a mark. Three parity bits fill half a row, so it has them twice.
// Both the marks among the bits and a row for each length are the form that the document of the code gives the table.
const FIXES: [[u8; 16]; 3] = [
    [8, 5, 4, 2, 3, 1, 0, 9, 8, 5, 4, 2, 3, 1, 0, 9],
    [8, 6, 5, 2, 4, 1, 0, 3, 8, 6, 5, 2, 4, 1, 0, 3],
    [8, 7, 6, 9, 5, 9, 9, 2, 4, 9, 9, 1, 9, 0, 3, 9],
];
