// The four protected words of an unvoiced frame: parity, syndrome and repair.
//
//   parity  the parity bits of a word
//   repair  the outcome of a received word by its syndrome
#![tactic(auto)]

mod parity;
mod repair;

pub use parity::parity_of;
pub use repair::decode;

// How many bits a word has: eight in A, six in B, seven in C and D.
#[derive(Clone, Copy, Debug, PartialEq, Eq)]
pub enum WordLength {
    Six,
    Seven,
    Eight,
}

impl WordLength {
    ghost use Rattle.std.specs.Prelude.{◌≡◌, ◌%◌, ◌<◌, ◌^◌};
    ghost use Rattle.hamming.specs.Word.{length_of, check_bits};

    // The number of bits.
    pub fn bits(self) -> usize
        ensures { result ≡ length_of self }
    {
        match self {
            WordLength::Six => 6,
            WordLength::Seven => 7,
            WordLength::Eight => 8,
        }
    }

    // The weight of the lowest data bit: the parity bits stand below it.
    pub fn data_weight(self) -> u8
        ensures equal { result ≡ 2 ^ check_bits (length_of self) }
        ensures positive { 0 < result }
    {
        match self {
            WordLength::Six | WordLength::Seven => 8,
            WordLength::Eight => 16,
        }
    }

    // The word in the low bits of a number.
    pub(crate) fn word_in(self, number: u8) -> u8
        ensures { result ≡ number % 2 ^ length_of self }
    {
        match self {
            WordLength::Six => number % 64,
            WordLength::Seven => number % 128,
            WordLength::Eight => number,
        }
    }
}

// What a received word is read as, in whatever way its data were chosen. A word that erases its frame is read as nothing.
#[derive(Clone, Copy, Debug, PartialEq, Eq)]
pub struct Word {
    // The data as a number, u0 most significant.
    pub data: u8,
    // How many of the word's bits were repaired.
    pub repaired: u8,
}
