// Answers about the pitch code, the words and the levels. Each is made the number of the bytes that a vector has for it.
use crate::vector::{Vector, joined, refused};
use hamming::{Word, WordLength};
use pitch::PitchClass;
use refusal::Refusal;

// The refusal, the number of the class, and the index.
pub(crate) fn class_number(code: u8) -> usize {
    match pitch::classify(code) {
        Err(refusal) => joined(refusal.number(), 0, 0),
        Ok(PitchClass::Unvoiced) => 0,
        Ok(PitchClass::Erased) => joined(0, 1, 0),
        Ok(PitchClass::Voiced(i)) => joined(0, 2, i),
    }
}

// The refusal, and the code.
pub(crate) fn code_number(index: u8) -> usize {
    let code = pitch::encode(index);
    joined(0, refused(code), code.unwrap_or(0))
}

// The length of a word; anything else than 6 or 7 is 8. No `TryFrom`, since neither type is of this crate.
pub(crate) fn length_of(n: u8) -> WordLength {
    match n {
        6 => WordLength::Six,
        7 => WordLength::Seven,
        _ => WordLength::Eight,
    }
}

// Whether the word is erased, its data, and the repaired count.
pub(crate) fn word_number(outcome: Option<Word>) -> usize {
    match outcome {
        None => joined(1, 0, 0),
        Some(word) => joined(0, word.data, word.repaired),
    }
}

// The refusal, and the level; more than three bytes can hold where two cannot hold the level, so that it agrees with no vector.
pub(crate) fn level_number(answer: Result<u32, Refusal>) -> usize {
    match answer {
        Err(refusal) => joined(refusal.number(), 0, 0),
        Ok(x) => u16::try_from(x).map_or(1 << 24, usize::from)
    }
}
