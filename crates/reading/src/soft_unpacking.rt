// Unpacking with confidences: what 54 logical bits are read as where each has one.
ghost use Rattle.std.specs.Prelude.{◌≡◌, ◌≤◌, get_or};
ghost use Rattle.bits.specs.Bits.{cut, carried};
ghost use Rattle.hamming.specs.Word.{length_of, Bounded};
ghost use Rattle.soft.specs.Choice.{choose};
ghost use Rattle.pitch.specs.declared.PitchClass.TheVariants as class;
ghost use Rattle.reading.specs.SoftReading.{soft_by_class, soft_read};

use crate::Accepted;
use crate::parts::part;
use crate::unpacking::{from_words, read_with};
use hamming::{Word, WordLength};
use soft::choose;

// The confidences of eight logical bits in a row.
fn eight(confidences: &[u8; 54], first: usize) -> [u8; 8]
    requires { first ≤ 46 }
    ensures { result ≡ cut (λ j. get_or confidences.now j 0) first 8 }
{
    confidences[first..first + 8].try_into().unwrap()
}

// The outcome of the word that stands from a bit on: it is chosen by the confidences of its bits. Of eight the shorter words
// take the first few.
fn chosen(length: WordLength, bits: u64, confidences: &[u8; 54], first: usize) -> Option<Word>
    requires { first ≤ 46 }
    ensures outcome { result ≡ choose (length_of length) (cut (λ j. get_or confidences.now j 0) first (length_of length)) (cut (carried 54 bits) first (length_of length)) }
    ensures bound { Bounded (length_of length) result }
{
    choose(
        length,
        part(bits, first, length.bits()),
        eight(confidences, first),
    )
}

// An unvoiced frame: each word is chosen by the confidences of its bits. It is `unvoiced` but for the call at each word; one
// function for both, with a closure for that call, would need clauses for where it may be called and for the bound of what it
// gives.
fn soft_unvoiced(bits: u64, confidences: &[u8; 54]) -> Option<Accepted>
    ensures { result ≡ soft_by_class (carried 54 bits) (λ j. get_or confidences.now j 0) class.Unvoiced }
{
    let a = chosen(WordLength::Eight, bits, confidences, 0);
    let b = chosen(WordLength::Six, bits, confidences, 8);
    let c = chosen(WordLength::Seven, bits, confidences, 14);
    let d = chosen(WordLength::Seven, bits, confidences, 21);
    from_words(bits, a, b, c, d)
}

// What the logical bits in the low 54 bits of a number are read as, by the class of the pitch code, with the confidence of each
// bit by its number. Only an unvoiced frame looks at these.
pub fn read_soft(bits: u64, confidences: [u8; 54]) -> Option<Accepted>
    ensures { result ≡ soft_read (carried 54 bits) (λ j. get_or confidences j 0) }
{
    read_with(bits, || soft_unvoiced(bits, &confidences))
}
