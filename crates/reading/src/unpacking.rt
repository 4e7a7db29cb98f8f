// Unpacking: what 54 logical bits, carried in one number, are read as. Logical bit 0 is the most significant.
ghost use Rattle.std.specs.Prelude.{◌≡◌, ◌+◌, ◌≤◌, Some};
ghost use Rattle.bits.specs.Bits.{cut, carried};
ghost use Rattle.hamming.specs.Word.{length_of, decode, Bounded};
ghost use Rattle.order.specs.Fields.{pitch_bits};
ghost use Rattle.pitch.specs.Pitch.{class_of};
ghost use Rattle.pitch.specs.declared.PitchClass.TheVariants as class;
ghost use Rattle.reading.specs.Reading.{from_words, by_class, read, ReadsWith};

use crate::Accepted;
use crate::parts::{indices, part, voicing};
use crate::pitch_code::{class_of, pitch_repaired};
use hamming::{Word, WordLength, decode};
use pitch::PitchClass;
use sets::ParameterSet;

// A voiced frame: the bits as they stand.
fn voiced(bits: u64, pitch: u8) -> Accepted
    ensures { Some result ≡ by_class (carried 54 bits) (class.Voiced pitch) }
{
    let a = part(bits, 0, 4);
    let b = part(bits, 8, 3);
    let c = part(bits, 14, 4);
    let d = part(bits, 21, 4);
    let set = ParameterSet::Voiced(indices(bits, a, b, c, d), voicing(bits, pitch));
    Accepted { set, repaired: 0 }
}

// An unvoiced frame, from the outcomes of its four words, however they were chosen.
pub(crate) fn from_words(
    bits: u64,
    a: Option<Word>,
    b: Option<Word>,
    c: Option<Word>,
    d: Option<Word>,
) -> Option<Accepted>
    requires { Bounded 8 a × Bounded 6 b × Bounded 7 c × Bounded 7 d }
    ensures { result ≡ from_words (carried 54 bits) a b c d }
{
    let a = a?;
    let b = b?;
    let c = c?;
    let d = d?;
    let set = ParameterSet::Unvoiced(indices(bits, a.data, b.data, c.data, d.data));
    let repaired = pitch_repaired(bits) + a.repaired + b.repaired + c.repaired + d.repaired;
    Some(Accepted { set, repaired })
}

// The outcome of the word that stands from a bit on: it is checked and repaired.
fn decoded(length: WordLength, bits: u64, first: usize) -> Option<Word>
    requires { first + length_of length ≤ 54 }
    ensures outcome { result ≡ decode (length_of length) (cut (carried 54 bits) first (length_of length)) }
    ensures bound { Bounded (length_of length) result }
{
    decode(length, part(bits, first, length.bits()))
}

// An unvoiced frame: each word is checked and repaired.
fn unvoiced(bits: u64) -> Option<Accepted>
    ensures { result ≡ by_class (carried 54 bits) class.Unvoiced }
{
    let a = decoded(WordLength::Eight, bits, 0);
    let b = decoded(WordLength::Six, bits, 8);
    let c = decoded(WordLength::Seven, bits, 14);
    let d = decoded(WordLength::Seven, bits, 21);
    from_words(bits, a, b, c, d)
}

// What a frame is read as by the class of its pitch code, where the call of `unvoiced` reads an unvoiced one.
pub(crate) fn read_with<F: FnOnce() -> Option<Accepted>>(bits: u64, unvoiced: F) -> Option<Accepted>
    requires { F.pre unvoiced }
    ensures { ReadsWith (F.post unvoiced) (carried 54 bits) (class_of (pitch_bits (carried 54 bits))) result }
{
    match class_of(bits) {
        PitchClass::Unvoiced => unvoiced(),
        PitchClass::Erased => None,
        PitchClass::Voiced(pitch) => Some(voiced(bits, pitch)),
    }
}

// What the logical bits in the low 54 bits of a number are read as.
pub fn read(bits: u64) -> Option<Accepted>
    ensures { result ≡ read (carried 54 bits) }
{
    read_with(bits, || unvoiced(bits))
}
