// The 54 logical bits of a set and a sync bit, as one number: logical bit 0 is the most significant.
ghost use Rattle.std.specs.Prelude.{◌≡◌, true, ◌+◌, ◌*◌, ◌<◌, ◌^◌};
ghost use Rattle.bits.specs.Bits.{value, bits};
ghost use Rattle.sets.specs.declared.Indices.{Indices};
ghost use Rattle.sets.specs.Sets.{indices_fit, voicing_fits, sendable};
ghost use Rattle.frame.specs.Layout.{unvoiced_words, voiced_words, others, logical};
ghost use Rattle.frame.specs.Parities.{words_with};

use crate::parities::Parities;
use hamming::{WordLength, parity_of};
use sets::{Indices, ParameterSet, Voicing};

// 2 to the 26th: it moves the words above the other bits.
const ABOVE: u64 = 0x400_0000;

// Words of 8, 6, 7 and 7 bits as one number.
fn joined(a: u8, b: u8, c: u8, d: u8) -> u64
    requires { (b < 64) × (c < 128) × (d < 128) }
    ensures number { result ≡ ((a * 64 + b) * 128 + c) * 128 + d }
    ensures bound { result < 2 ^ 28 }
{
    ((u64::from(a) * 64 + u64::from(b)) * 128 + u64::from(c)) * 128 + u64::from(d)
}

// The parity places of a voiced set: bandpass bits, Fourier index and flag.
fn voiced_parities(v: Voicing) -> Parities
    requires { voicing_fits v ≡ true }
    ensures { (x : Indices) → words_with x result ≡ voiced_words x v }
{
    let f = v.fourier;
    Parities {
        a: v.bandpass,
        b: f / 32,
        c: f / 4 % 8,
        d: f % 4 * 2 + v.aperiodic,
    }
}

// A set's indices, all in their ranges.
#[derive(Clone, Copy)]
struct Fitting {
    x: Indices,
    ghost fits: { indices_fit x ≡ true },
}

impl Fitting {
    // The four words, 28 bits: each word's data above what stands in its parity places.
    fn four_words(self, parities: Parities) -> u64
        ensures number { result ≡ value (words_with self.x parities) }
        ensures bound { result < 2 ^ 28 }
    {
        let x = self.x;
        let a = x.l1 / 8 * 16 + parities.a;
        let b = x.l1 % 8 * 8 + parities.b;
        let c = x.g2 / 2 * 8 + parities.c;
        let d = (x.g2 % 2 * 8 + x.g1) * 8 + parities.d;
        joined(a, b, c, d)
    }

    // The other bits, 26 of them: the pitch code, L2, L3, L4 and the sync bit.
    fn other_bits(self, code: u8, sync: bool) -> u64
        requires { code < 128 }
        ensures number { result ≡ value (others self.x (bits 7 code) sync) }
        ensures bound { result < 2 ^ 26 }
    {
        let x = self.x;
        let spectrum = (u64::from(x.l2) * 64 + u64::from(x.l3)) * 64 + u64::from(x.l4);
        (u64::from(code) * 0x4_0000 + spectrum) * 2 + u64::from(sync)
    }

    // The parity places of an unvoiced set: the parity of the data.
    fn unvoiced_parities(self) -> Parities
        ensures { words_with self.x result ≡ unvoiced_words self.x }
    {
        let x = self.x;
        Parities {
            a: parity_of(WordLength::Eight, x.l1 / 8),
            b: parity_of(WordLength::Six, x.l1),
            c: parity_of(WordLength::Seven, x.g2 / 2),
            d: parity_of(WordLength::Seven, x.g2 % 2 * 8 + x.g1),
        }
    }
}

// All 54 bits.
pub(crate) fn logical_number(set: ParameterSet, sync: bool) -> u64
    requires { sendable set ≡ true }
    ensures { result ≡ value (logical set sync) }
{
    match set {
        ParameterSet::Unvoiced(x) => {
            let indices = Fitting { x };
            indices.four_words(indices.unvoiced_parities()) * ABOVE + indices.other_bits(0, sync)
        }
        ParameterSet::Voiced(x, v) => {
            let indices = Fitting { x };
            let code = pitch::encode(v.pitch).unwrap();
            indices.four_words(voiced_parities(v)) * ABOVE + indices.other_bits(code, sync)
        }
    }
}
