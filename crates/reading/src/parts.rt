// Parts of 54 logical bits, carried in one number. Logical bit 0 is the most significant. They stay a plain number, which the
// calls of `order` give and those of this crate take.
ghost use Rattle.std.specs.Prelude.{◌≡◌, ◌+◌, ◌≤◌, ◌<◌, ◌^◌};
ghost use Rattle.bits.specs.Bits.{value, cut, carried};
ghost use Rattle.reading.specs.Reading.{indices_of, voicing_of};

use sets::{Indices, Voicing};

// The number that `count` logical bits from `first` on stand for.
pub(crate) fn part(bits: u64, first: usize, count: usize) -> u8
    requires { (first + count ≤ 54) × (count ≤ 8) }
    ensures part { result ≡ value (cut (carried 54 bits) first count) }
    ensures bound { result < 2 ^ count }
{
    ((bits >> (54 - first - count)) % (1 << count)) as u8
}

// The indices of every set, from the data of the four words and the other bits.
pub(crate) fn indices(bits: u64, a: u8, b: u8, c: u8, d: u8) -> Indices
    requires { (a < 16) × (b < 8) × (c < 16) × (d < 16) }
    ensures { result ≡ indices_of (carried 54 bits) a b c d }
{
    Indices {
        l1: a * 8 + b,
        l2: part(bits, 35, 6),
        l3: part(bits, 41, 6),
        l4: part(bits, 47, 6),
        g2: c * 2 + d / 8,
        g1: d % 8,
    }
}

// What a voiced set has besides, from the parity places of its words and its pitch index.
pub(crate) fn voicing(bits: u64, pitch: u8) -> Voicing
    ensures { result ≡ voicing_of (carried 54 bits) pitch }
{
    let fourier = part(bits, 11, 3) * 32 + (part(bits, 18, 3) * 4 + part(bits, 25, 2));
    Voicing {
        pitch,
        bandpass: part(bits, 4, 4),
        fourier,
        aperiodic: part(bits, 27, 1),
    }
}
