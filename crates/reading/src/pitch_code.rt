// What the pitch code of a frame says, which stands in logical bits 28 to 34.
ghost use Rattle.std.specs.Prelude.{◌≡◌, ◌≤◌};
ghost use Rattle.bits.specs.Bits.{carried};
ghost use Rattle.order.specs.Fields.{pitch_bits};
ghost use Rattle.pitch.specs.Pitch.{class_of};
ghost use Rattle.reading.specs.Reading.{pitch_repaired};

use crate::parts::part;
use pitch::{PitchClass, classify};

// Its class. Seven bits are not refused.
pub(crate) fn class_of(bits: u64) -> PitchClass
    ensures { result ≡ class_of (pitch_bits (carried 54 bits)) }
{
    classify(part(bits, 28, 7)).unwrap()
}

// The repaired count of an unvoiced one: 1 where it has a single one.
pub(crate) fn pitch_repaired(bits: u64) -> u8
    ensures count { result ≡ pitch_repaired (pitch_bits (carried 54 bits)) }
    ensures bound { result ≤ 1 }
{
    u8::from(part(bits, 28, 7).count_ones() == 1)
}
