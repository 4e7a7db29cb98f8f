// The fresh record, and the test of a record.
ghost use Rattle.std.specs.Prelude.{◌≡◌};
ghost use Rattle.records.specs.Records.{fresh, in_ranges, valid};

use crate::repeats::count_repeats;
use crate::{FrameKind, Record};
use sets::{Indices, ParameterSet, is_in_range};

// The record of a receiver that no frame has reached.
#[tactic(auto, unfolding(crate::specs::Records::fresh))]
pub fn fresh() -> Record
    ensures { result ≡ fresh }
{
    Record {
        last: ParameterSet::Unvoiced(Indices {
            l1: 0,
            l2: 0,
            l3: 0,
            l4: 0,
            g2: 0,
            g1: 0,
        }),
        g2: 0,
        kinds: [FrameKind { repeat: false }; 16],
        repeats: 0,
    }
}

// Whether the last set and the last G2 are in their ranges.
pub(crate) fn in_ranges(last: ParameterSet, g2: u8) -> bool
    ensures { result ≡ in_ranges last g2 }
{
    is_in_range(last) & (g2 < 32)
}

// Whether they are, and the number of repeats is that of the kinds; a record that fails is refused.
pub fn is_valid(rec: Record) -> bool
    ensures { result ≡ valid rec }
{
    in_ranges(rec.last, rec.g2) & (rec.repeats == count_repeats(rec.kinds))
}
