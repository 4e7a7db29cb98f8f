// A record that does not hold how many of its kinds are repeats, taken over.
ghost use Rattle.std.specs.Prelude.{◌≡◌};
ghost use Rattle.records.specs.OldRecords.{old_answer, taken_over};

use crate::repeats::count_repeats;
use crate::state::in_ranges;
use crate::{OldRecord, Record, TakenOver};
use refusal::Refusal;

// Whether an old record is taken.
fn answer_of(old: OldRecord) -> Result<(), Refusal>
    ensures { result ≡ old_answer old }
{
    if in_ranges(old.last, old.g2) {
        Ok(())
    } else {
        Err(Refusal::InvalidRecord)
    }
}

// The record with the number of its repeats, all else as it was, and beside it whether the old one is taken. Refused: 4, a last
// set or a last G2 out of its range; with such a record every receiving call gives the same refusal.
pub fn take_over(old: OldRecord) -> TakenOver
    ensures { result ≡ taken_over old }
{
    let kinds = old.kinds;
    TakenOver {
        answer: answer_of(old),
        next: Record {
            last: old.last,
            g2: old.g2,
            kinds,
            repeats: count_repeats(kinds),
        },
    }
}
