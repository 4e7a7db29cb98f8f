// Sums of four rows, raised so that neighbours lie apart (MIL-STD-3005, 5.3.4).
ghost use Rattle.std.specs.Prelude.{◌≡◌, ◌++◌, ◌≤◌, length, drop};
ghost use Rattle.codebook_values.specs.Values.{spacing, raised};
ghost use Rattle.codebook_values.specs.Sums.{sums};

use crate::rows::Rows;

// 50 Hz: the least that component 1 may be, and the least that two neighbours may lie apart.
pub(crate) const SPACING: i64 = 50_000_000;

// The sums of a set's rows to the front of `out`, each raised to at least what is asked of it. `out` is lent whole: its
// first ten by `first_chunk_mut` would be an `Option` to take apart after the room has been tested, and no plainer.
pub(crate) fn write_raised(rows: &Rows<'_>, out: &mut [i64])
    requires { 10 ≤ length out.old }
    ensures { out.new ≡ raised spacing (sums rows.now) ++ drop 10 out.old }
{
    let mut least = SPACING;
    // by index: four rows are read where a value is written
    for k in 0..10 {
        let value = rows.sum_at(k).max(least);
        out[k] = value;
        least = value + SPACING;
    }
}
