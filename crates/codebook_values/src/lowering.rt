// Values lowered from the top down, so that the tenth is at most 3,950 Hz (document 02, T-03).
ghost use Rattle.std.specs.Prelude.{◌≡◌, ◌++◌, ◌≤◌, length, take, drop};
ghost use Rattle.codebook_values.specs.Values.{spacing, highest, lowered};
ghost use Rattle.codebook_values.specs.Spacing.{Spaced};

use crate::raising::SPACING;

// 3,950 Hz: the most that the tenth value may be.
const HIGHEST: i64 = 3_950_000_000;

// The ten values in front of `out`, which are raised, each lowered to at most what is asked of it. `out` is whole, as in
// `write_raised`.
pub(crate) fn lower(out: &mut [i64])
    requires in_bounds { 10 ≤ length out.old }
    requires spaced { Spaced spacing (take 10 out.old) }
    ensures { out.new ≡ lowered highest (take 10 out.old) ++ drop 10 out.old }
{
    let mut most = HIGHEST;
    // by index: a proof knows nothing of what a reversed `iter_mut` left in the buffer
    for at in (0..10).rev() {
        let value = out[at].min(most);
        out[at] = value;
        most = value - SPACING;
    }
}
