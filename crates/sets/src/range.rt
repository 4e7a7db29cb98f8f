// A set's indices, and their ranges.
ghost use Rattle.std.specs.Prelude.{◌≡◌};
ghost use Rattle.sets.specs.Sets.{indices_in, indices_fit, voicing_fits, in_range, sendable};

use crate::{Indices, ParameterSet, Voicing};

// The six indices of a set.
pub fn indices_of(set: ParameterSet) -> Indices
    ensures { result ≡ indices_in set }
{
    match set {
        ParameterSet::Unvoiced(x) => x,
        ParameterSet::Voiced(x, _) => x,
    }
}

// The ranges of the six.
fn indices_fit(x: Indices) -> bool
    ensures { result ≡ indices_fit x }
{
    (x.l1 < 128) & (x.l2 < 64) & (x.l3 < 64) & (x.l4 < 64) & (x.g2 < 32) & (x.g1 < 8)
}

// The four of a voiced set; a Fourier index has eight bits, so it always fits.
fn voicing_fits(v: Voicing) -> bool
    ensures { result ≡ voicing_fits v }
{
    (v.pitch < 99) & (v.bandpass < 16) & (v.aperiodic < 2)
}

// Whether every index is in its range: what a receiver's record may hold.
pub fn is_in_range(set: ParameterSet) -> bool
    ensures { result ≡ in_range set }
{
    match set {
        ParameterSet::Unvoiced(x) => indices_fit(x),
        ParameterSet::Voiced(x, v) => indices_fit(x) & voicing_fits(v),
    }
}

// Whether a sender takes the set: every index in its range, and not the bandpass bits 0001.
pub fn is_sendable(set: ParameterSet) -> bool
    ensures { result ≡ sendable set }
{
    match set {
        ParameterSet::Unvoiced(_) => is_in_range(set),
        ParameterSet::Voiced(_, v) => is_in_range(set) & (v.bandpass != 1),
    }
}
