// How many of the latest sixteen frames are repeats, and mute.
ghost use Rattle.std.specs.Prelude.{◌≡◌};
ghost use Rattle.records.specs.Records.{repeats_in, muted};

use crate::FrameKind;

// How many of sixteen kinds are repeats.
pub(crate) fn count_repeats(kinds: [FrameKind; 16]) -> u8
    ensures { result ≡ repeats_in kinds }
{
    let mut repeats: u8 = 0;
    // in eight bits: by `filter` and `count`, which add in 64, the test of a record took five times as long
    for kind in &kinds {
        repeats += u8::from(kind.repeat);
    }
    repeats
}

// Whether a result is to be muted, by how many of the kinds are repeats: at least eight.
pub fn is_muted(repeats: u8) -> bool
    ensures { result ≡ muted repeats }
{
    8 <= repeats
}
