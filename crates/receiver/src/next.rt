// The record after a frame.
ghost use Rattle.std.specs.Prelude.{◌≡◌};
ghost use Rattle.records.specs.Records.{repeats_in, counted};
ghost use Rattle.receiver.specs.Next.{pushed, after_accepted, after_repeat};

use crate::valid::ValidRecord;
use records::{FrameKind, Record};
use sets::{ParameterSet, indices_of};

// The kinds after one frame more: each moves a place to the front, so that the oldest goes out and this one is the latest.
fn push(kinds: [FrameKind; 16], kind: FrameKind) -> [FrameKind; 16]
    ensures { result ≡ pushed kinds kind }
{
    let mut next = [kind; 16];
    next[..15].copy_from_slice(&kinds[1..]);
    next
}

impl ValidRecord {
    // How many are repeats after one frame more, by the number before and the kinds that go out and in.
    fn repeats_after(self, latest: FrameKind) -> u8
        ensures { result ≡ repeats_in (pushed self.rec.kinds latest) }
    {
        let oldest = self.rec.kinds[0];
        self.rec.repeats - u8::from(oldest.repeat) + u8::from(latest.repeat)
    }

    // The record with this set and G2 as the last ones, after one frame more of this kind.
    fn after(self, last: ParameterSet, g2: u8, kind: FrameKind) -> Record
        ensures { result ≡ counted last g2 (pushed self.rec.kinds kind) }
    {
        Record {
            last,
            g2,
            kinds: push(self.rec.kinds, kind),
            repeats: self.repeats_after(kind),
        }
    }

    // The record after an accepted frame: its set and its G2 become the last ones.
    pub(crate) fn after_accepted(self, set: ParameterSet) -> Record
        ensures { result ≡ after_accepted self.rec set }
    {
        self.after(set, indices_of(set).g2, FrameKind { repeat: false })
    }

    // The record after a repeat: last set and G2 stay.
    pub(crate) fn after_repeat(self) -> Record
        ensures { result ≡ after_repeat self.rec }
    {
        self.after(self.rec.last, self.rec.g2, FrameKind { repeat: true })
    }
}
