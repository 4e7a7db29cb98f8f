// What an accepted frame and a repeat yield.
ghost use Rattle.std.specs.Prelude.{◌≡◌, true};
ghost use Rattle.sets.specs.Sets.{in_range};
ghost use Rattle.reading.specs.Reading.{reading_fits};
ghost use Rattle.receiver.specs.Steps.{kind_of, accepted, repeated, step};

use crate::valid::ValidRecord;
use crate::{FrameResult, Kind, Received};
use reading::Accepted;
use records::is_muted;
use sets::{ParameterSet, indices_of};

// The kind of an accepted frame.
impl From<ParameterSet> for Kind {
    ghost from_gives = { λ set kind. kind ≡ kind_of set };

    fn from(set: ParameterSet) -> Kind {
        match set {
            ParameterSet::Unvoiced(_) => Kind::Unvoiced,
            ParameterSet::Voiced(_, _) => Kind::Voiced,
        }
    }
}

impl ValidRecord {
    // An accepted frame: its set is the result. The first level goes by the G2 accepted before, which the record holds. That
    // the set is in range is asked here and of `step`, as of `step_unless_refused`, which says why.
    fn accept(self, sync: bool, read: Accepted) -> Received
        requires { in_range read.set ≡ true }
        ensures { result ≡ accepted self.rec sync read.set read.repaired }
    {
        let Accepted { set, repaired } = read;
        let x = indices_of(set);
        let next = self.after_accepted(set);
        Received {
            answer: Ok(FrameResult {
                kind: Kind::from(set),
                set,
                first: gain::first_level(x.g2, x.g1, self.rec.g2).unwrap(),
                second: gain::level(x.g2).unwrap(),
                mute: is_muted(next.repeats),
                sync,
                repaired,
            }),
            next,
        }
    }

    // A repeat: the last set is the result, at the level of the last G2.
    fn repeat(self, sync: bool) -> Received
        ensures { result ≡ repeated self.rec sync }
    {
        let level = gain::level(self.rec.g2).unwrap();
        let next = self.after_repeat();
        Received {
            answer: Ok(FrameResult {
                kind: Kind::Repeat,
                set: self.rec.last,
                first: level,
                second: level,
                mute: is_muted(next.repeats),
                sync,
                repaired: 0,
            }),
            next,
        }
    }

    // A frame by what its bits are read as: an erased one is a repeat.
    pub(crate) fn step(self, sync: bool, reading: Option<Accepted>) -> Received
        requires { reading_fits reading ≡ true }
        ensures { result ≡ step self.rec sync reading }
    {
        match reading {
            Some(read) => self.accept(sync, read),
            None => self.repeat(sync),
        }
    }
}
