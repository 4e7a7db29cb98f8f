// From two levels to their gain codes (5.3.3).
ghost use Rattle.std.specs.Prelude.{◌≡◌, true, ◌≤◌, pos, ◌+ℤ◌};
ghost use Rattle.gain.specs.Levels.{first_level};
ghost use Rattle.quantiser.specs.Choice.{level_in_range, chosen_g2, steady, chosen_g1, choose_answer};

use crate::GainCodes;
use crate::uniform::quantise;
use refusal::Refusal;

// Added to a level in range and to the levels that it is compared with, it leaves none below 0.
const RAISE: u32 = 18600;

// A level that codes are chosen for.
#[derive(Clone, Copy)]
struct Level {
    value: i32,
    ghost in_range: { level_in_range value ≡ true },
}

// The second code of a frame, and `q`, that of the frame before.
#[derive(Clone, Copy)]
struct SecondCodes {
    g2: u8,
    q: u8,
    ghost in_range: { (g2 ≤ 31) × (q ≤ 31) },
}

// The codes of a frame's first and second level, after the second code `q`. Refused: 5, a level that no codes are chosen
// for, or a `q` past 31.
pub fn choose(first: i32, second: i32, q: u8) -> Result<GainCodes, Refusal>
    ensures { result ≡ choose_answer first second q }
{
    if level_in_range(first) & level_in_range(second) & (q <= 31) {
        let g2 = Level { value: second }.second_code();
        let g1 = SecondCodes { g2, q }.first_code(Level { value: first });
        Ok(GainCodes { g2, g1 })
    } else {
        Err(Refusal::OutOfRange)
    }
}

// Whether a level is one that codes are chosen for.
fn level_in_range(x: i32) -> bool
    ensures { result ≡ level_in_range x }
{
    (-18600..=37200).contains(&x)
}

impl Level {
    // The level as an unsigned number, raised by `RAISE`.
    fn raised(self) -> u32
        ensures equal { pos result ≡ self.value +ℤ pos 18600 }
        ensures bound { result ≤ 55800 }
    {
        (self.value + RAISE as i32) as u32
    }

    // The index of the nearest of the 32 levels, which are 1860 and each 402 more, as `gain` has them.
    fn second_code(self) -> u8
        ensures equal { result ≡ chosen_g2 self.value }
        ensures bound { result ≤ 31 }
    {
        quantise(RAISE + 1860, 402, 31, self.raised())
    }
}

impl SecondCodes {
    // The level of a first code, by the call that refuses all others.
    #[tactic(auto, using(gain::proofs::Answers::first_level_answered))]
    fn level(self, code: u8) -> u32
        requires { code ≤ 7 }
        ensures { result ≡ first_level self.g2 code self.q }
    {
        gain::first_level(self.g2, code, self.q).unwrap()
    }

    // 0 for a steady frame, otherwise 1 plus the index of the nearest of the seven levels.
    fn first_code(self, first: Level) -> u8
        ensures { result ≡ chosen_g1 first.value self.g2 self.q }
    {
        if self.is_steady(first) {
            return 0;
        }
        let lowest = self.level(1);
        let step = self.level(2) - lowest;
        1 + quantise(RAISE + lowest, step, 6, first.raised())
    }

    // Whether the second levels are close, and the first level is close to their mean.
    fn is_steady(self, first: Level) -> bool
        ensures { result ≡ steady first.value self.g2 self.q }
    {
        let mean = self.level(0);
        (self.g2.abs_diff(self.q) <= 2) & (first.raised().abs_diff(RAISE + mean) <= 558)
    }
}
