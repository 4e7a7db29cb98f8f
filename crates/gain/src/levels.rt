// From gain codes to levels (5.3.3).
ghost use Rattle.std.specs.Prelude.{◌≡◌, ◌+◌, ◌*◌, min};
ghost use Rattle.gain.specs.Levels.{level, apart, mean, first_level, level_answer, first_level_answer};

use refusal::Refusal;

// The second code of a frame, and `q`, that of the frame before.
#[derive(Clone, Copy)]
struct SecondCodes {
    g2: u8,
    q: u8,
}

// The level of a second code in units of 1/186 dB, by the formula alone.
fn level_of(g2: u8) -> u32
    ensures { result ≡ level g2 }
{
    1860 + 402 * u32::from(g2)
}

// The level of a second code. Refused: 5, a code past 31.
#[tactic(auto, using(crate::proofs::Answers::level_answered), unfolding(crate::specs::Levels::level_answer))]
pub fn level(g2: u8) -> Result<u32, Refusal>
    ensures { result ≡ level_answer g2 }
{
    if 31 < g2 {
        return Err(Refusal::OutOfRange);
    }
    Ok(level_of(g2))
}

// The first level of a frame. Refused: 5, a code out of range.
#[tactic(auto, using(crate::proofs::Answers::first_level_answered), unfolding(crate::specs::Levels::first_level_answer))]
pub fn first_level(g2: u8, code: u8, q: u8) -> Result<u32, Refusal>
    ensures { result ≡ first_level_answer g2 code q }
{
    if (g2 <= 31) & (code <= 7) & (q <= 31) {
        Ok(SecondCodes { g2, q }.first(code))
    } else {
        Err(Refusal::OutOfRange)
    }
}

impl SecondCodes {
    // The first level of a code, by the formula alone.
    fn first(self, code: u8) -> u32
        ensures { result ≡ first_level self.g2 code self.q }
    {
        if code == 0 {
            return self.mean();
        }
        self.smaller() - 1116 + (u32::from(code) - 1) * self.step()
    }

    // The mean of both levels: what code 0 stands for.
    fn mean(self) -> u32
        ensures { result ≡ mean self.g2 self.q }
    {
        (level_of(self.g2) + level_of(self.q)) / 2
    }

    // The smaller of both levels: the seven levels of codes 1 to 7 start below it.
    fn smaller(self) -> u32
        ensures { result ≡ min (level self.g2) (level self.q) }
    {
        level_of(self.g2).min(level_of(self.q))
    }

    // The step between the seven levels of codes 1 to 7.
    fn step(self) -> u32
        ensures { result ≡ 67 * apart self.g2 self.q + 372 }
    {
        67 * u32::from(self.g2.abs_diff(self.q)) + 372
    }
}
