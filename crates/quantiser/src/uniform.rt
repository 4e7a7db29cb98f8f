// The uniform quantiser of 5.3.7.
ghost use Rattle.std.specs.Prelude.{◌≡◌, ◌+◌, ◌*◌, ◌≤◌, pos};
ghost use Rattle.quantiser.specs.Choice.{nearest};

// The index of the level nearest to `value` among `base`, `base + step`, .., `last` steps up.
// It goes up while the value is above the threshold to the next level. Both sides are doubled, since the
// threshold lies half a step above the level.
pub(crate) fn quantise(base: u32, step: u32, last: u8, value: u32) -> u8
    requires { (1 ≤ step) × (base + last * step ≤ 100000) × (value ≤ 100000) }
    ensures equal { result ≡ nearest (λ i. base + i * step) (pos value) last }
    ensures bound { result ≤ last }
{
    let mut level = base;
    for i in 0..last {
        if 2 * value <= 2 * level + step {
            return i;
        }
        level += step;
    }
    last
}
