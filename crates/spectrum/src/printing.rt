// What the program prints for what it has read.
ghost use Rattle.std.specs.Prelude.{◌≡◌, ◌≤◌, length, take};
ghost use Rattle.std.specs.Counts.{IsPrefixLen};
ghost use Rattle.spectrum.specs.Output.{Prints};

use crate::lines::write_text;
use crate::values::of_frame;

// All that is printed, to the front of `out`, and how many bytes it is. Each input is lent in a buffer of its own
// size, with how many bytes of it came: a slice of what came would say nothing of `main` reading enough of it.
pub(crate) fn write_printed(
    input: &[u8; 8],
    n: usize,
    lsf: &[u8; 65536],
    l: usize,
    magnitudes: &[u8; 65536],
    m: usize,
    out: &mut [u8; 512],
) -> usize
    requires { IsPrefixLen n input.now × IsPrefixLen l lsf.now × IsPrefixLen m magnitudes.now }
    ensures printed { Prints input.now n lsf.now l magnitudes.now m (take result out.new) }
    ensures size { IsPrefixLen result out.new }
{
    let spectrum = of_frame(front(input, n), front(lsf, l), front(magnitudes, m));
    write_text(spectrum, out)
}

// The first n bytes of a buffer.
fn front(bytes: &[u8], n: usize) -> &[u8]
    requires { n ≤ length bytes.now }
    ensures { result.now ≡ take n bytes.now }
{
    &bytes[..n]
}
