// Values as text: one number a line, or the line of a refusal.
ghost use Rattle.std.specs.Prelude.{◌≡◌, ◌+◌, ◌≤◌, length, take};
ghost use Rattle.std.specs.Counts.{IsPrefixLen};
ghost use Rattle.text.specs.Placing.{Appended};
ghost use Rattle.spectrum.specs.Lines.{lines, text};

use crate::values::Spectrum;
use refusal::Refusal;
use text::end_of;
use value_lines::{refusal_line, value_line};

// All that the program prints, to the front of a buffer; how many bytes it is.
pub(crate) fn write_text(spectrum: Result<Spectrum, Refusal>, out: &mut [u8; 512]) -> usize
    ensures printed { take result out.new ≡ text spectrum }
    ensures size { IsPrefixLen result out.new }
{
    match spectrum {
        Ok(values) => {
            let at = write_lines(&values.lsf, out, 0);
            write_lines(&values.magnitudes, out, at)
        }
        Err(refusal) => end_of(refusal_line(refusal.number(), out, 0), 0),
    }
}

// Ten numbers, a line for each, from `at` on; where they end. The place goes beside the buffer, as in `value_line`,
// which it calls.
fn write_lines(numbers: &[i64; 10], out: &mut [u8], at: usize) -> usize
    requires { at + 220 ≤ length out.old }
    ensures lines { Appended out.old at (lines numbers.now) out.new result }
    ensures bound { result ≤ at + 220 }
{
    let mut end = at;
    for &number in numbers {
        end = end_of(value_line(number, out, end), end);
    }
    end
}
