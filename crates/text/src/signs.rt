// Signed numbers.
ghost use Rattle.std.specs.Prelude.{◌≡◌, length};
ghost use Rattle.text.specs.Text.{signed};
ghost use Rattle.text.specs.Placing.{place_answer, place_writes};

use crate::Name;
use crate::fields::number;
use refusal::Refusal;

// Of the name nothing is written, or its first byte.
const MINUS: Name = *b"-...............";

// A signed number, with a minus in front of a negative one. Refused: 1, the buffer ends before the text.
pub fn signed(x: i64, out: &mut [u8], at: usize) -> Result<usize, Refusal>
    ensures answer { result ≡ place_answer (signed x) at (length out.old) }
    ensures written { out.new ≡ place_writes (signed x) at out.old }
{
    number(MINUS, usize::from(x < 0), x.unsigned_abs(), out, at)
}
