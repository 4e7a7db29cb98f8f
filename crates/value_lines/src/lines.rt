// The line of a value, and of a refusal. Each is built in a buffer of line ends, so that its own stands after it. The two differ in
// the one call; a closure for it would need clauses for what it writes.
ghost use Rattle.std.specs.Prelude.{◌≡◌, ◌≤◌, length};
ghost use Rattle.text.specs.Placing.{place_answer, place_writes};
ghost use Rattle.value_lines.specs.Lines.{value_line, refusal_line};

use refusal::Refusal;
use text::{Name, end_of};

const REFUSED: Name = *b"refused=........";

// The line of a value, to `at` and on; it has at most 22 bytes. Refused: 1, the buffer ends before the line.
pub fn value_line(x: i64, out: &mut [u8], at: usize) -> Result<usize, Refusal>
    ensures answer { result ≡ place_answer (value_line x) at (length out.old) }
    ensures written { out.new ≡ place_writes (value_line x) at out.old }
    ensures bound { length (value_line x) ≤ 22 }
{
    let mut line = [b'\n'; 22];
    let end = end_of(text::signed(x, &mut line, 0), 0);
    text::place(&line[..end + 1], out, at)
}

// The line of a refusal, to `at` and on; it has at most 22 bytes. Refused: 1, the buffer ends before the line.
pub fn refusal_line(n: u8, out: &mut [u8], at: usize) -> Result<usize, Refusal>
    ensures answer { result ≡ place_answer (refusal_line n) at (length out.old) }
    ensures written { out.new ≡ place_writes (refusal_line n) at out.old }
    ensures bound { length (refusal_line n) ≤ 22 }
{
    let mut line = [b'\n'; 22];
    let end = end_of(text::byte(REFUSED, 8, n, &mut line, 0), 0);
    text::place(&line[..end + 1], out, at)
}
