// The first and the last line of a call. The last is built in a buffer of line ends, so that its own stands after it.
ghost use Rattle.std.specs.Prelude.{◌≡◌, ◌≤◌, length};
ghost use Rattle.text.specs.Placing.{place_answer, place_writes, PutIfRoom};
ghost use Rattle.report.specs.Lines.{counts, first_line, last_line};

use crate::line::Line;
use refusal::Refusal;
use text::Name;

const FRAMES: Name = *b"frames=.........";

const REPEATS: Name = *b" repeats=.......";

const LEFT: Name = *b" left=..........";

// The first line, to `at` and on. Refused: 1, the buffer ends before the line.
pub fn first_line(out: &mut [u8], at: usize) -> Result<usize, Refusal>
    ensures answer { result ≡ place_answer first_line at (length out.old) }
    ensures written { out.new ≡ place_writes first_line at out.old }
{
    text::place(b"grain=186 order=house\n", out, at)
}

// The last line, to `at` and on; it has at most 144 bytes. Refused: 1, the buffer ends before the line.
pub fn last_line(
    frames: u64,
    repeats: u64,
    left: u64,
    out: &mut [u8],
    at: usize,
) -> Result<usize, Refusal>
    ensures answer { result ≡ place_answer (last_line frames repeats left) at (length out.old) }
    ensures written { out.new ≡ place_writes (last_line frames repeats left) at out.old }
    ensures bound { length (last_line frames repeats left) ≤ 144 }
{
    let mut line = [b'\n'; 144];
    let end = put_counts(frames, repeats, left, &mut line);
    text::place(&line[..end + 1], out, at)
}

// The three counts at the front of a lent buffer; where they end.
fn put_counts(frames: u64, repeats: u64, left: u64, out: &mut [u8]) -> usize
    ensures put { PutIfRoom out.old 0 (counts frames repeats left) out.new result }
    ensures bound { length (counts frames repeats left) ≤ 82 }
{
    let mut line = Line { out, end: 0 };
    line.number(FRAMES, 7, frames);
    line.number(REPEATS, 9, repeats);
    line.number(LEFT, 6, left);
    line.end
}
