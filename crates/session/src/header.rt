// The three lines before the frames.
ghost use Rattle.std.specs.Prelude.{◌≡◌, ◌+◌, ◌≤◌, length};
ghost use Rattle.text.specs.Text.{decimal};
ghost use Rattle.text.specs.Placing.{Put};
ghost use Rattle.session.specs.Format.{header};

use text::{Name, end_of};

const FRAMES: Name = *b"frames=.........";

// How many digits a number of at most four has. By cases: with `checked_ilog10` and `map_or` it was tried, and the proof did not close.
fn digits_in(n: usize) -> usize
    requires { n ≤ 9999 }
    ensures { result ≡ length (decimal n) }
{
    match n {
        0..=9 => 1,
        10..=99 => 2,
        100..=999 => 3,
        _ => 4,
    }
}

// How long the three lines are.
pub(crate) fn header_size(n: usize) -> usize
    requires { n ≤ 9999 }
    ensures { result ≡ length (header n) }
{
    30 + digits_in(n)
}

// The three lines, where there is room for them; where they end.
pub(crate) fn write_header(n: usize, out: &mut [u8]) -> usize
    requires { length (header n) ≤ length out.old }
    ensures { Put out.old 0 (header n) out.new result }
{
    let count = end_of(text::place(b"file=melp\norder=house\n", out, 0), 0);
    let digits = end_of(text::number(FRAMES, 7, n as u64, out, count), count);
    end_of(text::place(b"\n", out, digits), digits)
}
