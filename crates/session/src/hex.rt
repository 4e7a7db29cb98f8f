// Bytes in hexadecimal, where there is room for them; where they end.
ghost use Rattle.std.specs.Prelude.{◌≡◌, ◌+◌, ◌≤◌, ◌<◌, length};
ghost use Rattle.text.specs.Placing.{Put};
ghost use Rattle.session.specs.Format.{hex_digit, hex_pair};

// A lower-case digit. By hand: std's digits are characters.
fn digit(d: u8) -> u8
    requires { d < 16 }
    ensures { result ≡ hex_digit d }
{
    if d < 10 { b'0' + d } else { b'a' + (d - 10) }
}

// A byte in two digits.
pub(crate) fn write_pair(b: u8, out: &mut [u8], at: usize) -> usize
    requires { at + 2 ≤ length out.old }
    ensures { Put out.old at (hex_pair b) out.new result }
{
    out[at] = digit(b / 16);
    out[at + 1] = digit(b % 16);
    at + 2
}
