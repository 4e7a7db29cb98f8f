// Numbers in decimal, where there is room for them; where they end. The room for the digits is asked of each function.
ghost use Rattle.std.specs.Prelude.{◌≡◌, ◌+◌, ◌/◌, ◌%◌, ◌≤◌, ◌<◌, [], ◌∷◌, length};
ghost use Rattle.bits.specs.Ascii.{digit_byte};
ghost use Rattle.text.specs.Text.{decimal};
ghost use Rattle.text.specs.Placing.{Put};

// The last two digits of a number, with a zero in front of a single one. Both are made as one number, the first in its low byte: so
// the compiler stores them at once. 48 is `b'0'`.
fn write_pair(n: u64, out: &mut [u8], at: usize) -> usize
    requires { at + 2 ≤ length out.old }
    ensures { Put out.old at (digit_byte (n % 100 / 10) ∷ digit_byte (n % 100 % 10) ∷ []) out.new result }
{
    let pair = n % 100;
    let digits = 48 + pair / 10 + 256 * (48 + pair % 10);
    out[at] = (digits % 256) as u8;
    out[at + 1] = (digits / 256) as u8;
    at + 2
}

// A number below a hundred.
fn write_small(n: u64, out: &mut [u8], at: usize) -> usize
    requires { (n < 100) × (at + length (decimal n) ≤ length out.old) }
    ensures { Put out.old at (decimal n) out.new result }
{
    if n < 10 {
        out[at] = b'0' + n as u8;
        return at + 1;
    }
    write_pair(n, out, at)
}

// A number of three or four digits. Four are two pairs, side by side.
fn write_hundreds(n: u64, out: &mut [u8], at: usize) -> usize
    requires { (100 ≤ n) × (n < 10000) × (at + length (decimal n) ≤ length out.old) }
    ensures { Put out.old at (decimal n) out.new result }
{
    if n < 1000 {
        let end = write_small(n / 100, out, at);
        return write_pair(n, out, end);
    }
    let end = write_pair(n / 100, out, at);
    write_pair(n, out, end)
}

// A number of up to four digits.
pub(crate) fn write_short(n: u64, out: &mut [u8], at: usize) -> usize
    requires { (n < 10000) × (at + length (decimal n) ≤ length out.old) }
    ensures { Put out.old at (decimal n) out.new result }
{
    if n < 100 {
        return write_small(n, out, at);
    }
    write_hundreds(n, out, at)
}

// A number of three digits or more.
fn write_long(n: u64, out: &mut [u8], at: usize) -> usize
    requires { (100 ≤ n) × (at + length (decimal n) ≤ length out.old) }
    ensures { Put out.old at (decimal n) out.new result }
{
    if n < 10000 {
        return write_hundreds(n, out, at);
    }
    let end = write_long(n / 100, out, at);
    write_pair(n, out, end)
}

// A number. Those of up to six digits are the common ones, and take no recursion.
pub(crate) fn write_decimal(n: u64, out: &mut [u8], at: usize) -> usize
    requires { at + length (decimal n) ≤ length out.old }
    ensures { Put out.old at (decimal n) out.new result }
{
    if n < 10000 {
        return write_short(n, out, at);
    }
    if n < 1000000 {
        let end = write_hundreds(n / 100, out, at);
        return write_pair(n, out, end);
    }
    write_long(n, out, at)
}
