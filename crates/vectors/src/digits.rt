// Digits of numbers.
ghost use Rattle.std.specs.Prelude.{◌<◌, ◌≤◌};

// Digit i of a number's last five, from 0 on and from the left.
pub(crate) fn decimal_digit(n: usize, i: usize) -> u8 {
    let left = match i {
        0 => n / 10000,
        1 => n / 1000,
        2 => n / 100,
        3 => n / 10,
        _ => n,
    };
    b'0' + (left % 10) as u8
}

// How many digits a number of at most five has. By cases: from them the bound follows at once, and from std's logarithm it
// does not.
pub(crate) fn digits_in(n: usize) -> usize
    ensures { result ≤ 5 }
{
    match n {
        0..10 => 1,
        10..100 => 2,
        100..1000 => 3,
        1000..10000 => 4,
        _ => 5,
    }
}

// A hexadecimal digit.
pub(crate) fn hex_digit(d: u8) -> u8
    requires { d < 16 }
{
    b"0123456789abcdef"[usize::from(d)]
}
