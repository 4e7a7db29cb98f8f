// The frames of a session file and its lines, by the rule of a vector. The lines go on without end.
ghost use Rattle.std.specs.Prelude.{◌≤◌};

use crate::digits::{decimal_digit, digits_in, hex_digit};

// Byte j of the frames: the first one, each next one 11 more, and no padding bits.
pub(crate) fn frame_byte(j: usize, first: u8) -> u8 {
    let b = ((j % 256) as u8).wrapping_mul(11).wrapping_add(first);
    if j % 7 == 6 { b - b % 4 } else { b }
}

// Byte j of the lines of frames, 17 bytes each.
fn line_byte(j: usize, first: u8) -> u8 {
    let k = j % 17;
    match k {
        0 => b'f',
        1 => b'=',
        16 => b'\n',
        _ => {
            let b = frame_byte(j / 17 * 7 + k / 2 - 1, first);
            hex_digit(if k % 2 == 0 { b / 16 } else { b % 16 })
        }
    }
}

// Byte j of the three lines before the frames, whose number has so many digits.
fn header_byte(j: usize, frames: usize, digits: usize) -> u8
    requires { digits ≤ 5 }
{
    if j < 29 {
        return b"file=melp\norder=house\nframes="[j];
    }
    if j < 29 + digits {
        return decimal_digit(frames, j - 24 - digits);
    }
    b'\n'
}

// Byte j of the lines that tell so many frames.
pub(crate) fn session_byte(j: usize, frames: usize, first: u8) -> u8 {
    let digits = digits_in(frames);
    if j < 30 + digits {
        return header_byte(j, frames, digits);
    }
    line_byte(j - 30 - digits, first)
}
