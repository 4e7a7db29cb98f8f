// The text of a vector by its rule: so many bytes of a plain text with one change in it.
ghost use Rattle.std.specs.Prelude.{◌<◌, length};

use crate::digits::decimal_digit;
use crate::session_texts::session_byte;
use crate::vector::Vector;

// Byte j of the lines 0000, 0001, 0002 and so on, each with its end.
fn numbered_byte(j: usize) -> u8 {
    let k = j % 5;
    if k == 4 {
        b'\n'
    } else {
        decimal_digit(j / 5, k + 1)
    }
}

// Byte j of the plain text: these lines in kinds 20 and 21, otherwise those of a session file. The kind tells, since a vector
// has its text by it; a closure would be handed down through each caller of `write_text`, and say no more.
fn plain_byte(vector: &Vector, j: usize) -> u8 {
    if vector.kind() < 22 {
        return numbered_byte(j);
    }
    session_byte(j, vector.number(7, 2), vector.byte(9))
}

// Byte j of this text after a change: from `at` on, `skipped` bytes go out and the given ones come in.
fn changed_byte(vector: &Vector, j: usize, at: usize, skipped: usize, given: &[u8]) -> u8
    requires { (j < 65536) × (skipped < 256) }
{
    if j < at {
        return plain_byte(vector, j);
    }
    if j - at < given.len() {
        return given[j - at];
    }
    plain_byte(vector, j - given.len() + skipped)
}

// The text to the front of a buffer, by bytes 1 to 6 and those from 74 on.
pub(crate) fn write_text<'a>(vector: &Vector, buffer: &'a mut [u8; 65536]) -> &'a [u8]
    ensures { length result.now < 65536 }
{
    let size = vector.number(1, 2);
    let at = vector.number(3, 2);
    let skipped = vector.number(5, 1);
    let given = vector.part(74, vector.number(6, 1));
    for (j, b) in buffer[..size].iter_mut().enumerate() {
        *b = changed_byte(vector, j, at, skipped, given);
    }
    &buffer[..size]
}
