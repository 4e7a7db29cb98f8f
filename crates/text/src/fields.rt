// A name, and what stands after it. A name has 16 bytes: a width above that is all of it.
ghost use Rattle.std.specs.Prelude.{◌≡◌, ◌≤◌, ◌++◌, length, take};
ghost use Rattle.text.specs.Text.{decimal};
ghost use Rattle.text.specs.Placing.{place_answer, place_writes};

use crate::Name;
use crate::bytes::{append, is_too_short, place};
use crate::decimal::{write_decimal, write_short};
use refusal::Refusal;

// The first `width` bytes of a name.
fn front(name: &Name, width: usize) -> &[u8]
    ensures { result.now ≡ take width name.now }
{
    &name[..width.min(16)]
}

// The first `width` bytes of a name. Refused: 1, the buffer ends before the text.
pub fn name(name: Name, width: usize, out: &mut [u8], at: usize) -> Result<usize, Refusal>
    ensures answer { result ≡ place_answer (take width name) at (length out.old) }
    ensures written { out.new ≡ place_writes (take width name) at out.old }
{
    place(front(&name, width), out, at)
}

// A name, and a number after it. Refused: 1, the buffer ends before the text. Where there is room for the longest number, it is
// written there straight away.
pub fn number(name: Name, width: usize, n: u64, out: &mut [u8], at: usize) -> Result<usize, Refusal>
    ensures answer { result ≡ place_answer (take width name ++ decimal n) at (length out.old) }
    ensures written { out.new ≡ place_writes (take width name ++ decimal n) at out.old }
{
    let text = front(&name, width);
    if is_too_short(out.len(), at, text.len() + 20) {
        return put_exactly(text, n, out, at);
    }
    let digits = append(text, out, at);
    Ok(write_decimal(n, out, digits))
}

// The same of a number of one byte, which has at most three digits. Refused: 1, the buffer ends before the text. It is not one
// function with `number`: with `write_short` alone the compiler builds it in whole.
pub fn byte(name: Name, width: usize, n: u8, out: &mut [u8], at: usize) -> Result<usize, Refusal>
    ensures answer { result ≡ place_answer (take width name ++ decimal n) at (length out.old) }
    ensures written { out.new ≡ place_writes (take width name ++ decimal n) at out.old }
{
    let text = front(&name, width);
    if is_too_short(out.len(), at, text.len() + 3) {
        return put_exactly(text, u64::from(n), out, at);
    }
    let digits = append(text, out, at);
    Ok(write_short(u64::from(n), out, digits))
}

// A text of at most 16 bytes, and a number after it, by way of a buffer of its own.
fn put_exactly(name: &[u8], n: u64, out: &mut [u8], at: usize) -> Result<usize, Refusal>
    requires { length name.now ≤ 16 }
    ensures answer { result ≡ place_answer (name.now ++ decimal n) at (length out.old) }
    ensures written { out.new ≡ place_writes (name.now ++ decimal n) at out.old }
{
    let mut line = [0u8; 36];
    let digits = append(name, &mut line, 0);
    let end = write_decimal(n, &mut line, digits);
    place(&line[..end], out, at)
}
