// Bytes put one after another.
ghost use Rattle.std.specs.Prelude.{◌≡◌, ◌+◌, ◌≤◌, ltb, length};
ghost use Rattle.text.specs.Placing.{place_answer, place_writes, end_of, Put};

use refusal::Refusal;

// Bytes to `at` and on; where they end.
pub(crate) fn append(bytes: &[u8], out: &mut [u8], at: usize) -> usize
    requires { at + length bytes.now ≤ length out.old }
    ensures { Put out.old at bytes.now out.new result }
{
    let end = at + bytes.len();
    out[at..end].copy_from_slice(bytes);
    end
}

// Whether a buffer of `size` bytes ends before a text of `length` bytes from `at` on.
pub(crate) fn is_too_short(size: usize, at: usize, length: usize) -> bool
    ensures { result ≡ ltb size (at + length) }
{
    size.checked_sub(length).is_none_or(|last| last < at)
}

// A text to `at` and on. Refused: 1, the buffer ends before the text.
pub fn place(text: &[u8], out: &mut [u8], at: usize) -> Result<usize, Refusal>
    ensures answer { result ≡ place_answer text.now at (length out.old) }
    ensures written { out.new ≡ place_writes text.now at out.old }
{
    if is_too_short(out.len(), at, text.len()) {
        return Err(Refusal::ShortOutput);
    }
    Ok(append(text, out, at))
}

// Where a text ends after the answer to a call for more of it; one that was refused leaves it at `at`.
pub fn end_of<E: Drop>(answer: Result<usize, E>, at: usize) -> usize
    ensures { result ≡ end_of answer at }
{
    answer.unwrap_or(at)
}
