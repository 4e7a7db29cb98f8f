// A codebook from its text form: one whole number a line. The text is checked as a whole before the first number is
// written, so that a refused text leaves the buffer as it was.
ghost use Rattle.std.specs.Prelude.{◌≡◌, true, is_some, IfSome, length};
ghost use Rattle.codebook_text.specs.Text.{line_of, is_ended, after_line, is_lines, numbers, text_answer, text_writes};

use crate::line::{is_number, number};
use refusal::Refusal;

// The LSF codebook (MIL-STD-3005, 5.3.4) from its text, 3,200 lines. Refused: 6, a buffer of another size or any other text.
pub fn read_lsf(text: &[u8], codebook: &mut [i64]) -> Result<(), Refusal>
    ensures answer { result ≡ text_answer 3200 text.now (length codebook.old) }
    ensures written { codebook.new ≡ text_writes 3200 text.now codebook.old }
{
    read(text, codebook, 3200)
}

// The codebook of magnitudes (5.3.5) from its text, 2,560 lines. Refused: 6, a buffer of another size or any other text.
pub fn read_magnitudes(text: &[u8], codebook: &mut [i64]) -> Result<(), Refusal>
    ensures answer { result ≡ text_answer 2560 text.now (length codebook.old) }
    ensures written { codebook.new ≡ text_writes 2560 text.now codebook.old }
{
    read(text, codebook, 2560)
}

// A codebook of `size` numbers.
fn read(text: &[u8], codebook: &mut [i64], size: usize) -> Result<(), Refusal>
    ensures answer { result ≡ text_answer size text.now (length codebook.old) }
    ensures written { codebook.new ≡ text_writes size text.now codebook.old }
{
    if codebook.len() != size {
        return Err(Refusal::InvalidCodebook);
    }
    if is_lines(text, size) {
        fill(text, codebook);
        Ok(())
    } else {
        Err(Refusal::InvalidCodebook)
    }
}

// Whether a text is `n` good lines, each ended, and nothing more.
fn is_lines(text: &[u8], n: usize) -> bool
    ensures { result ≡ is_lines n text.now }
{
    let mut rest = text;
    for _ in 0..n {
        let Some((line, after)) = first_line(rest) else {
            return false;
        };
        if !is_number(line) {
            return false;
        }
        rest = after;
    }
    rest.is_empty()
}

// The numbers of a text that has a good line for each place of the buffer.
fn fill(text: &[u8], codebook: &mut [i64])
    requires { is_lines (length codebook.old) text.now ≡ true }
    ensures { codebook.new ≡ numbers (length codebook.old) text.now }
{
    let mut rest = text;
    for entry in codebook.iter_mut() {
        let (line, after) = first_line(rest).unwrap();
        *entry = number(line);
        rest = after;
    }
}

// The first line of a text, without its end, and what follows it; none where no line is ended.
fn first_line(text: &[u8]) -> Option<(&[u8], &[u8])>
    ensures ended { is_some result ≡ is_ended text.now }
    ensures parts { IfSome result (λ p. (p.0.now ≡ line_of text.now) × (p.1.now ≡ after_line text.now)) }
{
    let end = text.iter().position(|&c| c == b'\n')?;
    Some((&text[..end], &text[end + 1..]))
}
