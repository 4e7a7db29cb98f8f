// The line of a frame.
ghost use Rattle.std.specs.Prelude.{◌≡◌, true, false, ◌+◌, ◌*◌, ◌≤◌, MatchOption};
ghost use Rattle.session_lines.specs.Lines.{line_at, is_hex, hex_value, all_hex, hex_bytes, is_frame_line, frame_of, frame_read};

use refusal::Refusal;

// Whether a byte is a lower-case hexadecimal digit; by `|` and `&`, without a branch for `all_hex`.
fn is_hex(c: u8) -> bool
    ensures { result ≡ is_hex c }
{
    c.is_ascii_digit() | ((b'a' <= c) & (c <= b'f'))
}

// Nothing but such digits. There is no early end: so the compiler tests many at once.
fn all_hex(digits: &[u8]) -> bool
    ensures { result ≡ all_hex digits.now }
{
    digits.iter().fold(true, |all, c| all & is_hex(*c))
}

// The value of such a digit. By hand: std's digits are characters, of both cases.
fn hex_value(c: u8) -> u8
    requires { is_hex c ≡ true }
    ensures equal { result ≡ hex_value c }
    ensures bound { result ≤ 15 }
{
    if c < b'a' { c - b'0' } else { c - b'a' + 10 }
}

// The byte of two such digits.
fn hex_byte(high: u8, low: u8) -> u8
    requires { (is_hex high ≡ true) × (is_hex low ≡ true) }
    ensures { result ≡ 16 * hex_value high + hex_value low }
{
    16 * hex_value(high) + hex_value(low)
}

// The seven bytes of 14 digits. It is called and not copied into its caller: so the compiler makes many at once.
// By index: a proof knows nothing of what a zipped `iter_mut` left in the frame.
#[inline(never)]
fn seven_bytes(digits: &[u8; 14]) -> [u8; 7]
    requires { all_hex digits.now ≡ true }
    ensures { result ≡ hex_bytes digits.now }
{
    let mut frame = [0u8; 7];
    let (pairs, _) = digits.as_chunks::<2>();
    for (i, [high, low]) in pairs.iter().enumerate() {
        frame[i] = hex_byte(*high, *low);
    }
    frame
}

// The 14 digits of the line from `at` on, where it is that of a frame.
fn digits_at(text: &[u8], at: usize) -> Option<&[u8; 14]>
    ensures { MatchOption result (is_frame_line (line_at text.now at) ≡ false) (λ digits. (is_frame_line (line_at text.now at) ≡ true) × (all_hex digits.now ≡ true) × (frame_of (line_at text.now at) ≡ hex_bytes digits.now)) }
{
    let (digits, rest) = text
        .get(at..)?
        .first_chunk::<17>()?
        .strip_prefix(b"f=")?
        .split_first_chunk::<14>()?;
    if rest.starts_with(b"\n") & all_hex(digits) {
        Some(digits)
    } else {
        None
    }
}

// The frame of the line from `at` on. Refused: 8, a line that is none; 3, a frame with one of its last two bits set.
pub fn read_frame(text: &[u8], at: usize) -> Result<[u8; 7], Refusal>
    ensures { result ≡ frame_read (line_at text.now at) }
{
    let Some(digits) = digits_at(text, at) else {
        return Err(Refusal::BadLine);
    };
    let frame = seven_bytes(digits);
    if frame[6] % 4 != 0 {
        return Err(Refusal::PaddingBits);
    }
    Ok(frame)
}
