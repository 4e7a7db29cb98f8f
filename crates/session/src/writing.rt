// The writer of session files.
ghost use Rattle.std.specs.Prelude.{◌≡◌, ◌+◌, ◌*◌, ◌≤◌, length};
ghost use Rattle.text.specs.Placing.{Put};
ghost use Rattle.session.specs.Format.{header, session_text};
ghost use Rattle.session.specs.Writing.{write_answer, write_writes};

use crate::header::{header_size, write_header};
use crate::lines::{has_padding, write_lines};
use refusal::Refusal;

// The text, where there is room for it; where it ends.
fn write_text(frames: &[[u8; 7]], out: &mut [u8]) -> usize
    requires { (length frames.now ≤ 2000) × (length (header (length frames.now)) + 17 * length frames.now ≤ length out.old) }
    ensures { Put out.old 0 (session_text frames.now) out.new result }
{
    let end = write_header(frames.len(), out);
    write_lines(frames, out, end)
}

// The text of frames, seven bytes each, to the front of `out`. Refused, in this order: 2, not 0 to 2,000 whole
// frames; 1, an output shorter than the text; 3, a frame with one of its last two bits set.
pub fn write(frames: &[u8], out: &mut [u8]) -> Result<usize, Refusal>
    ensures answer { result ≡ write_answer frames.now (length out.old) }
    ensures written { out.new ≡ write_writes frames.now out.old }
{
    let (frames, rest) = frames.as_chunks::<7>();
    if !rest.is_empty() || frames.len() > 2000 {
        return Err(Refusal::FrameLength);
    }
    if out.len() < header_size(frames.len()) + 17 * frames.len() {
        return Err(Refusal::ShortOutput);
    }
    if has_padding(frames) {
        return Err(Refusal::PaddingBits);
    }
    Ok(write_text(frames, out))
}
