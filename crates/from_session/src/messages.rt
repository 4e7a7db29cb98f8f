// What is written for a session file: its frames, and the line of a refusal.
ghost use Rattle.std.specs.Prelude.{◌≡◌, ◌≤◌, ◌*◌, length};
ghost use Rattle.std.specs.Counts.{IsPrefixLen};
ghost use Rattle.text.specs.Placing.{Put};
ghost use Rattle.session.specs.Format.{most_frames};
ghost use Rattle.refusal.specs.Refusals.{number_of};
ghost use Rattle.from_session.specs.Output.{most_input, refusal_line, AllWritten};

use crate::frames::copy_frames;
use session_reader::LineRefusal;
use text::{Name, byte, end_of, number, place};

const REFUSED: Name = *b"refused=........";

const LINE: Name = *b" line=..........";

// The frames, and the line of a refusal.
#[derive(Clone, Copy, Debug, PartialEq, Eq)]
pub(crate) struct Written<'a> {
    pub(crate) frames: &'a [u8],
    pub(crate) message: &'a [u8],
}

// The line of a refusal; where it ends.
fn write_message(refused: LineRefusal, out: &mut [u8]) -> usize
    requires { 60 ≤ length out.old }
    ensures { Put out.old 0 (refusal_line (number_of refused.refusal) refused.line) out.new result }
{
    let numbered = end_of(byte(REFUSED, 8, refused.refusal.number(), out, 0), 0);
    let end = end_of(
        number(LINE, 6, u64::from(refused.line), out, numbered),
        numbered,
    );
    end_of(place(b"\n", out, end), end)
}

// The frames and the line for the standard input of which the first `size` bytes of a buffer were read. The buffer comes whole, since
// its length says how much of a long input was read: `most_input` holds `main` to it.
pub(crate) fn read_file<'a>(
    input: &[u8],
    size: usize,
    out: &'a mut [u8],
    message: &'a mut [u8],
) -> Written<'a>
    requires input_len { (length input.now ≡ most_input) × IsPrefixLen size input.now }
    requires out_len { (length out.old ≡ 7 * most_frames) × (length message.old ≡ 60) }
    ensures { AllWritten input.now size result.frames.now result.message.now }
{
    let copied = copy_frames(&input[..size], out);
    match copied.answer {
        Ok(_) => Written {
            frames: &out[..copied.end],
            message: &[],
        },
        Err(refused) => {
            let end = write_message(refused, message);
            Written {
                frames: &out[..copied.end],
                message: &message[..end],
            }
        }
    }
}
