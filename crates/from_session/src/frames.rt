// The frames of a session file.
ghost use Rattle.std.specs.Prelude.{◌≡◌, ◌++◌, ◌*◌, ◌≤◌, length, drop};
ghost use Rattle.session.specs.Format.{most_frames};
ghost use Rattle.session.specs.Writing.{joined};
ghost use Rattle.session_claims.specs.Reading.{reading};

use session_reader::LineRefusal;

// Where the frames end, and the answer of the reader after them.
#[derive(Clone, Copy, Debug, PartialEq, Eq)]
pub(crate) struct Copied {
    pub(crate) end: usize,
    pub(crate) answer: Result<Option<[u8; 7]>, LineRefusal>,
}

// The frames of a text to the front of `out`, until the reader hands on none. `Reader::next` hands back the reader after it, and so is no
// iterator: the text and the offset are kept here. The loop counts, since where the frames end is seven times their number.
pub(crate) fn copy_frames(text: &[u8], out: &mut [u8]) -> Copied
    requires { 7 * most_frames ≤ length out.old }
    ensures answer { result.answer ≡ (reading text.now).answer }
    ensures end { result.end ≡ length (joined (reading text.now).frames) }
    ensures frames { out.new ≡ joined (reading text.now).frames ++ drop result.end out.old }
{
    let mut at = 0;
    for k in 0..2000 {
        let step = session_reader::read_at(text, at);
        let answer = step.answer;
        let Ok(Some(frame)) = answer else {
            return Copied { end: 7 * k, answer };
        };
        out[7 * k..7 * k + 7].copy_from_slice(&frame);
        at = step.at;
    }
    let answer = session_reader::read_at(text, at).answer;
    Copied { end: 14000, answer }
}
