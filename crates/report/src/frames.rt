// The line of a frame.
ghost use Rattle.std.specs.Prelude.{◌≡◌, ◌≤◌, length};
ghost use Rattle.text.specs.Placing.{place_answer, place_writes, PutIfRoom};
ghost use Rattle.report.specs.Adding.{Adds};
ghost use Rattle.report.specs.Lines.{frame_line};
ghost use Rattle.refusal.specs.Refusals.{numbered};

use crate::fields::write_result;
use crate::line::Line;
use receiver::FrameResult;
use refusal::{Numbered, Refusal};
use text::Name;

const FRAME: Name = *b"frame=..........";

const REFUSED: Name = *b" refused=.......";

const END: Name = *b"\n...............";

// The whole line.
fn write_frame<E: Numbered>(line: &mut Line, k: u64, answer: Result<FrameResult, E>)
    ensures { Adds line.old (frame_line k (numbered E.number answer)) 144 line.new }
{
    line.number(FRAME, 6, k);
    match answer {
        Ok(result) => write_result(line, result),
        Err(refusal) => {
            line.byte(REFUSED, 9, refusal.number());
            line.name(END, 1);
        }
    }
}

// The same in a lent buffer from `at` on; where it ends.
fn put_frame<E: Numbered>(
    k: u64,
    answer: Result<FrameResult, E>,
    out: &mut [u8],
    at: usize,
) -> usize
    ensures put { PutIfRoom out.old at (frame_line k (numbered E.number answer)) out.new result }
    ensures bound { length (frame_line k (numbered E.number answer)) ≤ 144 }
{
    let mut line = Line { out, end: at };
    write_frame(&mut line, k, answer);
    line.end
}

// The line of frame k, to `at` and on; it has at most 144 bytes. Refused: 1, the buffer ends before the line.
pub fn frame_line<E: Numbered>(
    k: u64,
    answer: Result<FrameResult, E>,
    out: &mut [u8],
    at: usize,
) -> Result<usize, Refusal>
    ensures answer { result ≡ place_answer (frame_line k (numbered E.number answer)) at (length out.old) }
    ensures written { out.new ≡ place_writes (frame_line k (numbered E.number answer)) at out.old }
    ensures bound { length (frame_line k (numbered E.number answer)) ≤ 144 }
{
    if out.len().checked_sub(144).is_some_and(|last| at <= last) {
        return Ok(put_frame(k, answer, out, at));
    }
    let mut line = [0u8; 144];
    let end = put_frame(k, answer, &mut line, 0);
    text::place(&line[..end], out, at)
}
