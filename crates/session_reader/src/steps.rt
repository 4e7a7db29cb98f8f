// The parser: what stands at an offset of a text.
ghost use Rattle.std.specs.Prelude.{◌≡◌, ◌+◌, ◌≤◌, ◌<◌, IfSome};
ghost use Rattle.session_reader.specs.Steps.{refused, place_of, placed, frame_step, last_step, step_after, step_at};

use crate::Step;
use refusal::Refusal;
use session_lines::{Header, LineRefusal, read_frame, read_header};

// The refusal of the line after those of k frames; lines count from 1. The definitions `frame_step` and `last_step`, on which the
// claims of session files stand, go by k, so each contract has its bound.
fn refused(refusal: Refusal, k: usize) -> Result<Option<[u8; 7]>, LineRefusal>
    requires { k < 10000 }
    ensures { result ≡ refused refusal (k + 4) }
{
    Err(LineRefusal {
        refusal,
        line: (k + 4) as u16,
    })
}

// The line at a place, after those of k frames.
fn frame_step(text: &[u8], k: usize, at: usize, place: usize) -> Step
    requires { k < 10000 }
    ensures { result ≡ frame_step text.now k at place }
{
    match read_frame(text, place) {
        Ok(frame) => Step {
            answer: Ok(Some(frame)),
            at: place + 17,
        },
        Err(refusal) => Step {
            answer: refused(refusal, k),
            at,
        },
    }
}

// The place after the last frame: the end of the text, or a line too many.
fn last_step(text: &[u8], k: usize, at: usize, place: usize) -> Step
    requires { k < 10000 }
    ensures { result ≡ last_step text.now k at place }
{
    if text.len() == place {
        return Step {
            answer: Ok(None),
            at,
        };
    }
    Step {
        answer: refused(Refusal::BadLine, k),
        at,
    }
}

// How many frames' lines stand before a place: where one of so many starts, or the last one ends.
fn frames_before(header: Header, place: usize) -> Option<usize>
    ensures equal { result ≡ placed header.first header.frames place }
    ensures bound { IfSome result (λ k. k ≤ header.frames) }
{
    let past = place.checked_sub(header.first)?;
    if past % 17 == 0 && past / 17 <= header.frames {
        Some(past / 17)
    } else {
        None
    }
}

// Where the line to read starts.
fn place_of(first: usize, at: usize) -> usize
    ensures { result ≡ place_of first at }
{
    if at == 0 { first } else { at }
}

// The step after three good lines.
fn step_after(text: &[u8], header: Header, at: usize) -> Step
    requires { header.frames < 10000 }
    ensures { result ≡ step_after text.now header.first header.frames at }
{
    let place = place_of(header.first, at);
    match frames_before(header, place) {
        None => Step {
            answer: Err(LineRefusal {
                refusal: Refusal::BadLine,
                line: 0,
            }),
            at,
        },
        Some(k) if k == header.frames => last_step(text, k, at, place),
        Some(k) => frame_step(text, k, at, place),
    }
}

// What stands at an offset; reading begins at 0. Refused: 8, a line that belongs to no session file, the first three judged
// first, or an offset where no line can start; 3, a frame's line with one of its last two bits set. It is copied into its callers: so
// the compiler keeps only what each of them needs.
#[inline]
pub fn parse_at(text: &[u8], at: usize) -> Step
    ensures { result ≡ step_at text.now at }
{
    match read_header(text) {
        Ok(header) => step_after(text, header, at),
        Err(refusal) => Step {
            answer: Err(refusal),
            at,
        },
    }
}
