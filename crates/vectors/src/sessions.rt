// Vectors of session files: a step of reading one, writing one, and their lines.
ghost use Rattle.std.specs.Prelude.{◌≤◌};

use crate::packing::HELD;
use crate::session_texts::frame_byte;
use crate::text_rule::write_text;
use crate::vector::{Vector, joined, refused};
use session_reader::{LineRefusal, Step};

// Whether the refusal, whether a frame is handed on, and the line refused are those in bytes 18 to 21.
fn marks_agree(vector: &Vector, refusal: u8, handed_on: bool, line: u16) -> bool {
    (vector.number(18, 2) == joined(0, refusal, u8::from(handed_on)))
        & (vector.number(20, 2) == usize::from(line))
}

// Whether the frame is the one in bytes 22 to 28; zeros stand there for none.
fn frame_agrees(vector: &Vector, frame: Option<[u8; 7]>) -> bool {
    vector.bytes_agree(22, &frame.unwrap_or([0; 7]))
}

// Whether the answer of a step is the one in bytes 18 to 28.
fn answer_agrees(vector: &Vector, answer: Result<Option<[u8; 7]>, LineRefusal>) -> bool {
    match answer {
        Ok(frame) => marks_agree(vector, 0, frame.is_some(), 0) & frame_agrees(vector, frame),
        Err(bad) => {
            marks_agree(vector, bad.refusal.number(), false, bad.line) & frame_agrees(vector, None)
        }
    }
}

// A step at the offset in bytes 10 to 17: the answer, the frame, and the offset after it.
fn step_agrees<F: FnOnce(&[u8], usize) -> Step>(vector: &Vector, step_at: F) -> bool
    requires { F.IsAlwaysCallable step_at }
{
    let mut buffer = console::large_buffer();
    let text = write_text(vector, &mut buffer);
    let step = step_at(text, vector.number(10, 8));
    answer_agrees(vector, step.answer) & (vector.number(29, 8) == step.at)
}

// Kind 25: a step by the parser.
pub(crate) fn parsing_agrees(vector: &Vector) -> bool {
    step_agrees(vector, |text, at| session_reader::parse_at(text, at))
}

// Kind 26: a step by a reader.
pub(crate) fn reading_agrees(vector: &Vector) -> bool {
    step_agrees(vector, |text, at| session_reader::read_at(text, at))
}

// So many bytes of frames to the front of a buffer, one of them replaced; what is put past the last one is not lent.
fn write_frames<'a>(vector: &Vector, buffer: &'a mut [u8; 65536], size: usize) -> &'a [u8]
    requires { size ≤ 65536 }
{
    let first = vector.byte(9);
    for (j, b) in buffer[..size].iter_mut().enumerate() {
        *b = frame_byte(j, first);
    }
    buffer[vector.number(12, 2)] = vector.byte(14);
    &buffer[..size]
}

// Whether an output has a text in front, and is otherwise as before the call.
fn holds(out: &[u8; 34100], text: &[u8]) -> bool {
    out.strip_prefix(text)
        .is_some_and(|rest| rest.iter().all(|b| *b == HELD))
}

// Whether the output has the text of the vector, which must fit in the bytes that were lent of it. The buffer comes whole, since
// the bytes past those that were lent must be as before too.
fn output_agrees(vector: &Vector, out: &[u8; 34100], room: usize) -> bool {
    let mut buffer = console::large_buffer();
    let text = write_text(vector, &mut buffer);
    (text.len() <= room) & holds(out, text)
}

// Kind 27: writing a session file, of at most 14,014 bytes of frames to an output of at most 34,100; the refusal, and the end
// of the text.
pub(crate) fn write_agrees(vector: &Vector) -> bool {
    let size = vector.number(10, 2);
    let room = vector.number(15, 2);
    if 14014 < size || 34100 < room {
        return false;
    }
    let mut buffer = console::large_buffer();
    let frames = write_frames(vector, &mut buffer, size);
    let mut out = [HELD; 34100];
    let end = session::write(frames, &mut out[..room]);
    (vector.byte(18) == refused(end))
        & (vector.number(19, 2) == end.unwrap_or(0))
        & output_agrees(vector, &out, room)
}

// Kind 28: the three lines before the frames; the refusal, the bad one, how many frames there are, and where the first one's
// line starts.
pub(crate) fn header_agrees(vector: &Vector) -> bool {
    let mut buffer = console::large_buffer();
    let text = write_text(vector, &mut buffer);
    let (refusal, line, frames, first) = match session_lines::read_header(text) {
        Ok(header) => (0, 0, header.frames, header.first),
        Err(bad) => (bad.refusal.number(), bad.line, 0, 0),
    };
    (vector.byte(18) == refusal)
        & (vector.number(20, 2) == usize::from(line))
        & (vector.number(22, 2) == frames)
        & (vector.number(24, 2) == first)
}

// Kind 29: the line at the offset in bytes 10 to 17, where a frame's is due; the refusal and the frame.
pub(crate) fn line_agrees(vector: &Vector) -> bool {
    let mut buffer = console::large_buffer();
    let text = write_text(vector, &mut buffer);
    let frame = session_lines::read_frame(text, vector.number(10, 8));
    (vector.byte(18) == refused(frame)) & frame_agrees(vector, frame.ok())
}
