// The text of a call, sent in large parts. The writer and the bytes stay two parameters, of which two functions need the bytes
// for their clauses alone: a struct that lends the writer would need a clause in each, that it still lends the same one.
ghost use Rattle.std.specs.Prelude.{◌≡◌, ◌+◌, ◌≤◌, length, take, IfOk, OnOk, OnErr};
ghost use Rattle.std.specs.Io.KnownBytes.{Appends};
ghost use Rattle.std.specs.Counts.{IsPrefixLen};
ghost use Rattle.console.specs.Fronts.{AppendsFront};
ghost use Rattle.receiver.specs.Frames.{frames_in};
ghost use Rattle.hear.specs.Call.{repeats_before, text_before, text, most_bytes, AllPrinted, AllSent, FrontSent, GivenFront, GivenOn, Pending};

use crate::frames::{Progress, begin, take_frame};
use crate::output::{Sent, send};
use std::io;
use std::io::Write;
use text::end_of;

// Room for a line more: a buffer that is nearly full is sent.
fn make_room<W: Write>(
    to: &mut W,
    before: Progress,
    bytes: &[u8],
    k: usize,
    out: &[u8; 65536],
) -> io::Result<Progress>
    requires k_bound { (k ≤ frames_in bytes.now) × Pending (text_before bytes.now k) before.sent.count before.end out.now }
    requires out_len { (before.end ≤ 65536) × (before.sent.count + before.end ≤ 2000000) }
    ensures record { IfOk result (λ r. r.rec ≡ before.rec) }
    ensures repeats { IfOk result (λ r. r.repeats ≡ before.repeats) }
    ensures pending { IfOk result (λ r. Pending (text_before bytes.now k) r.sent.count r.end out.now) }
    ensures room { IfOk result (λ r. r.end + 144 ≤ 65536) }
    ensures written { IfOk result (λ r. GivenOn (text bytes.now) before.sent.count r.sent.count (W.contents to.old) (W.contents to.new)) }
    ensures failed { OnErr result (GivenFront (text bytes.now) before.sent.count (W.contents to.old) (W.contents to.new)) }
{
    if before.end <= 65392 {
        return Ok(before);
    }
    Ok(Progress {
        sent: send(to, bytes, &out[..before.end], before.sent)?,
        end: 0,
        ..before
    })
}

// All whole frames; the first line waits in the buffer.
fn print_frames<W: Write>(
    to: &mut W,
    bytes: &[u8],
    out: &mut [u8; 65536],
    end: usize,
) -> io::Result<Progress>
    requires { (length bytes.now ≤ 65534) × Pending (text_before bytes.now 0) 0 end out.old }
    ensures repeats { IfOk result (λ r. r.repeats ≡ repeats_before bytes.now (frames_in bytes.now)) }
    ensures count { IfOk result (λ r. r.sent.count + r.end ≤ 1400000) }
    ensures pending { IfOk result (λ r. Pending (text_before bytes.now (frames_in bytes.now)) r.sent.count r.end out.new) }
    ensures bound { IfOk result (λ r. r.end ≤ 65536) }
    ensures written { IfOk result (λ r. Appends (W.contents to.old) (W.contents to.new) (take r.sent.count (text bytes.now))) }
    ensures failed { OnErr result (AppendsFront (W.contents to.old) (W.contents to.new) (text bytes.now)) }
{
    let mut progress = begin(end);
    let (frames, _) = bytes.as_chunks::<7>();
    for (k, frame) in frames.iter().enumerate() {
        progress = take_frame(make_room(to, progress, bytes, k, out)?, k, frame, out);
    }
    Ok(progress)
}

// The whole text; in the end as many bytes are sent as it has.
fn print_text<W: Write>(to: &mut W, bytes: &[u8], out: &mut [u8; 65536]) -> io::Result<Sent>
    requires { length bytes.now ≤ 65534 }
    ensures count { IfOk result (λ s. s.count ≡ length (text bytes.now)) }
    ensures written { OnOk result (Appends (W.contents to.old) (W.contents to.new) (text bytes.now)) }
    ensures failed { OnErr result (AppendsFront (W.contents to.old) (W.contents to.new) (text bytes.now)) }
{
    let first = end_of(report::first_line(out, 0), 0);
    let frames = bytes.len() / 7;
    let left = bytes.len() % 7;
    let printed = print_frames(to, bytes, out, first)?;
    let ready = make_room(to, printed, bytes, frames, out)?;
    let end = end_of(
        report::last_line(frames as u64, ready.repeats, left as u64, out, ready.end),
        ready.end,
    );
    send(to, bytes, &out[..end], ready.sent)
}

// All that is printed for the standard input of which the first `size` bytes of a buffer for 9,362 frames were read. The buffer comes
// whole, since its length says how much of a long input was read: `most_bytes` holds `main` to it.
pub(crate) fn print_call<W: Write>(to: &mut W, input: &[u8], size: usize) -> io::Result<Sent>
    requires { (length input.now ≡ most_bytes) × IsPrefixLen size input.now }
    ensures printed { IfOk result (λ s. AllPrinted input.now size s.count) }
    ensures written { OnOk result (AllSent input.now size (W.contents to.old) (W.contents to.new)) }
    ensures failed { OnErr result (FrontSent input.now size (W.contents to.old) (W.contents to.new)) }
{
    let mut out = console::large_buffer();
    print_text(to, &input[..size], &mut out)
}
