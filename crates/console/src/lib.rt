// Reading the front of an input, and writing bytes so that a failure tells what went out, over std. Each program reads
// its input with it.
#![tactic(auto)]

ghost use Rattle.std.specs.Prelude.{◌≡◌, ◌+◌, ◌<◌, ◌≤◌, length, take, drop, IfOk, IfSome, OnOk, OnErr};
ghost use Rattle.std.specs.Io.KnownBytes.{Appends, Consumes, IsAtEnd, WriteAppends};
ghost use Rattle.bits.specs.Lists.{ReadFrom};
ghost use Rattle.std.specs.Counts.{IsPrefixLen};
ghost use Rattle.console.specs.Fronts.{AppendsFront};

use std::io;
use std::io::{ErrorKind, Read, Write};

// 65,536 zeros. The `ensures` gives only the length, which lending the array as a slice needs.
pub fn large_buffer() -> [u8; 65536]
    ensures { 65536 ≡ length result }
{
    [0; 65536]
}

// Reads until the buffer is full or the input ends, and returns how many bytes it put at the front: the whole input, or as
// much of it as the buffer takes. What follows stays unread. After a failed read nothing is said of the buffer. A turn takes as many
// bytes as one read gives, so the loop counts them itself.
pub fn read_full<R: Read>(input: &mut R, buf: &mut [u8]) -> io::Result<usize>
    ensures size { IfOk result (λ n. IsPrefixLen n buf.new) }
    ensures whole { IfOk result (λ n. IfSome (R.remaining input.old) (ReadFrom buf.new n)) }
    ensures bytes { IfOk result (λ n. Consumes (R.remaining input.old) (R.remaining input.new) (take n buf.new)) }
    ensures end { IfOk result (λ n. n < length buf.new → IsAtEnd (R.remaining input.new)) }
{
    let mut done = 0;
    while done < buf.len() {
        let n = read_retrying(input, &mut buf[done..])?;
        if n == 0 {
            break;
        }
        done += n;
    }
    Ok(done)
}

// One read, again where a signal cut it short; the count is there since a loop has to end. It is not made one with `write_retrying`
// by a closure: a proof would know nothing of what a closure left of the input and the buffer that it borrowed, of which the clauses
// speak.
fn read_retrying<R: Read>(input: &mut R, buf: &mut [u8]) -> io::Result<usize>
    ensures size { IfOk result (λ n. IsPrefixLen n buf.new) }
    ensures len { length buf.new ≡ length buf.old }
    ensures bytes { IfOk result (λ n. Consumes (R.remaining input.old) (R.remaining input.new) (take n buf.new)) }
    ensures end { IfOk result (λ n. n ≡ 0 → 0 < length buf.old → IsAtEnd (R.remaining input.new)) }
{
    for _ in 0..u64::MAX {
        match input.read(buf) {
            Err(e) if e.kind() == ErrorKind::Interrupted => {}
            answer => return answer,
        }
    }
    Err(io::Error::from(ErrorKind::TimedOut))
}

// Writes all the bytes, one write after another. A writer that tells what it holds was given all of them then, and a
// front of them where it ends in an error. A turn takes as many bytes as one write does, so the loop counts them itself.
pub fn write_all<W: Write>(to: &mut W, bytes: &[u8]) -> io::Result<()>
    ensures whole { OnOk result (Appends (W.contents to.old) (W.contents to.new) bytes.now) }
    ensures part { OnErr result (AppendsFront (W.contents to.old) (W.contents to.new) bytes.now) }
{
    let mut written = 0;
    while written < bytes.len() {
        let taken = write_retrying(to, &bytes[written..])?;
        if taken == 0 {
            return Err(io::Error::from(ErrorKind::WriteZero));
        }
        written += taken;
    }
    Ok(())
}

// One write, again where a signal cut it short; the count is there since a loop has to end. A failed write gives the writer nothing.
fn write_retrying<W: Write>(to: &mut W, bytes: &[u8]) -> io::Result<usize>
    ensures size { IfOk result (λ n. n ≤ length bytes.now) }
    ensures bytes { WriteAppends (W.contents to.old) (W.contents to.new) result bytes.now }
{
    for _ in 0..u64::MAX {
        match to.write(bytes) {
            Err(e) if e.kind() == ErrorKind::Interrupted => {}
            answer => return answer,
        }
    }
    Err(io::Error::from(ErrorKind::TimedOut))
}
