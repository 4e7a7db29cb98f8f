// The one place that writes, and the count of what is sent.
ghost use Rattle.std.specs.Prelude.{◌≡◌, ◌+◌, ◌≤◌, length, take, drop, IfOk, OnOk, OnErr};
ghost use Rattle.std.specs.Io.KnownBytes.{Appends};
ghost use Rattle.console.specs.Fronts.{AppendsFront};
ghost use Rattle.hear.specs.Call.{text};

use std::io;
use std::io::Write;

// How many bytes of the text are sent. The field is private: no other file can make or raise a count, so what is not
// written is not counted.
#[derive(Clone, Copy, Debug, PartialEq, Eq)]
pub(crate) struct Sent {
    count: usize,
}

// Before the first write.
pub(crate) fn nothing() -> Sent
    ensures { result.count ≡ 0 }
{
    Sent { count: 0 }
}

// Sends a part of the text, the one after the sent bytes. A writer that tells what it holds holds it then, and a front of it where
// the sending fails.
pub(crate) fn send<W: Write>(to: &mut W, bytes: &[u8], part: &[u8], sent: Sent) -> io::Result<Sent>
    requires { (part.now ≡ take (length part.now) (drop sent.count (text bytes.now))) × (sent.count + length part.now ≤ 2000000) }
    ensures count { IfOk result (λ s. s.count ≡ sent.count + length part.now) }
    ensures written { OnOk result (Appends (W.contents to.old) (W.contents to.new) part.now) }
    ensures failed { OnErr result (AppendsFront (W.contents to.old) (W.contents to.new) part.now) }
{
    console::write_all(to, part)?;
    Ok(Sent {
        count: sent.count + part.len(),
    })
}
