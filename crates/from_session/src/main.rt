// Writes the frames of the session file (document 02, T-01) on standard input, seven bytes each, to standard output. A bad
// line ends them: then the number of the refusal and that of the line go to standard error.
//
//   frames    the frames, copied one by one
//   messages  the line of a refusal
#![tactic(auto)]

mod frames;
mod messages;

use std::io;
use std::io::Write;

// Reads the file and writes its frames. One byte more than the longest file has is enough; the rest stays unread.
fn main(rt: HostRuntime) -> io::Result<()> {
    let mut input = [0u8; 34035];
    let size = console::read_full(&mut rt.stdin(), &mut input)?;
    let mut out = [0u8; 14000];
    let mut message = [0u8; 60];
    let written = messages::read_file(&input, size, &mut out, &mut message);
    rt.stdout().write_all(written.frames)?;
    rt.stderr().write_all(written.message)
}
