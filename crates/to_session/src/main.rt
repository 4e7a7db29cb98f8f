// Writes the frames on standard input, seven bytes each, as a session file (document 02, T-01) to standard output.
// Where they are refused, nothing goes there, and the number of the refusal goes to standard error.
//
//   files  the file of the bytes read, and the line of a refusal
#![tactic(auto)]

mod files;

use std::io;
use std::io::Write;

// Reads the frames and writes both texts. One byte more than 2,000 frames have is enough to refuse; the rest stays unread.
fn main(rt: HostRuntime) -> io::Result<()> {
    let mut input = [0u8; 14001];
    let size = console::read_full(&mut rt.stdin(), &mut input)?;
    let mut file = [0u8; 34034];
    let mut message = [0u8; 22];
    let written = files::write_file(&input, size, &mut file, &mut message);
    rt.stdout().write_all(written.file)?;
    rt.stderr().write_all(written.message)
}
