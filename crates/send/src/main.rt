// Packs the parameter sets on standard input, eleven bytes each, and writes their frames to standard output:
// at most 5,957 sets, which is what 65,536 bytes hold.
//
//   frames  the frames of the sets, in the default order
#![tactic(auto)]

mod frames;

use std::io;
use std::io::Write;

// Reads the sets and writes their frames. Bytes past the 65,536th stay unread.
fn main(rt: HostRuntime) -> io::Result<()> {
    let mut input = console::large_buffer();
    let size = console::read_full(&mut rt.stdin(), &mut input)?;
    let mut out = [0u8; 41699];
    let end = frames::pack_sets(&input[..size], &mut out);
    rt.stdout().write_all(&out[..end])
}
