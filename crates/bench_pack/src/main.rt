// Reads an order from standard input, 54 bytes, packs the parameter sets that follow, eleven bytes each, in that order, and
// writes their frames to standard output: at most 5,957 sets. `pack` in an order is measured with it (bench/run.sh).
//
//   frames  the frames of an input
#![tactic(auto)]

mod frames;

use std::io;
use std::io::Write;

// Reads the order and the sets, and writes their frames. Bytes past the 65,581st stay unread.
fn main(rt: HostRuntime) -> io::Result<()> {
    let mut input = [0u8; 65581];
    let size = console::read_full(&mut rt.stdin(), &mut input)?;
    let mut out = [0u8; 41699];
    let end = frames::pack_input(&input[..size], &mut out);
    rt.stdout().write_all(&out[..end])
}
