// Reads an order from standard input, 54 bytes, receives the frames that follow in that order, each with its confidences
// after it, and writes one number, the sum of all that they are answered, in eight bytes. `receive_soft` by itself is
// measured with it (bench/run.sh): the sum needs every number of an answer, and no text is made.
//
//   frames  the sum over all frames
#![tactic(auto)]

mod frames;

use std::io;
use std::io::Write;

// Reads the order and the frames, and writes their sum. Bytes past the 65,568th stay unread.
fn main(rt: HostRuntime) -> io::Result<()> {
    let mut input = [0u8; 65568];
    let size = console::read_full(&mut rt.stdin(), &mut input)?;
    let bytes = frames::sum_bytes(&input[..size]);
    rt.stdout().write_all(&bytes)
}
