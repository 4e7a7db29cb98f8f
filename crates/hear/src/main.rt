// Prints what a fresh receiver makes of the frames on standard input: at most 9,362 of them, a line for each.
//
//   frames    what the receiver makes of each frame, and its line
//   printing  the text, sent in large parts
//   output    the one function that writes, and the count of what is sent
#![tactic(auto)]

mod frames;
mod output;
mod printing;

use std::io;

// Reads the frames and prints the text. Bytes past the 65,534th stay unread.
fn main(rt: HostRuntime) -> io::Result<()> {
    let mut input = [0u8; 65534];
    let size = console::read_full(&mut rt.stdin(), &mut input)?;
    printing::print_call(&mut rt.stdout(), &input, size)?;
    Ok(())
}
