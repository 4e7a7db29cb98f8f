// Prints the LSF values and the magnitudes of one frame. The frame is standard input; the codebooks are the
// files `lsf.txt` and `mag.txt` of the working directory. Twenty lines are printed, or the refusal.
//
//   printing  what is printed for the three inputs
//   values    what a frame and the texts of two codebooks give
//   lines     that as text
#![tactic(auto)]

mod lines;
mod printing;
mod values;

ghost use Rattle.std.specs.Counts.{IsPrefixLen};

use std::io::Write;
use std::rt::Files;
use std::{fs, io};

// A file to the front of a buffer, and how many bytes came; none where there is no such file, or it cannot be
// read. A file that fills the buffer is longer than any good codebook, and what follows changes nothing: `EnoughRead`
// of specs/Output says so.
fn read_file<R: Files>(rt: &R, path: &str, text: &mut [u8; 65536]) -> usize
    ensures { IsPrefixLen result text.new }
{
    let Ok(mut file) = fs::open(rt, path) else {
        return 0;
    };
    console::read_full(&mut file, text).unwrap_or(0)
}

// Reads the frame and the texts of both codebooks, and prints what they give. An eighth byte of input tells a
// frame from a longer input.
fn main(rt: HostRuntime) -> io::Result<()> {
    let mut input = [0u8; 8];
    let size = console::read_full(&mut rt.stdin(), &mut input)?;
    let mut lsf = console::large_buffer();
    let lsf_size = read_file(&rt, "lsf.txt", &mut lsf);
    let mut magnitudes = console::large_buffer();
    let magnitudes_size = read_file(&rt, "mag.txt", &mut magnitudes);
    let mut text = [0u8; 512];
    let end = printing::write_printed(
        &input,
        size,
        &lsf,
        lsf_size,
        &magnitudes,
        magnitudes_size,
        &mut text,
    );
    rt.stdout().write_all(&text[..end])
}
