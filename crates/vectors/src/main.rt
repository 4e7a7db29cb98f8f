// Runs the vectors of an independent implementation, from standard input, through the libraries. A vector
// is 256 bytes: its kind, the arguments of a call, and what the call must answer.
//
//   calls          the call of a vector, by its kind
//   vector         the bytes of a vector, and the numbers, parts and sets in them
//   coder          answers about the pitch code, the words and the levels
//   short          calls with few bytes: the pitch code, the words and the levels
//   choosing       gain codes
//   packing        a set packed into a frame
//   parameters     sets: their ranges and their bytes
//   orders         the order of a vector, and orders
//   frames         the 54 bits of a frame, and what a frame is read as
//   soft_words     words and frames taken and read with confidences
//   state          a receiver's record
//   receiving      a frame received, by value and in place
//   in_place       receiving into a record in place, with confidences and without
//   codebooks      the codebook of a vector, by a rule
//   rows           rows of a codebook
//   values         LSF values and magnitudes
//   text_rule      the text of a vector, by a rule
//   texts          codebooks in their text form
//   session_texts  the frames and lines of session files, by the rule
//   sessions       reading and writing session files
//   digits         digits of numbers
//
// Functions of other crates are passed in closures: passed by their names alone they were not proved. Each function that is
// handed a closure asks that it may be called: no bound of its type says so. What is compared is
// joined by `&`: each comparison may always be made, so a proof needs no case of it.
#![tactic(auto)]

mod calls;
mod choosing;
mod codebooks;
mod coder;
mod digits;
mod frames;
mod in_place;
mod orders;
mod packing;
mod parameters;
mod receiving;
mod rows;
mod session_texts;
mod sessions;
mod short;
mod soft_words;
mod state;
mod text_rule;
mod texts;
mod values;
mod vector;

use std::io;
use std::io::Write;
use vector::Vector;

// Prints how many vectors were read, how many of them differ, and how many bytes came after them.
fn tell<W: Write>(to: &mut W, vectors: u64, differences: u64, left: u64) -> io::Result<()> {
    writeln!(
        to,
        "vectors={vectors} differences={differences} left={left}"
    )
}

// How many vectors are read at most.
const MOST: u64 = 4_000_000;

// Reads the vectors and runs each.
fn main(rt: HostRuntime) -> io::Result<()> {
    let mut bytes = [0u8; 256];
    let mut differences: u64 = 0;
    for i in 0..MOST {
        let got = console::read_full(&mut rt.stdin(), &mut bytes)?;
        if got < 256 {
            return tell(&mut rt.stdout(), i, differences, got as u64);
        }
        differences += u64::from(!calls::agrees(&Vector { bytes }));
    }
    tell(&mut rt.stdout(), MOST, differences, 0)
}
