// A reader of session files: the lent text, and the offset of what comes next.
ghost use Rattle.std.specs.Prelude.{◌≡◌};
ghost use Rattle.session_reader.specs.Steps.{step_at};
ghost use Rattle.session_reader.specs.Readers.{handed};

use crate::Step;
use crate::steps::parse_at;

// A text and an offset in it.
#[derive(Clone, Copy, Debug, PartialEq, Eq)]
pub struct Reader<'a> {
    text: &'a [u8],
    at: usize,
}

// One step, and the reader after it.
#[derive(Clone, Copy, Debug, PartialEq, Eq)]
pub struct Handed<'a> {
    pub step: Step,
    pub rest: Reader<'a>,
}

impl<'a> Reader<'a> {
    // A reader at the start of a text.
    pub fn new(text: &'a [u8]) -> Reader<'a>
        ensures { (result.text ≡ text.entry) × (result.at ≡ 0) }
    {
        Reader { text, at: 0 }
    }

    // The next frame, the end of the file or a refusal. After these two it says the same again. It is no `Iterator`'s: the
    // reader after it is handed back, as document 01 names it.
    pub fn next(self) -> Handed<'a>
        ensures { result ≡ handed self.entry }
    {
        let step = parse_at(self.text, self.at);
        let at = step.at;
        Handed {
            step,
            rest: Reader {
                text: self.text,
                at,
            },
        }
    }
}

// The step of a reader at an offset: for callers that keep the text and the offset themselves.
pub fn read_at(text: &[u8], at: usize) -> Step
    ensures { result ≡ step_at text.now at }
{
    let handed = Reader { text, at }.next();
    handed.step
}
