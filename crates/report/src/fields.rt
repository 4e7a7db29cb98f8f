// The parts of a frame's line, and how long each gets.
ghost use Rattle.std.specs.Prelude.{◌≡◌, [], ◌∷◌, ◌++◌, set};
ghost use Rattle.text.specs.Text.{ascii, decimal, field};
ghost use Rattle.report.specs.Adding.{Adds};
ghost use Rattle.report.specs.Lines.{letter, flag, pitch_text, lsf_text, set_text, result_text};

use crate::line::Line;
use receiver::{FrameResult, Kind};
use sets::{Indices, ParameterSet};
use text::Name;

// The names, each filled up by dots; a dot that is written is first set to a letter or a digit.
const PITCH: Name = *b" kind=. pitch=-.";

const LSF: Name = *b" lsf=...........";

const COMMA: Name = *b",...............";

const BANDPASS: Name = *b" bp=............";

const FOURIER: Name = *b" fm=............";

const APERIODIC: Name = *b" ap=............";

const UNVOICED: Name = *b" bp=- fm=- ap=-.";

const FIRST: Name = *b" g1=............";

const SECOND: Name = *b" g2=............";

const FIXED: Name = *b" sync=. fixed=..";

const MUTE: Name = *b" mute=.\n........";

// The letter of a kind. No `From`, since neither `Kind` nor `u8` is a type of this crate.
fn letter_of(kind: Kind) -> u8
    ensures { (result ∷ []) ≡ letter kind }
{
    match kind {
        Kind::Unvoiced => b'U',
        Kind::Voiced => b'V',
        Kind::Repeat => b'R',
    }
}

// The digit of a bit.
fn flag_of(set: bool) -> u8
    ensures { (result ∷ []) ≡ flag set }
{
    b'0' + u8::from(set)
}

// Two parts in one name: the letter of the first is its seventh byte.
fn with_letter(mut name: Name, letter: u8) -> Name
    ensures { result ≡ set name 6 letter }
{
    name[6] = letter;
    name
}

// The four LSF indices.
fn write_lsf(line: &mut Line, x: Indices)
    ensures { Adds line.old (lsf_text x) 20 line.new }
{
    line.byte(LSF, 5, x.l1);
    line.byte(COMMA, 1, x.l2);
    line.byte(COMMA, 1, x.l3);
    line.byte(COMMA, 1, x.l4);
}

// The kind's letter, and the pitch: a dash where there is none.
fn write_pitch(line: &mut Line, letter: u8, set: ParameterSet)
    ensures { Adds line.old (field " kind=" (letter ∷ []) ++ pitch_text set) 17 line.new }
{
    let name = with_letter(PITCH, letter);
    match set {
        ParameterSet::Unvoiced(_) => line.name(name, 15),
        ParameterSet::Voiced(_, v) => line.byte(name, 14, v.pitch),
    }
}

// The kind's letter and the set: dashes for the bandpass, Fourier and aperiodic codes where there are none.
fn write_set(line: &mut Line, letter: u8, set: ParameterSet)
    ensures { Adds line.old (field " kind=" (letter ∷ []) ++ set_text set) 58 line.new }
{
    write_pitch(line, letter, set);
    write_lsf(line, sets::indices_of(set));
    match set {
        ParameterSet::Unvoiced(_) => line.name(UNVOICED, 15),
        ParameterSet::Voiced(_, v) => {
            line.byte(BANDPASS, 4, v.bandpass);
            line.byte(FOURIER, 4, v.fourier);
            line.byte(APERIODIC, 4, v.aperiodic);
        }
    }
}

// The sync bit, the repaired count and mute, and the line end.
fn write_state(line: &mut Line, sync: bool, repaired: u8, mute: bool)
    ensures { Adds line.old (field " sync=" (flag sync) ++ (field " fixed=" (decimal repaired) ++ (field " mute=" (flag mute) ++ ascii "\n"))) 25 line.new }
{
    line.byte(with_letter(FIXED, flag_of(sync)), 14, repaired);
    line.name(with_letter(MUTE, flag_of(mute)), 8);
}

// A result, to the line end: kind, set and levels, and what follows them.
pub(crate) fn write_result(line: &mut Line, res: FrameResult)
    ensures { Adds line.old (result_text res ++ ascii "\n") 111 line.new }
{
    write_set(line, letter_of(res.kind), res.set);
    line.number(FIRST, 4, u64::from(res.first));
    line.number(SECOND, 4, u64::from(res.second));
    write_state(line, res.sync, res.repaired, res.mute);
}
