// The three lines before the frames.
ghost use Rattle.std.specs.Prelude.{◌≡◌, ◌+◌, ◌≤◌, true, false, length, take, drop, MatchOption};
ghost use Rattle.refusal.specs.declared.Refusal.TheVariants.{BadLine};
ghost use Rattle.session_lines.specs.Lines.{digits_value};
ghost use Rattle.session_lines.specs.Headers.{header_of};
ghost use Rattle.session_lines.specs.Scans.{begins, digits_in, counted};

use refusal::Refusal;

// How many frames follow, and where the first one's line starts.
#[derive(Clone, Copy, Debug, PartialEq, Eq)]
pub struct Header {
    pub frames: usize,
    pub first: usize,
}

// What refuses a line, and the number of that line, from 1; 0 where no line can start. It is a number and no `Option`: the claims
// of session files have 0 there, and so has the line that is printed.
#[derive(Clone, Copy, Debug, PartialEq, Eq)]
pub struct LineRefusal {
    pub refusal: Refusal,
    pub line: u16,
}

// A number, and how many digits write it.
#[derive(Clone, Copy)]
struct Count {
    value: usize,
    digits: usize,
}

// What follows these bytes, where a text begins with them. There is no early end: so the compiler compares many at once. std's
// `strip_prefix` compares some of them twice.
fn after<'a>(text: &'a [u8], bytes: &[u8]) -> Option<&'a [u8]>
    ensures { MatchOption result (begins bytes.now text.now ≡ false) (λ rest. (begins bytes.now text.now ≡ true) × (rest.now ≡ drop (length bytes.now) text.now)) }
{
    let (front, rest) = text.split_at_checked(bytes.len())?;
    let same = bytes
        .iter()
        .zip(front)
        .fold(true, |same, (b, c)| same & (*b == *c));
    if !same {
        return None;
    }
    Some(rest)
}

// The number in front of a text: four digits at most. The turns are counted, and not those of a slice's iterator, which was slower: so
// the compiler writes them out.
fn count_in(text: &[u8]) -> Count
    ensures value { result.value ≡ digits_value 0 (take 4 text.now) }
    ensures digits { result.digits ≡ digits_in (take 4 text.now) }
    ensures bound { result.digits ≤ 4 }
{
    let mut value = 0;
    for i in 0..4 {
        if text.len() <= i {
            return Count { value, digits: i };
        }
        let c = text[i];
        if !c.is_ascii_digit() {
            return Count { value, digits: i };
        }
        value = 10 * value + usize::from(c - b'0');
    }
    Count { value, digits: 4 }
}

// What the third line tells, in front of a text, if it is good: the number in it is not too high, has no `0` in front of
// another digit, and ends with the line.
fn read_count(text: &[u8]) -> Option<Header>
    ensures { result ≡ counted text.now }
{
    let number = after(text, b"frames=")?;
    let count = count_in(number);
    if number.len() <= count.digits {
        return None;
    }
    let plain = (b'0' < number[0]) | (count.digits == 1);
    if (count.value <= 2000) & plain & (number[count.digits] == b'\n') {
        Some(Header {
            frames: count.value,
            first: 30 + count.digits,
        })
    } else {
        None
    }
}

// The refusal of a bad line.
fn bad(line: u16) -> LineRefusal
    ensures { result ≡ record { refusal = BadLine; line = line } }
{
    LineRefusal {
        refusal: Refusal::BadLine,
        line,
    }
}

// What the three lines of a text tell, each judged in turn. Refused: 8, the first bad one.
pub fn read_header(text: &[u8]) -> Result<Header, LineRefusal>
    ensures { result ≡ header_of text.now }
{
    let Some(lines) = after(text, b"file=melp\n") else {
        return Err(bad(1));
    };
    let Some(lines) = after(lines, b"order=house\n") else {
        return Err(bad(2));
    };
    read_count(lines).ok_or(bad(3))
}
