// A line of a codebook's text, without its end: a sign and digits.
ghost use Rattle.std.specs.Prelude.{◌≡◌, true, ◌<◌};
ghost use Rattle.codebook_text.specs.Text.{is_negative, unsigned, all_digits, is_digits, digits_value, is_number, number_of};

// Whether a line, without its end, is good. Its value is asked for only after a minus.
#[tactic(auto, unfolding(crate::specs::Text::is_number))]
pub(crate) fn is_number(line: &[u8]) -> bool
    ensures { result ≡ is_number line.now }
{
    let digits = unsigned_part(line);
    is_digits(digits) && (!is_negative(line) || digits_value(digits) != 0)
}

// The number of a good line.
pub(crate) fn number(line: &[u8]) -> i64
    requires { is_number line.now ≡ true }
    ensures { result ≡ number_of line.now }
{
    let size = digits_value(unsigned_part(line)) as i64;
    if is_negative(line) { -size } else { size }
}

// Whether a line starts with a minus.
fn is_negative(line: &[u8]) -> bool
    ensures { result ≡ is_negative line.now }
{
    line.starts_with(b"-")
}

// What follows the minus, all where there is none.
fn unsigned_part(line: &[u8]) -> &[u8]
    ensures { result.now ≡ unsigned line.now }
{
    line.strip_prefix(b"-").unwrap_or(line)
}

// One to ten digits and nothing else.
#[tactic(auto, using(std::proofs::Common::tests), unfolding(crate::specs::Text::is_digits))]
fn is_digits(digits: &[u8]) -> bool
    ensures { result ≡ is_digits digits.now }
{
    matches!(digits.len(), 1..=10) && all_digits(digits)
}

// Nothing but digits.
fn all_digits(digits: &[u8]) -> bool
    ensures { result ≡ all_digits digits.now }
{
    digits.iter().all(u8::is_ascii_digit)
}

// The value of one to ten digits, the most significant first. A loop: the closure of a `fold` would owe at each
// value that its step fits.
fn digits_value(digits: &[u8]) -> u64
    requires { is_digits digits.now ≡ true }
    ensures equal { result ≡ digits_value digits.now }
    ensures bound { result < 10000000000 }
{
    let mut value = 0;
    for &digit in digits {
        value = 10 * value + u64::from(digit - b'0');
    }
    value
}
