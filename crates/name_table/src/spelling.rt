ghost use Rattle.std.specs.Prelude.{◌≡◌, ◌≤◌, ◌<◌, ◌^◌, true, length, reverse};
ghost use Rattle.script_text.specs.Bytes.{all, is_digit, run, number_after};
ghost use Rattle.script_text.specs.Spelling.{is_number_part, spelled};

/// The most digits that the number of a generated symbol has.
const MAX_DIGITS: usize = 18;

/// What a name is read as: `x$12` is the base `x` with the number 12. A plain name is its own base, with the number 0.
#[derive(Clone, Copy, Debug)]
pub struct Spelled<'a> {
    pub base: &'a str,
    pub number: u64,
}

fn is_digit(byte: u8) -> bool
    ensures { result ≡ is_digit byte }
{
    byte.is_ascii_digit()
}

/// How many digits end the text.
#[tactic(auto, using(crate::proofs::Digits::digit_steps))]
fn digits_at_end(text: &[u8]) -> usize
    ensures count { result ≡ run is_digit (reverse text.now) }
    ensures within { result ≤ length text.now }
{
    let mut count = 0;
    while count < text.len() && is_digit(text[text.len() - 1 - count]) {
        count += 1;
    }
    count
}

/// The number that at most eighteen digits write.
#[tactic(auto, using(crate::proofs::Digits::digit_steps))]
fn number_of(digits: &[u8]) -> u64
    requires digits { all is_digit digits.now ≡ true }
    requires short { length digits.now ≤ 18 }
    ensures { result ≡ number_after 0 digits.now }
{
    let mut number = 0;
    for digit in digits {
        number = number * 10 + u64::from(*digit - b'0');
    }
    number
}

/// Whether digits are the number of a generated symbol: one to eighteen of them, the first not 0.
fn is_number_part(digits: &[u8]) -> bool
    ensures { result ≡ is_number_part digits.now }
{
    !digits.is_empty() && digits[0] != b'0' && digits.len() <= MAX_DIGITS
}

/// Reads a name as a base and a number.
pub fn read_name(text: &str) -> Spelled<'_>
    ensures base { result.base.now ≡ (spelled text.now).base }
    ensures number { result.number ≡ (spelled text.now).number }
{
    let plain = Spelled {
        base: text,
        number: 0,
    };
    let bytes = text.as_bytes();
    let start = bytes.len() - digits_at_end(bytes);
    if start < 2 {
        return plain;
    }
    if bytes[start - 1] != b'$' {
        return plain;
    }
    let digits = &bytes[start..];
    if !is_number_part(digits) {
        return plain;
    }
    Spelled {
        base: &text[..start - 1],
        number: number_of(digits),
    }
}
