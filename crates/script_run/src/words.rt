//! The words of the command line.
ghost use Rattle.std.specs.Prelude.{◌≡◌, ◌&&◌, ◌≤◌, map, string_bytes, codes, length, true};
ghost use Rattle.std.specs.Str.{bytes_eq};
ghost use Rattle.script_text.specs.Bytes.{all, is_digit, number_after};
ghost use Rattle.script_run.specs.Words.{are_alone, step_limit, steps_in};

/// The steps of a cell where the words do not say how many.
const DEFAULT_STEPS: u64 = 1_000_000;

/// The most steps of a cell.
const MOST_STEPS: u64 = 100_000_000;

/// The most digits of a number.
const MOST_DIGITS: usize = 9;

/// Whether two words ask for a run without kernels: `--kernels 0`.
fn are_alone(name: &str, count: &str) -> bool
    ensures { result ≡ are_alone name.now count.now }
{
    name == "--kernels" && count == "0"
}

fn are_digits(bytes: &[u8]) -> bool
    ensures { result ≡ all is_digit bytes.now }
{
    for byte in bytes {
        if !byte.is_ascii_digit() {
            return false;
        }
    }
    true
}

/// The number that at most nine digits write.
#[tactic(auto, using(name_table::proofs::Digits::digit_steps))]
fn number_of(digits: &[u8]) -> u64
    requires digits { all is_digit digits.now ≡ true }
    requires short { length digits.now ≤ 9 }
    ensures { result ≡ number_after 0 digits.now }
{
    let mut number = 0;
    for digit in digits {
        number = number * 10 + u64::from(*digit - b'0');
    }
    number
}

/// The number of steps that a text gives.
fn step_limit(text: &str) -> Option<u64>
    ensures { result ≡ step_limit text.now }
{
    let digits = text.as_bytes();
    if digits.len() > MOST_DIGITS {
        return None;
    }
    if !are_digits(digits) {
        return None;
    }
    let steps = number_of(digits);
    if steps < 1 {
        return None;
    }
    if steps > MOST_STEPS {
        return None;
    }
    Some(steps)
}

/// The number of steps that each cell may take, where the words are read: `--kernels 0`, and `--steps n` behind it.
pub fn steps_of(words: &[String]) -> Option<u64>
    ensures { result ≡ steps_in (map string_bytes words.now) }
{
    match words {
        [name, count] => {
            if are_alone(name.as_str(), count.as_str()) {
                return Some(DEFAULT_STEPS);
            }
            None
        }
        [name, count, steps, text] => {
            if are_alone(name.as_str(), count.as_str()) && steps.as_str() == "--steps" {
                return step_limit(text.as_str());
            }
            None
        }
        _ => None,
    }
}
