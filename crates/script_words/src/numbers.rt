//! Numbers, read from words.

ghost use Rattle.std.specs.Prelude.{◌≡◌, ◌<◌, ◌≤◌, ◌≤ℤ◌, ◌^◌, IfSome};
ghost use Rattle.script_words.specs.Numbers.{integer_in, integer_of, natural_in, natural_of};

/// The largest number of digits of a number.
const MAX_DIGITS: usize = 10;

/// Returns the number from `low` to `high` that a word writes in 1 to 10 digits, zeros at their
/// beginning among them, and None exactly where it writes none.
#[tactic(auto, unfolding(crate::specs::Numbers::natural_in))]
pub fn natural_in(low: u32, high: u32, word: &[u8]) -> Option<u32>
    ensures value { result ≡ natural_in low high word.now }
    ensures range { IfSome result (λ value. (low ≤ value) × (value ≤ high)) }
{
    let value = natural_of(word)?;
    if u64::from(low) <= value && value <= u64::from(high) {
        Some(value as u32)
    } else {
        None
    }
}

/// Returns the integer from `low` to `high` that a word writes in 1 to 10 digits, and None exactly
/// where it writes none. A `-` may precede the digits where an integer of the range is below 0;
/// `-0` is 0.
#[tactic(auto, unfolding(crate::specs::Numbers::integer_in))]
pub fn integer_in(low: i64, high: i64, word: &[u8]) -> Option<i64>
    ensures value { result ≡ integer_in low high word.now }
    ensures range { IfSome result (λ value. (low ≤ℤ value) × (value ≤ℤ high)) }
{
    let value = integer_of(low < 0, word)?;
    (low <= value && value <= high).then_some(value)
}

/// Returns the integer that a word writes, where `-` may precede the digits if `signed` says so.
fn integer_of(signed: bool, word: &[u8]) -> Option<i64>
    ensures { result ≡ integer_of signed word.now }
{
    match word {
        [b'-', digits @ ..] if signed => {
            let value = natural_of(digits)?;
            Some(-(value as i64))
        }
        digits => {
            let value = natural_of(digits)?;
            Some(value as i64)
        }
    }
}

/// Returns the number of 1 to 10 digits.
fn natural_of(digits: &[u8]) -> Option<u64>
    ensures value { result ≡ natural_of digits.now }
    ensures bound { IfSome result (λ value. value < 10 ^ 10) }
{
    if digits.is_empty() || digits.len() > MAX_DIGITS {
        return None;
    }
    let mut value = 0;
    for digit in digits {
        if !digit.is_ascii_digit() {
            return None;
        }
        value = 10 * value + u64::from(digit - b'0');
    }
    Some(value)
}
