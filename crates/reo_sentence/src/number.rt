//! Numbers.
ghost use Rattle.std.specs.Prelude.{◌≡◌, pos, neg_ℤ};
ghost use Rattle.reo_sentence.specs.Seen.{decimal_value, number_value};
ghost use Rattle.reo_sentence.specs.Limits.{in_range, up_to};

use reo_value::Num;

// The least number without its sign.
const LIMIT: u64 = 1 << 62;

/// The number that a token spells, where it is in range.
pub(crate) fn number(token: &[u8]) -> Option<Num>
    ensures { result ≡ in_range (number_value token.now) }
{
    match token.split_first() {
        Some((b'-', digits)) => negative(digits),
        _ => positive(token),
    }
}

fn positive(digits: &[u8]) -> Option<Num>
    ensures { result ≡ in_range (pos (decimal_value digits.now)) }
{
    let magnitude = magnitude(digits)?;
    Num::new(magnitude as i64)
}

fn negative(digits: &[u8]) -> Option<Num>
    ensures { result ≡ in_range (neg_ℤ (pos (decimal_value digits.now))) }
{
    let magnitude = magnitude(digits)?;
    Num::new(-(magnitude as i64))
}

// The natural number that digits stand for, where it is not above 2^62.
fn magnitude(digits: &[u8]) -> Option<u64>
    ensures { result ≡ up_to LIMIT (decimal_value digits.now) }
{
    let mut value = 0;
    for digit in digits {
        if value > LIMIT / 10 {
            return None;
        }
        value = 10 * value + u64::from(digit.saturating_sub(b'0'));
    }
    if value > LIMIT { None } else { Some(value) }
}
