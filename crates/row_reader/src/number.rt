// Decimal numbers of a field.
ghost use Rattle.std.specs.Prelude.{◌≡◌, ◌≤◌, Some, length, IfSome, MatchOption, false, true};
ghost use Rattle.row_reader.specs.Number.{all_digits, digit, is_digit, number_from, number_of};
ghost use Rattle.row_reader.specs.Trim.{trimmed};

// What an ASCII digit is worth.
pub(crate) fn digit(b: u8) -> u32
    ensures value { result ≡ digit b }
    ensures small { result ≤ 9 }
{
    b.saturating_sub(48).min(9) as u32
}

fn is_digit(b: u8) -> bool
    ensures { result ≡ is_digit b }
{
    b >= 48 && b <= 57
}

// The number of at most nine digits; none where another byte is among them.
#[inline(always)]
fn number_from(text: &[u8]) -> Option<u32>
    requires { length text.now ≤ 9 }
    ensures { MatchOption result (all_digits text.now ≡ false)
        (λ n. (all_digits text.now ≡ true) × (n ≡ number_from 0 text.now)) }
{
    let mut n = 0;
    for b in text {
        if !is_digit(*b) {
            return None;
        }
        n = 10 * n + digit(*b);
    }
    Some(n)
}

/// The number of `least` to `most` digits, where it is no more than the limit.
pub fn read_number(text: &[u8], least: usize, most: usize, limit: u32) -> Option<u32>
    requires { most ≤ 9 }
    ensures value { result ≡ number_of least most limit text.now }
    ensures within { IfSome result (λ n. n ≤ limit) }
    ensures length { IfSome result (λ n. least ≤ length text.now) }
{
    if text.len() < least || text.len() > most {
        return None;
    }
    let n = number_from(text)?;
    if n > limit { None } else { Some(n) }
}

/// The number of one to nine digits that a field without spaces at its ends says, where it is no
/// more than the limit.
#[inline(always)]
pub(crate) fn plain_number(text: &[u8], limit: u32) -> Option<u32>
    ensures value { IfSome result (λ n. number_of 1 9 limit (trimmed text.now) ≡ Some n) }
    ensures within { IfSome result (λ n. n ≤ limit) }
{
    if text.is_empty() || text.len() > 9 {
        return None;
    }
    let n = number_from(text)?;
    if n > limit { None } else { Some(n) }
}
