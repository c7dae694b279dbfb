//! Texts and numbers at the front of bytes.
ghost use Rattle.std.specs.Prelude.{◌≡◌, ◌<◌, ◌≤◌, IfOk, MatchOption, Some, None, length, take, true};
ghost use Rattle.std.specs.Char.{is_ascii_digit};
ghost use Rattle.std.specs.List.{list_all};
ghost use Rattle.px_cert.specs.Reading.{Reads, after_text, digit_count, digits_at, is_plain, number_at, read_on};

use crate::refused::Refused;

/// Returns what is after the text, where the bytes begin with it.
pub(crate) fn after<'a>(bytes: &'a [u8], text: &[u8]) -> Option<&'a [u8]>
    ensures { MatchOption result (after_text text.now bytes.now ≡ None) (λ rest. after_text text.now bytes.now ≡ Some rest.now) }
{
    bytes.strip_prefix(text)
}

/// Returns what is after the text, with which the bytes have to begin.
pub(crate) fn expect<'a>(bytes: &'a [u8], text: &[u8]) -> Result<&'a [u8], Refused>
    ensures { Reads (λ rest. rest.now) result (after_text text.now bytes.now) }
{
    match after(bytes, text) {
        Some(rest) => Ok(rest),
        None => Err(Refused::Bad),
    }
}

/// Returns how many digits the bytes begin with.
fn digit_count(bytes: &[u8]) -> usize
    ensures count { result ≡ digit_count bytes.now }
    ensures within { result ≤ length bytes.now }
    ensures digits { list_all is_ascii_digit (take result bytes.now) ≡ true }
{
    for (place, byte) in bytes.iter().enumerate() {
        if !byte.is_ascii_digit() {
            return place;
        }
    }
    bytes.len()
}

/// Returns whether there is a digit, and no further one after a first 0.
fn is_plain(digits: &[u8]) -> bool
    ensures { result ≡ is_plain digits.now }
{
    1 <= digits.len() && (digits[0] != b'0' || digits.len() == 1)
}

/// Returns the number of the digits, if it is below the limit.
fn value_below(digits: &[u8], limit: u32) -> Option<u32>
    requires { list_all is_ascii_digit digits.now ≡ true }
    ensures { MatchOption result (limit ≤ read_on 0 digits.now) (λ value. (value ≡ read_on 0 digits.now) × (value < limit)) }
{
    let mut value: u64 = 0;
    for digit in digits {
        if value >= u64::from(limit) {
            return None;
        }
        value = 10 * value + u64::from(*digit - b'0');
    }
    if value < u64::from(limit) {
        Some(value as u32)
    } else {
        None
    }
}

/// Reads the digits of a number below the limit.
pub(crate) fn digits(bytes: &[u8], limit: u32) -> Result<(u32, &[u8]), Refused>
    ensures read { Reads (λ x. (x.0, x.1.now)) result (digits_at limit bytes.now) }
    ensures below { IfOk result (λ x. x.0 < limit) }
{
    let (text, rest) = bytes.split_at(digit_count(bytes));
    if !is_plain(text) {
        return Err(Refused::Bad);
    }
    match value_below(text, limit) {
        Some(value) => Ok((value, rest)),
        None => Err(Refused::Bad),
    }
}

/// Reads a space and a number below the limit.
#[tactic(auto, unfolding(crate::specs::Reading::number_at))]
pub(crate) fn number(bytes: &[u8], limit: u32) -> Result<(u32, &[u8]), Refused>
    ensures read { Reads (λ x. (x.0, x.1.now)) result (number_at limit bytes.now) }
    ensures below { IfOk result (λ x. x.0 < limit) }
{
    let rest = expect(bytes, b" ")?;
    digits(rest, limit)
}
