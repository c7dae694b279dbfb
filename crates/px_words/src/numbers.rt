//! Numbers among the words.
ghost use Rattle.std.specs.Prelude.{◌≡◌};
ghost use Rattle.std.specs.Char.{is_ascii_digit};
ghost use Rattle.std.specs.List.{list_all};
ghost use Rattle.px_words.specs.Numbers.{in_range, is_number, number_within};

/// Returns whether the word has one to ten digits, and nothing else.
fn is_number(word: &str) -> bool
    ensures { result ≡ is_number word.now }
{
    let bytes = word.as_bytes();
    1 <= bytes.len() && bytes.len() <= 10 && are_digits(bytes)
}

/// Returns whether all bytes are digits.
fn are_digits(bytes: &[u8]) -> bool
    ensures { result ≡ list_all is_ascii_digit bytes.now }
{
    bytes.iter().all(|byte| byte.is_ascii_digit())
}

/// Returns the number, if it is in the range.
fn in_range(least: u32, most: u32, number: u32) -> Option<u32>
    ensures { result ≡ in_range least most number }
{
    if least <= number && number <= most {
        Some(number)
    } else {
        None
    }
}

/// Returns the number that one to ten digits write, if it is in the range.
#[tactic(auto, using(crate::proofs::Decimals::none_right, crate::proofs::Decimals::read_right, crate::proofs::Decimals::unread_right))]
pub(crate) fn number_within(least: u32, most: u32, word: &str) -> Option<u32>
    ensures { result ≡ number_within least most word.now }
{
    if !is_number(word) {
        return None;
    }
    match word.parse::<u32>() {
        Ok(number) => in_range(least, most, number),
        Err(_) => None,
    }
}
