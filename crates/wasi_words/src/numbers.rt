ghost use Rattle.std.specs.Prelude.{◌≡◌, ◌≤◌, IfSome};
ghost use Rattle.std.specs.List.{list_all};
ghost use Rattle.std.specs.Char.{is_ascii_digit};
ghost use Rattle.wasi_words.specs.Fields.{number_of, u128_of, number_between};

/// A number of 1 to 20 decimal digits that a u64 holds. Leading zeros are fine.
#[tactic(auto, using(crate::proofs::NumberFacts::number_parsed))]
pub fn parse_number(text: &[u8]) -> Option<u64>
    ensures { result ≡ number_of text.now }
{
    if text.is_empty() || text.len() > 20 || !are_digits(text) {
        return None;
    }
    match std::str::from_utf8(text) {
        Ok(digits) => digits.parse().ok(),
        Err(_) => None,
    }
}

/// A number of 1 to 39 decimal digits that a u128 holds. Leading zeros are fine.
#[tactic(auto, using(crate::proofs::NumberFacts::u128_parsed))]
pub fn parse_u128(text: &[u8]) -> Option<u128>
    ensures { result ≡ u128_of text.now }
{
    if text.is_empty() || text.len() > 39 || !are_digits(text) {
        return None;
    }
    match std::str::from_utf8(text) {
        Ok(decimal) => decimal.parse().ok(),
        Err(_) => None,
    }
}

fn are_digits(text: &[u8]) -> bool
    ensures { result ≡ list_all is_ascii_digit text.now }
{
    text.iter().all(|byte| byte.is_ascii_digit())
}

/// A number from `least` to `most`.
pub fn parse_between(text: &[u8], least: u32, most: u32) -> Option<u32>
    ensures number { result ≡ number_between least most text.now }
    ensures within { IfSome result (λ number. (least ≤ number) × (number ≤ most)) }
{
    let number = parse_number(text)?;
    if u64::from(least) <= number && number <= u64::from(most) {
        Some(number as u32)
    } else {
        None
    }
}
