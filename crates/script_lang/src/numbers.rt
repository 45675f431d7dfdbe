//! Numbers in decimal digits.
ghost use Rattle.std.specs.Prelude.{◌≡◌, ◌<◌, ◌^◌, SomeIff};
ghost use Rattle.std.specs.List.{list_all};
ghost use Rattle.std.specs.Char.{is_ascii_digit};
ghost use Rattle.script_lang.specs.Words.{decimal_value, has_leading_zero as leading_zero, is_decimal as decimal, number_within as within};

fn has_leading_zero(word: &[u8]) -> bool
    ensures { result ≡ leading_zero word.now }
{
    word.len() > 1 && word[0] == b'0'
}

fn are_digits(word: &[u8]) -> bool
    ensures { result ≡ list_all is_ascii_digit word.now }
{
    word.iter().all(|byte| byte.is_ascii_digit())
}

/// Is the word a number in decimal digits, without a leading zero?
fn is_decimal(word: &[u8]) -> bool
    ensures { result ≡ decimal word.now }
{
    if word.is_empty() {
        return false;
    }
    if has_leading_zero(word) {
        return false;
    }
    are_digits(word)
}

/// The value of a word of digits, where 64 bits hold it.
fn value_of_digits(word: &[u8]) -> Option<u64>
    ensures { SomeIff result (decimal_value word.now < 2 ^ 64) (decimal_value word.now) }
{
    let mut value: u64 = 0;
    for digit in word {
        let digit = u64::from(digit.saturating_sub(b'0'));
        value = value.checked_mul(10)?.checked_add(digit)?;
    }
    Some(value)
}

/// The number that a word of decimal digits spells, where it is neither below `least` nor above `most`.
pub fn number_within(word: &[u8], least: u64, most: u64) -> Option<u64>
    ensures { result ≡ within least most word.now }
{
    if !is_decimal(word) {
        return None;
    }
    let number = value_of_digits(word)?;
    (least..=most).contains(&number).then_some(number)
}
