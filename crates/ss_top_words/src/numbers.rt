// Numbers in words.
ghost use Rattle.std.specs.Prelude.{◌≡◌, ◌≤◌, Some, IfOk, IfSome};
ghost use Rattle.std.specs.List.{list_all};
ghost use Rattle.ss_top_words.specs.Numbers as numbers;
ghost use Rattle.ss_top_words.specs.Views.{texts_of, IsPushed};
ghost use Rattle.ss_top_words.specs.Words as meaning;

use std::alloc::AllocError;

fn is_digit(byte: u8) -> bool
    ensures { result ≡ numbers.is_digit byte }
{
    48 <= byte && byte <= 57
}

fn are_digits(bytes: &[u8]) -> bool
    ensures { result ≡ list_all numbers.is_digit bytes.now }
{
    for byte in bytes {
        if !is_digit(*byte) {
            return false;
        }
    }
    true
}

// The number that the digits write, where it is at most the limit.
#[tactic(auto, using(crate::proofs::Ends::number_after_le))]
fn number_within(limit: u32, digits: &[u8]) -> Option<u64>
    ensures value { result ≡ numbers.within limit (numbers.number_after 0 digits.now) }
    ensures within { IfSome result (λ n. n ≤ limit) }
{
    let mut number = 0u64;
    let mut rest = digits;
    while let [digit, behind @ ..] = rest {
        number = number * 10 + u64::from(digit.saturating_sub(b'0'));
        if number > u64::from(limit) {
            return None;
        }
        rest = behind;
    }
    Some(number)
}

// The number of one to ten digits, where it is at most the limit.
pub fn natural(limit: u32, bytes: &[u8]) -> Option<u64>
    ensures value { result ≡ numbers.natural limit bytes.now }
    ensures within { IfSome result (λ n. n ≤ limit) }
{
    if bytes.is_empty() || bytes.len() > 10 || !are_digits(bytes) {
        return None;
    }
    number_within(limit, bytes)
}

// A number of an input.
pub fn whole(bytes: &[u8]) -> Option<i32>
    ensures { result ≡ numbers.whole bytes.now }
{
    match bytes {
        [] => None,
        [b'-', digits @ ..] => {
            let number = natural(2_147_483_648, digits)?;
            Some((-(number as i64)) as i32)
        }
        digits => {
            let number = natural(2_147_483_647, digits)?;
            Some(number as i32)
        }
    }
}

// Adds the numbers of the words; false where one is none.
#[tactic(auto, using(crate::proofs::Ends::no_numbers))]
pub fn push_numbers(words: &[&str], input: &mut Vec<i32>) -> Result<bool, AllocError>
    ensures { IfOk result (λ all. IsPushed all input.new.items (meaning.numbers_after (Some input.old.items) (texts_of words.now))) }
{
    let mut rest = words;
    while let [word, behind @ ..] = rest {
        let Some(number) = whole(word.as_bytes()) else {
            return Ok(false);
        };
        input.push(number)?;
        rest = behind;
    }
    Ok(true)
}
