// Numbers, strings and names.

ghost use Rattle.std.specs.Prelude.{◌≡◌, ◌≤◌, ◌<◌, false, true, length, IfOk, MatchOption, string_bytes};
ghost use Rattle.std.specs.List.{list_all};
ghost use Rattle.std.specs.Str.Lossy.{utf8_valid_len};
ghost use Rattle.ss_lexer.specs.Lexemes.{is_word_byte, decimal, escapes, written_by, ends_escape, escapes_len, value_from};

use std::alloc::{AllocError, Global};

// The number that the digits write, if it is at most 2147483648.
#[tactic(auto, using(crate::proofs::Texts::decimal_from_le))]
pub fn number_value(digits: &[u8]) -> Option<u32>
    ensures { MatchOption result (2147483648 < decimal digits.now) (λ n. (n ≡ decimal digits.now) × (n ≤ 2147483648)) }
{
    let mut n: u64 = 0;
    let mut rest = digits;
    while let [digit, behind @ ..] = rest {
        n = 10 * n + u64::from(digit.saturating_sub(b'0'));
        if n > 2_147_483_648 {
            return None;
        }
        rest = behind;
    }
    Some(n as u32)
}

// How many bytes at the front are UTF-8.
#[tactic(auto, using(crate::proofs::Texts::utf8_whole, crate::proofs::Texts::utf8_within))]
pub fn utf8_length(bytes: &[u8]) -> usize
    ensures run { result ≡ utf8_valid_len bytes.now }
    ensures within { result ≤ length bytes.now }
{
    match str::from_utf8(bytes) {
        Ok(_) => bytes.len(),
        Err(error) => error.valid_up_to(),
    }
}

// The byte that an escape writes, by the byte after its backslash.
fn escaped(byte: u8) -> Option<u8>
    ensures { result ≡ written_by escapes byte }
{
    match byte {
        b'"' => Some(b'"'),
        b'\\' => Some(b'\\'),
        b'n' => Some(b'\n'),
        b'r' => Some(b'\r'),
        b't' => Some(b'\t'),
        b'0' => Some(0),
        _ => None,
    }
}

fn ends_escape(bytes: &[u8]) -> bool
    ensures { result ≡ ends_escape bytes.now }
{
    match bytes {
        [byte, ..] => escaped(*byte).is_some(),
        [] => false,
    }
}

// How many bytes stand before the first backslash that begins no escape, or in all.
pub fn escapes_length(bytes: &[u8]) -> usize
    ensures { result ≡ escapes_len false bytes.now }
{
    let mut n = 0;
    let mut hidden = false;
    let mut rest = bytes;
    while let [byte, behind @ ..] = rest {
        let begins = *byte == b'\\' && !hidden;
        if begins && !ends_escape(behind) {
            return n;
        }
        hidden = begins;
        n += 1;
        rest = behind;
    }
    n
}

// The bytes that the inside of a string stands for.
pub fn string_value(alloc: Global, inside: &[u8]) -> Result<Vec<u8>, AllocError>
    ensures { IfOk result (λ v. v.items ≡ value_from false inside.now) }
{
    let mut value = Vec::new(alloc);
    let mut hidden = false;
    let mut rest = inside;
    while let [byte, behind @ ..] = rest {
        if hidden {
            value.push(escaped(*byte).unwrap_or(*byte))?;
            hidden = false;
        } else if *byte == b'\\' {
            hidden = true;
        } else {
            value.push(*byte)?;
        }
        rest = behind;
    }
    Ok(value)
}

// The name that the bytes spell.
pub fn name_of(alloc: Global, text: &[u8]) -> Result<String, AllocError>
    requires { list_all is_word_byte text.now ≡ true }
    ensures { IfOk result (λ s. string_bytes s ≡ text.now) }
{
    match str::from_utf8(text) {
        Ok(name) => String::from_str(alloc, name),
        Err(_) => unreachable!(),
    }
}
