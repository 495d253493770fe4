// Where words, numbers, lines, comments and strings end.

ghost use Rattle.std.specs.Prelude.{◌≡◌, ◌≤◌, false, length, IfSome};
ghost use Rattle.std.specs.List.{prefix_len};
ghost use Rattle.ss_lexer.specs.Lexemes.{is_letter, is_digit, is_blank, is_word_byte, stays_on_line, first_is, comment_end, string_end};

pub fn is_letter(byte: u8) -> bool
    ensures { result ≡ is_letter byte }
{
    (b'A' <= byte && byte <= b'Z') || (b'a' <= byte && byte <= b'z') || byte == b'_'
}

pub fn is_digit(byte: u8) -> bool
    ensures { result ≡ is_digit byte }
{
    b'0' <= byte && byte <= b'9'
}

pub fn is_blank(byte: u8) -> bool
    ensures { result ≡ is_blank byte }
{
    byte == b' ' || byte == b'\t' || byte == b'\r' || byte == b'\n'
}

fn is_word_byte(byte: u8) -> bool
    ensures { result ≡ is_word_byte byte }
{
    is_letter(byte) || is_digit(byte)
}

// How many bytes at the front are letters, digits or `_`.
pub fn word_length(bytes: &[u8]) -> usize
    ensures run { result ≡ prefix_len is_word_byte bytes.now }
    ensures within { result ≤ length bytes.now }
{
    let mut n = 0;
    while n < bytes.len() && is_word_byte(bytes[n]) {
        n += 1;
    }
    n
}

// How many bytes at the front are digits.
pub fn digits_length(bytes: &[u8]) -> usize
    ensures run { result ≡ prefix_len is_digit bytes.now }
    ensures within { result ≤ length bytes.now }
{
    let mut n = 0;
    while n < bytes.len() && is_digit(bytes[n]) {
        n += 1;
    }
    n
}

// How many bytes stand before the line's end.
pub fn line_length(bytes: &[u8]) -> usize
    ensures run { result ≡ prefix_len stays_on_line bytes.now }
    ensures within { result ≤ length bytes.now }
{
    let mut n = 0;
    while n < bytes.len() && bytes[n] != b'\n' {
        n += 1;
    }
    n
}

// The first byte is this one.
pub fn first_is(byte: u8, bytes: &[u8]) -> bool
    ensures { result ≡ first_is byte bytes.now }
{
    match bytes {
        [first, ..] => *first == byte,
        [] => false,
    }
}

// How many bytes there are up to the first `*/` and with it.
#[tactic(auto, using(crate::proofs::Ends::shifted_suc, crate::proofs::Ends::shifted_none))]
pub fn comment_end(bytes: &[u8]) -> Option<usize>
    ensures end { result ≡ comment_end bytes.now }
    ensures within { IfSome result (λ n. n ≤ length bytes.now) }
{
    let mut n = 0;
    let mut rest = bytes;
    while let [first, behind @ ..] = rest {
        if *first == b'*' && first_is(b'/', behind) {
            return Some(n + 2);
        }
        n += 1;
        rest = behind;
    }
    None
}

// How many bytes there are up to the quote that ends a string and with it, if it stands on the line.
#[tactic(auto, using(crate::proofs::Ends::shifted_suc, crate::proofs::Ends::shifted_none))]
pub fn string_end(bytes: &[u8]) -> Option<usize>
    ensures end { result ≡ string_end false bytes.now }
    ensures within { IfSome result (λ n. n ≤ length bytes.now) }
{
    let mut n = 0;
    let mut hidden = false;
    let mut rest = bytes;
    while let [first, behind @ ..] = rest {
        if *first == b'\n' {
            return None;
        }
        if *first == b'"' && !hidden {
            return Some(n + 1);
        }
        hidden = *first == b'\\' && !hidden;
        n += 1;
        rest = behind;
    }
    None
}
