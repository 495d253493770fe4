// Sources and their tokens, worked out by hand.

use ss_ast::{Token, TokenKind, Word, same_word};
use ss_core::FrontStop;
use ss_lexer::{MAX_BYTES, tokens};
use std::alloc::{AllocError, Global};
use std::test::Fail;

fn kind_shown(alloc: Global, kind: &TokenKind) -> Result<String, AllocError> {
    match kind {
        TokenKind::Word(word) if same_word(*word, Word::Class) => {
            format!(in alloc; "Word(Class)")
        }
        TokenKind::Word(_) => format!(in alloc; "another word"),
        TokenKind::Symbol(symbol) => format!(in alloc; "Symbol({symbol:?})"),
        TokenKind::Name(name) => format!(in alloc; "Name({name:?})"),
        TokenKind::Number(number) => format!(in alloc; "Number({number})"),
        TokenKind::Text(bytes) => format!(in alloc; "Text({bytes:?})"),
        TokenKind::TextEnd => format!(in alloc; "TextEnd"),
    }
}

// A token with its place.
fn push_token(alloc: Global, text: &mut String, token: &Token) -> Result<(), AllocError> {
    let line = token.place.line;
    let column = token.place.column;
    let kind = kind_shown(alloc, &token.kind)?;
    text.push_str(format!(in alloc; "{line}:{column} {kind}; ")?.as_str())?;
    Ok(())
}

fn push_tokens(alloc: Global, text: &mut String, tokens: &[Token]) -> Result<(), AllocError> {
    for token in tokens {
        push_token(alloc, text, token)?;
    }
    Ok(())
}

// Each token with its place; or the rule and the place of the fault.
fn shown(alloc: Global, source: &[u8]) -> Result<String, AllocError> {
    let mut text = String::new(alloc);
    match tokens(alloc, source) {
        Ok(read) => {
            push_tokens(alloc, &mut text, &read)?;
            Ok(text)
        }
        Err(FrontStop::Refused { rule, place }) => {
            let line = place.line;
            let column = place.column;
            format!(in alloc; "{rule} at {line}:{column}")
        }
        Err(FrontStop::Memory) => Err(AllocError),
    }
}

fn is_shown(alloc: Global, source: &[u8], wanted: &str) -> Result<bool, AllocError> {
    let found = shown(alloc, source)?;
    Ok(found.as_str() == wanted)
}

// The first of these sources that is shown otherwise.
fn first_other(alloc: Global, rows: &[(&[u8], &str)]) -> Result<Option<usize>, AllocError> {
    for (number, (source, wanted)) in rows.iter().enumerate() {
        if !is_shown(alloc, *source, *wanted)? {
            return Ok(Some(number));
        }
    }
    Ok(None)
}

#[test]
fn reads_tokens(rt: HostRuntime) -> Result<(), Fail> {
    let rows: [(&[u8], &str); 13] = [
        (b"", "1:1 TextEnd; "),
        (
            b"class P_1 {\n",
            "1:1 Word(Class); 1:7 Name(\"P_1\"); 1:11 Symbol(OpenBrace); 2:1 TextEnd; ",
        ),
        (b"classes", "1:1 Name(\"classes\"); 1:8 TextEnd; "),
        (
            b"a==>b<==>c",
            "1:1 Name(\"a\"); 1:2 Symbol(Implies); 1:5 Name(\"b\"); 1:6 Symbol(Iff); 1:10 Name(\"c\"); 1:11 TextEnd; ",
        ),
        (
            b"<==+++",
            "1:1 Symbol(LessEqual); 1:3 Symbol(Equal); 1:4 Symbol(PlusPlus); 1:6 Symbol(Plus); 1:7 TextEnd; ",
        ),
        (b"a\r\nb", "1:1 Name(\"a\"); 2:1 Name(\"b\"); 2:2 TextEnd; "),
        (b"\ra\tb", "1:2 Name(\"a\"); 1:4 Name(\"b\"); 1:5 TextEnd; "),
        (b"\xef\xbb\xbf", "1:1 TextEnd; "),
        (b"\xef\xbb\xbfa", "1:1 Name(\"a\"); 1:2 TextEnd; "),
        (
            b"0007 12ab",
            "1:1 Number(7); 1:6 Number(12); 1:8 Name(\"ab\"); 1:10 TextEnd; ",
        ),
        (
            b"a/*/ \xc3\xa9 **/b//\xe2\x82\xac\n/",
            "1:1 Name(\"a\"); 1:12 Name(\"b\"); 2:1 Symbol(Slash); 2:2 TextEnd; ",
        ),
        (
            b"\"\\\"\\\\\\n\\r\\t\\0\"",
            "1:1 Text([34, 92, 10, 13, 9, 0]); 1:15 TextEnd; ",
        ),
        (
            b"\"\xc3\xa9\t//\"x",
            "1:1 Text([195, 169, 9, 47, 47]); 1:8 Name(\"x\"); 1:9 TextEnd; ",
        ),
    ];
    let other = first_other(rt.alloc(), &rows)?;
    assert_eq!(rt; other, None);
    Ok(())
}

#[test]
fn refuses_the_first_fault(rt: HostRuntime) -> Result<(), Fail> {
    let rows: [(&[u8], &str); 20] = [
        (b"class P { # }", "1 at 1:11"),
        (b"class P { /* x", "2 at 1:11"),
        (b"class P { /*/", "2 at 1:11"),
        (b"a\n \"b\n\"", "3 at 2:2"),
        (b"\"a\\\"", "3 at 1:1"),
        (b"\"a\\\n\"", "3 at 1:1"),
        (b"a & b", "1 at 1:3"),
        (b"a \xc3\xa9", "1 at 1:3"),
        (b"a\x00", "1 at 1:2"),
        (b"\xef\xbb\xbf\xef\xbb\xbf", "1 at 1:1"),
        (b" \xef\xbb\xbf", "1 at 1:2"),
        (b"\"ab\\x41\"", "1 at 1:4"),
        (b"\"a\xe2\x82\"", "1 at 1:3"),
        (b"\"a\\q\xff\"", "1 at 1:3"),
        (b"\"\xff\\q", "3 at 1:1"),
        (b"// a\xff\nb", "1 at 1:5"),
        (b"/* \n\xed\xa0\x80 */", "1 at 2:1"),
        (b"/* \xc0\xaf */", "1 at 1:4"),
        (b"x = 2147483648", "4 at 1:5"),
        (b"99999999999999999999999999999999999999999", "4 at 1:1"),
    ];
    let other = first_other(rt.alloc(), &rows)?;
    assert_eq!(rt; other, None);
    Ok(())
}

// The first of these sources that isn't read.
fn first_refused(alloc: Global, sources: &[&[u8]]) -> Option<usize> {
    for (number, source) in sources.iter().enumerate() {
        if tokens(alloc, *source).is_err() {
            return Some(number);
        }
    }
    None
}

#[test]
fn reads_the_least_number_after_a_sign(rt: HostRuntime) -> Result<(), Fail> {
    let read: [&[u8]; 5] = [
        b"-2147483648",
        b"return -0002147483648",
        b"= - 2147483648",
        b"\"a\" -2147483648",
        b"} - /* */ 2147483648",
    ];
    let refused: [(&[u8], &str); 10] = [
        (b"a-2147483648", "4 at 1:3"),
        (b"1-2147483648", "4 at 1:3"),
        (b")-2147483648", "4 at 1:3"),
        (b"]-2147483648", "4 at 1:3"),
        (b"this-2147483648", "4 at 1:6"),
        (b"result-2147483648", "4 at 1:8"),
        (b"true-2147483648", "4 at 1:6"),
        (b"false-2147483648", "4 at 1:7"),
        (b"null-2147483648", "4 at 1:6"),
        (b"- 2147483649", "4 at 1:3"),
    ];
    let first = first_refused(rt.alloc(), &read);
    let other = first_other(rt.alloc(), &refused)?;
    assert_eq!(rt; [first, other], [None, None]);
    Ok(())
}

// As many blanks as a source may have, and a byte more.
fn is_limited(alloc: Global) -> Result<bool, AllocError> {
    let mut source = vec![in alloc; b' '; MAX_BYTES]?;
    let is_read = is_shown(alloc, source.as_slice(), "1:1048577 TextEnd; ")?;
    source.push(b'#')?;
    let is_refused = is_shown(alloc, source.as_slice(), "5 at 1:1")?;
    Ok(is_read && is_refused)
}

#[test]
fn refuses_a_long_source_and_tells_words_apart(rt: HostRuntime) -> Result<(), Fail> {
    let is_limited = is_limited(rt.alloc())?;
    assert!(rt; is_limited);
    assert!(rt; same_word(Word::In, Word::In) && !same_word(Word::Using, Word::In));
    Ok(())
}
