// Bodies of methods and where reading them ends, worked out from the grammar apart from this code.

use ss_core::FrontStop;
use ss_lexer::tokens;
use ss_parser::parse_block;
use std::alloc::{AllocError, Global};
use std::test::Fail;

// How many tokens are left after the block that begins with the token `at`; or the rule and the place of the fault.
fn shown(alloc: Global, source: &[u8], at: usize) -> Result<String, AllocError> {
    let read = match tokens(alloc, source) {
        Ok(read) => read,
        Err(_) => return format!(in alloc; "no tokens"),
    };
    if at >= read.len() {
        return format!(in alloc; "no such token");
    }
    match parse_block(alloc, read.as_slice(), at) {
        Ok((_, next)) => {
            let left = read.len().saturating_sub(next);
            format!(in alloc; "{left} left")
        }
        Err(FrontStop::Refused { rule, place }) => {
            let line = place.line;
            let column = place.column;
            format!(in alloc; "{rule} at {line}:{column}")
        }
        Err(FrontStop::Memory) => Err(AllocError),
    }
}

fn is_shown(alloc: Global, source: &[u8], at: usize, wanted: &str) -> Result<bool, AllocError> {
    let found = shown(alloc, source, at)?;
    Ok(found.as_str() == wanted)
}

// The first of these sources that is shown otherwise, from the body of its Main on.
fn first_other(alloc: Global, rows: &[(&[u8], &str)]) -> Result<Option<usize>, AllocError> {
    for (number, (source, wanted)) in rows.iter().enumerate() {
        if !is_shown(alloc, *source, 8, *wanted)? {
            return Ok(Some(number));
        }
    }
    Ok(None)
}

#[test]
fn reads_bodies(rt: HostRuntime) -> Result<(), Fail> {
    let rows: [(&[u8], &str); 3] = [
        (
            b"class P { static void Main() { int x = 3 * -2147483648 + (-2147483648); return; } }",
            "2 left",
        ),
        (
            b"class P { static void Main() { int x; { int x; { bool x; } } for (int x = 0; x < 1; x++) int x; } }",
            "2 left",
        ),
        (
            b"class P { static void Main() { bool a = (P)null is P; a = ((P)null) == null; int x = 1; x = (x) - 1; } }",
            "2 left",
        ),
    ];
    let other = first_other(rt.alloc(), &rows)?;
    assert_eq!(rt; other, None);
    Ok(())
}

#[test]
fn refuses_statements(rt: HostRuntime) -> Result<(), Fail> {
    let rows: [(&[u8], &str); 10] = [
        (b"class P { static void Main() { int x 3; } }", "10 at 1:38"),
        (b"class P { static void Main() { x! = 3; } }", "10 at 1:35"),
        (b"class P { static void Main() { x = ; } }", "10 at 1:36"),
        (b"class P { static void Main() { x } }", "10 at 1:34"),
        (
            b"class P { static void Main() { x = a = b; } }",
            "10 at 1:38",
        ),
        (b"class P { static void Main() { if () y; } }", "10 at 1:36"),
        (b"class P { static void Main() { else ; } }", "10 at 1:32"),
        (
            b"class P { static void Main() { return 1 } } }",
            "10 at 1:41",
        ),
        (b"class P { static void Main() { -x; } }", "10 at 1:32"),
        (
            b"class P { static void Main() { x = (f)(); } }",
            "10 at 1:40",
        ),
    ];
    let other = first_other(rt.alloc(), &rows)?;
    assert_eq!(rt; other, None);
    Ok(())
}

#[test]
fn refuses_loops_and_exposes(rt: HostRuntime) -> Result<(), Fail> {
    let rows: [(&[u8], &str); 7] = [
        (
            b"class P { static void Main() { while (x) invariant ; ; } }",
            "10 at 1:52",
        ),
        (
            b"class P { static void Main() { while (x) ; invariant y; } }",
            "10 at 1:44",
        ),
        (b"class P { static void Main() { for () } }", "10 at 1:37"),
        (
            b"class P { static void Main() { for (int ;;) ; } }",
            "10 at 1:41",
        ),
        (
            b"class P { static void Main() { for (;; int x) ; } }",
            "10 at 1:40",
        ),
        (
            b"class P { static void Main() { expose (x at A at B) { } } }",
            "10 at 1:47",
        ),
        (
            b"class P { static void Main() { expose (x) ; } }",
            "10 at 1:43",
        ),
    ];
    let other = first_other(rt.alloc(), &rows)?;
    assert_eq!(rt; other, None);
    Ok(())
}

fn nested(alloc: Global, depth: u32) -> Result<Vec<u8>, AllocError> {
    let mut source = Vec::new(alloc);
    for _i in 0..depth {
        source.push(b'{')?;
    }
    for _i in 0..depth {
        source.push(b'}')?;
    }
    Ok(source)
}

fn is_nested(alloc: Global, depth: u32, wanted: &str) -> Result<bool, AllocError> {
    let source = nested(alloc, depth)?;
    is_shown(alloc, source.as_slice(), 0, wanted)
}

#[test]
fn nests_64_deep(rt: HostRuntime) -> Result<(), Fail> {
    let deep = is_nested(rt.alloc(), 64, "1 left")?;
    let deeper = is_nested(rt.alloc(), 65, "11 at 1:65")?;
    assert!(rt; deep && deeper);
    Ok(())
}
