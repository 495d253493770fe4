// Sources and what their first expression is, worked out by hand.

use ss_ast::Expr;
use ss_core::FrontStop;
use ss_lexer::tokens;
use ss_parser_expressions::parse_expr;
use std::alloc::{AllocError, Global};
use std::test::Fail;

fn kind(expr: &Expr) -> &'static str {
    match expr {
        Expr::Iff(_, _, _) => "iff",
        Expr::Implies(_, _, _) => "implies",
        Expr::Chain(_, _, _) => "chain",
        Expr::Negate(_, _) => "negate",
        Expr::Cast(_, _, _) => "cast",
        Expr::Path(_, _, _) => "path",
        Expr::Number(_, _) => "number",
        Expr::Name(_, _) => "name",
        Expr::Paren(_, _) => "paren",
        Expr::New(_, _, _) => "new",
        Expr::NewArray(_, _, _, _) => "new array",
        Expr::Quantified(_, _, _, _, _, _) => "quantified",
        _ => "other",
    }
}

// What the first expression is, and the number of the token after it; or the rule and the place of the fault.
fn shown(alloc: Global, source: &[u8]) -> Result<String, AllocError> {
    let read = match tokens(alloc, source) {
        Ok(read) => read,
        Err(_) => return format!(in alloc; "no tokens"),
    };
    if read.is_empty() {
        return format!(in alloc; "no tokens");
    }
    match parse_expr(alloc, read.as_slice(), 0) {
        Ok((expr, next)) => {
            let name = kind(&expr);
            format!(in alloc; "{name} {next}")
        }
        Err(FrontStop::Refused { rule, place }) => {
            let line = place.line;
            let column = place.column;
            format!(in alloc; "{rule} at {line}:{column}")
        }
        Err(FrontStop::Memory) => Err(AllocError),
    }
}

fn is_shown(alloc: Global, source: &[u8], wanted: &str) -> Result<bool, AllocError> {
    let found = shown(alloc, source)?;
    Ok(found.as_str() == wanted)
}

// The first of these sources that is shown otherwise.
fn first_other(alloc: Global, rows: &[(&[u8], &str)]) -> Result<Option<usize>, AllocError> {
    for (number, (source, wanted)) in rows.iter().enumerate() {
        if !is_shown(alloc, *source, *wanted)? {
            return Ok(Some(number));
        }
    }
    Ok(None)
}

#[test]
fn reads_the_longest_expression(rt: HostRuntime) -> Result<(), Fail> {
    let rows: [(&[u8], &str); 26] = [
        (b"1", "number 1"),
        (b"a + b * c;", "chain 5"),
        (b"a == b ==> c ==> d", "implies 7"),
        (b"a <==> b <==> c", "iff 3"),
        (b"(a)(b)", "cast 6"),
        (b"(a).b", "path 5"),
        (b"((a))(b)", "path 8"),
        (b"(a[])b", "cast 6"),
        (b"(a[0])(b)", "path 9"),
        (b"(a!)b", "cast 5"),
        (b"(a) - b", "chain 5"),
        (b"(int)-b", "10 at 1:6"),
        (b"(int +", "10 at 1:6"),
        (b"(a b)", "10 at 1:4"),
        (b"-2147483648", "number 2"),
        (b"- 5", "negate 2"),
        (b"x is int[] && y", "chain 7"),
        (b"x as T!", "chain 3"),
        (b"new int[3][0]", "path 8"),
        (b"new int(3)", "10 at 1:8"),
        (b"new C(1, 2)", "new 7"),
        (b"f(a, )", "10 at 1:6"),
        (b"forall{int i in (0: n); i < n}", "quantified 15"),
        (b"base.M()", "path 5"),
        (b";", "10 at 1:1"),
        (b"a.", "10 at 1:3"),
    ];
    let other = first_other(rt.alloc(), &rows)?;
    assert_eq!(rt; other, None);
    Ok(())
}

fn nested(alloc: Global, depth: u32) -> Result<Vec<u8>, AllocError> {
    let mut source = Vec::new(alloc);
    for _i in 0..depth {
        source.push(b'(')?;
    }
    source.push(b'1')?;
    for _i in 0..depth {
        source.push(b')')?;
    }
    Ok(source)
}

fn is_nested(alloc: Global, depth: u32, wanted: &str) -> Result<bool, AllocError> {
    let source = nested(alloc, depth)?;
    is_shown(alloc, source.as_slice(), wanted)
}

#[test]
fn nests_64_deep(rt: HostRuntime) -> Result<(), Fail> {
    let deep = is_nested(rt.alloc(), 64, "paren 129")?;
    let deeper = is_nested(rt.alloc(), 65, "11 at 1:65")?;
    assert!(rt; deep && deeper);
    Ok(())
}
