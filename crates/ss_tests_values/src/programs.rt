// Sources and what they are read as, worked out by hand.

use ss_ast::{MemberKind, Program};
use ss_core::FrontStop;
use ss_decls::parse_program;
use ss_lexer::tokens;
use std::alloc::{AllocError, Global};
use std::test::Fail;

const COUNTER: &[u8] =
    b"class Counter {\n  int n;\n  invariant 0 <= n;\n  Counter() ensures n == 0; { n = 0; }\n  void Inc() requires n < 1000; ensures n == old(n) + 1; {\n    expose (this) { n = n + 1; }\n  }\n}\nclass P {\n  static void Main() { Counter! c = new Counter(); c.Inc(); Console.WriteLine(c.n); }\n}";

fn kind(kind: &MemberKind) -> &'static str {
    match kind {
        MemberKind::Fields(_) => "fields",
        MemberKind::Invariant(_) => "invariant",
        MemberKind::Method(_) => "method",
        MemberKind::Constructor(_) => "constructor",
    }
}

// Each class with its members, and the end of the text.
fn outline(alloc: Global, program: &Program) -> Result<String, AllocError> {
    let mut text = String::new(alloc);
    for class in &program.classes {
        text.push_str(class.name.text.as_str())?;
        for member in &class.members {
            text.push_str(" ")?;
            text.push_str(kind(&member.kind))?;
        }
        text.push_str("; ")?;
    }
    let line = program.last.line;
    let column = program.last.column;
    text.push_str(format!(in alloc; "{line}:{column}")?.as_str())?;
    Ok(text)
}

// The outline of the program; or the rule and the place of the fault.
fn shown(alloc: Global, source: &[u8]) -> Result<String, AllocError> {
    let read = match tokens(alloc, source) {
        Ok(read) => read,
        Err(_) => return format!(in alloc; "no tokens"),
    };
    match parse_program(alloc, read.as_slice()) {
        Ok(program) => outline(alloc, &program),
        Err(FrontStop::Refused { rule, place }) => {
            let line = place.line;
            let column = place.column;
            format!(in alloc; "{rule} at {line}:{column}")
        }
        Err(FrontStop::Memory) => Err(AllocError),
    }
}

fn is_shown(alloc: Global, source: &[u8], wanted: &str) -> Result<bool, AllocError> {
    let found = shown(alloc, source)?;
    Ok(found.as_str() == wanted)
}

// The first of these sources that is shown otherwise.
fn first_other(alloc: Global, rows: &[(&[u8], &str)]) -> Result<Option<usize>, AllocError> {
    for (number, (source, wanted)) in rows.iter().enumerate() {
        if !is_shown(alloc, *source, *wanted)? {
            return Ok(Some(number));
        }
    }
    Ok(None)
}

#[test]
fn reads_programs_and_refuses_the_first_token_that_cannot_go_on(
    rt: HostRuntime,
) -> Result<(), Fail> {
    let rows: [(&[u8], &str); 16] = [
        (b"", "1:1"),
        (b"using System.Text; using A;", "1:28"),
        (b"public class P : Q { }", "P; 1:23"),
        (
            b"class P { [Rep] public int[]! a = 1, b; P! c; static void M([A] int x, Q! y) modifies a[*], this.*, b.c; { } }",
            "P fields fields method; 1:111",
        ),
        (
            b"class P : Q { P(int x) : base(x) requires x < 1; { } }",
            "P constructor; 1:55",
        ),
        (
            COUNTER,
            "Counter fields invariant constructor method; P method; 11:2",
        ),
        (b"class P { int 3; }", "10 at 1:15"),
        (b"class P { } }", "12 at 1:13"),
        (b"class P {", "10 at 1:10"),
        (b"}", "12 at 1:1"),
        (b"using A; }", "12 at 1:10"),
        (b"public }", "10 at 1:8"),
        (b"class P { } x", "10 at 1:13"),
        (b"class P { void M() modifies a.*.b; { } }", "10 at 1:32"),
        (b"class P { P() : base; { } }", "10 at 1:21"),
        (b"class P { int f( }", "10 at 1:18"),
    ];
    let other = first_other(rt.alloc(), &rows)?;
    assert_eq!(rt; other, None);
    Ok(())
}

// The front of this many bytes, or all.
fn front(source: &[u8], length: usize) -> &[u8] {
    if length >= source.len() {
        return source;
    }
    let (before, _) = source.split_at(length);
    before
}

// Whether the front of the counter with so many bytes is read or refused as it should.
fn is_front(alloc: Global, length: usize) -> Result<bool, AllocError> {
    let text = shown(alloc, front(COUNTER, length))?;
    let read = text.as_str() == "1:1"
        || text.as_str() == "Counter fields invariant constructor method; 8:2"
        || text.as_str() == "Counter fields invariant constructor method; 9:1";
    let wanted = length == 0 || length == 181 || length == 182;
    Ok(read == wanted && (wanted || text.as_str().starts_with("10 at ")))
}

// The first front that isn't.
fn first_front(alloc: Global) -> Result<Option<usize>, AllocError> {
    for length in 0..COUNTER.len() {
        if !is_front(alloc, length)? {
            return Ok(Some(length));
        }
    }
    Ok(None)
}

#[test]
fn refuses_each_front_of_a_program(rt: HostRuntime) -> Result<(), Fail> {
    let other = first_front(rt.alloc())?;
    assert_eq!(rt; other, None);
    Ok(())
}
