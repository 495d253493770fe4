// Words of fixed spelling, numbers and string literals.

ghost use Rattle.std.specs.Prelude.{◌≡◌, [], ◌∷◌, ◌++◌, OnOk};
ghost use Rattle.std.specs.Fmt.{signed_decimal};
ghost use Rattle.std.specs.List.{flat_map};
ghost use Rattle.ss_report_core.specs.Exprs as exprs;
ghost use Rattle.ss_report_core.specs.Stmts as stmts;

use ss_core::{Operator, Quantifier};
use std::alloc::{AllocError, Global};

pub(crate) fn bool_text(b: bool) -> &'static [u8]
    ensures { result.now ≡ exprs.bool_text b }
{
    if b { b"true" } else { b"false" }
}

pub(crate) fn operator_text(operator: Operator) -> &'static [u8]
    ensures { result.now ≡ exprs.operator_text operator }
{
    match operator {
        Operator::Or => b" || ",
        Operator::And => b" && ",
        Operator::Equal => b" == ",
        Operator::NotEqual => b" != ",
        Operator::Less => b" < ",
        Operator::LessEqual => b" <= ",
        Operator::Greater => b" > ",
        Operator::GreaterEqual => b" >= ",
        Operator::Add => b" + ",
        Operator::Subtract => b" - ",
        Operator::Multiply => b" * ",
        Operator::Divide => b" / ",
        Operator::Remainder => b" % ",
    }
}

pub(crate) fn quantifier_text(quantifier: Quantifier) -> &'static [u8]
    ensures { result.now ≡ exprs.quantifier_text quantifier }
{
    match quantifier {
        Quantifier::Forall => b"forall",
        Quantifier::Exists => b"exists",
    }
}

/// An exclamation mark after a class that null doesn't pass.
pub(crate) fn null_mark(non_null: bool) -> &'static [u8]
    ensures { result.now ≡ exprs.null_mark non_null }
{
    if non_null { b"!" } else { b"" }
}

pub(crate) fn print_word(newline: bool) -> &'static [u8]
    ensures { result.now ≡ stmts.print_word newline }
{
    if newline { b"printline" } else { b"print" }
}

pub(crate) fn push_int(alloc: Global, out: &mut Vec<u8>, n: i32) -> Result<(), AllocError>
    ensures { OnOk result (out.new.items ≡ out.old.items ++ signed_decimal n) }
{
    let text = n.to_string(alloc)?;
    out.extend_from_slice(text.as_bytes())
}

// A byte of a string, where it is escaped after a backslash.
fn push_escaped(out: &mut Vec<u8>, byte: u8) -> Result<(), AllocError>
    ensures { OnOk result (out.new.items ≡ out.old.items ++ stmts.escaped byte) }
{
    if byte == b'"' {
        out.extend_from_slice(b"\\\"")
    } else if byte == b'\\' {
        out.extend_from_slice(b"\\\\")
    } else if byte == b'\n' {
        out.extend_from_slice(b"\\n")
    } else if byte == b'\r' {
        out.extend_from_slice(b"\\r")
    } else if byte == b'\t' {
        out.extend_from_slice(b"\\t")
    } else if byte == 0 {
        out.extend_from_slice(b"\\0")
    } else {
        out.extend_from_slice(&[byte])
    }
}

fn push_all_escaped(out: &mut Vec<u8>, bytes: &[u8]) -> Result<(), AllocError>
    ensures { OnOk result (out.new.items ≡ out.old.items ++ flat_map stmts.escaped bytes.now) }
{
    for byte in bytes {
        push_escaped(out, *byte)?;
    }
    Ok(())
}

/// The literal of a string of these bytes.
pub(crate) fn push_literal(out: &mut Vec<u8>, bytes: &[u8]) -> Result<(), AllocError>
    ensures { OnOk result (out.new.items ≡ out.old.items ++ stmts.literal bytes.now) }
{
    out.extend_from_slice(b"\"")?;
    push_all_escaped(out, bytes)?;
    out.extend_from_slice(b"\"")
}
