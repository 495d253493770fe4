// What is printed.
ghost use Rattle.std.specs.Prelude.{◌≡◌, IfOk, string_bytes};
ghost use Rattle.ss_machine_rules.specs.Steps as steps;
ghost use Rattle.ss_machine.specs.Moves.{WriteIs, HasCause};
ghost use Rattle.ss_machine.specs.Pieces.{WritesOne};

use crate::halt::Halt;
use ss_io::{Sink, WriteStop};
use ss_store_rules::Value;
use std::alloc::{AllocError, Global};

// A number in decimal, or `True` or `False`.
fn text_of(alloc: Global, value: Value) -> Result<String, AllocError>
    ensures { IfOk result (λ s. string_bytes s ≡ steps.text_of value) }
{
    match value {
        Value::Int(n) => format!(in alloc; "{n}"),
        Value::Bool(true) => String::from_str(alloc, "True"),
        Value::Bool(false) => String::from_str(alloc, "False"),
        Value::Obj(_) | Value::Null => Ok(String::new(alloc)),
    }
}

// The text of a value, with a line end where one is asked for.
pub fn line_of(alloc: Global, value: Value, newline: bool) -> Result<Vec<u8>, AllocError>
    ensures { IfOk result (λ v. v.items ≡ steps.line (steps.text_of value) newline) }
{
    let text = text_of(alloc, value)?;
    line(alloc, text.as_bytes(), newline)
}

// These bytes, with a line end where one is asked for.
pub fn line(alloc: Global, text: &[u8], newline: bool) -> Result<Vec<u8>, AllocError>
    ensures { IfOk result (λ v. v.items ≡ steps.line text.now newline) }
{
    let mut piece = Vec::from_slice(alloc, text)?;
    if newline {
        piece.push(10)?;
    }
    Ok(piece)
}

// Writes a piece in one write; an empty one makes none.
pub fn write<S: Sink>(piece: &[u8], out: &mut S) -> Result<(), Halt>
    ensures step { WriteIs result piece.now (S.taken out.old) (S.taken out.new) }
    ensures pieces { WritesOne result piece.now (S.pieces out.old) (S.pieces out.new) }
    ensures cause { HasCause result (S.faults out.old) (S.faults out.new) }
{
    if piece.is_empty() {
        return Ok(());
    }
    match out.write(piece) {
        Ok(()) => Ok(()),
        Err(WriteStop::Failed) => Err(Halt::WriteFault),
        Err(WriteStop::Memory) => Err(Halt::Memory),
    }
}
