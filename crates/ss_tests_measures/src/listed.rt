// Programs with what is known of their obligations, and derivations.

use std::alloc::{AllocError, Global};

/// A program, or a derivation that the checker is to accept.
#[derive(Drop)]
pub struct Program {
    pub name: String,
    pub source: Vec<u8>,
    /// How many obligations it has, as a decimal.
    pub count: String,
    /// Checks among them, as `KIND LINE:COLUMN`.
    pub checks: Vec<String>,
    /// How many lines the derivation has.
    pub lines: usize,
    /// How many steps its one line has.
    pub steps: usize,
}

fn push_line(alloc: Global, program: &mut Program, line: &str) -> Result<(), AllocError> {
    if let Some(text) = line.strip_prefix("| ") {
        program.source.extend_from_slice(text.as_bytes())?;
        program.source.push(b'\n')?;
    } else if let Some(text) = line.strip_prefix("* ") {
        program.checks.push(String::from_str(alloc, text)?)?;
    } else if let Some(text) = line.strip_prefix("= ") {
        program.count = String::from_str(alloc, text)?;
    } else if let Some(text) = line.strip_prefix("lines ") {
        program.lines = text.parse::<usize>().unwrap_or(0);
    } else if let Some(text) = line.strip_prefix("steps ") {
        program.steps = text.parse::<usize>().unwrap_or(0);
    }
    Ok(())
}

/// The programs of a file.
pub fn read_programs(alloc: Global, text: &str) -> Result<Vec<Program>, AllocError> {
    let mut programs: Vec<Program> = Vec::new(alloc);
    for line in text.lines() {
        if let Some(name) = line.strip_prefix("=== ") {
            programs.push(Program {
                name: String::from_str(alloc, name)?,
                source: Vec::new(alloc),
                count: String::new(alloc),
                checks: Vec::new(alloc),
                lines: 0,
                steps: 0,
            })?;
        } else if let Some(program) = programs.last_mut() {
            push_line(alloc, program, line)?;
        }
    }
    Ok(programs)
}
