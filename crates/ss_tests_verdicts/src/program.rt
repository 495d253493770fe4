// Programs with what is expected of `verify`.

use std::alloc::{AllocError, Global};

#[derive(Drop)]
pub struct Program {
    pub name: String,
    pub source: Vec<u8>,
    pub is_verified: bool,
    /// Checks that aren't proved, as the verdict names them.
    pub checks: Vec<String>,
}

fn push_line(alloc: Global, program: &mut Program, line: &str) -> Result<(), AllocError> {
    if let Some(text) = line.strip_prefix("| ") {
        program.source.extend_from_slice(text.as_bytes())?;
        program.source.push(b'\n')?;
    } else if let Some(text) = line.strip_prefix("* ") {
        program.checks.push(String::from_str(alloc, text)?)?;
    } else if line == "= verified" {
        program.is_verified = true;
    }
    Ok(())
}

/// The programs of a file.
pub fn read_programs(alloc: Global, text: &str) -> Result<Vec<Program>, AllocError> {
    let mut programs: Vec<Program> = Vec::new(alloc);
    for line in text.lines() {
        if let Some(name) = line.strip_prefix("=== ") {
            programs.push(Program {
                name: String::from_str(alloc, name)?,
                source: Vec::new(alloc),
                is_verified: false,
                checks: Vec::new(alloc),
            })?;
        } else if let Some(program) = programs.last_mut() {
            push_line(alloc, program, line)?;
        }
    }
    Ok(programs)
}
