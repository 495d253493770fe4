// Files of programs, each tried by `verify`.

use crate::program::{Program, read_programs};
use ss_io::{MemFiles, MemSink};
use std::alloc::{AllocError, Global};
use std::rt::{Env, Files};
use std::{env, fs, io, str};

/// A command that is tried over files in memory.
pub trait Command {
    /// The number of the status with which it answers these words.
    fn answer(
        &self,
        alloc: Global,
        words: &[String],
        files: &mut MemFiles,
        out: &mut MemSink,
    ) -> u8;
}

/// Whether a line of the verdict says that the check isn't proved, or that it is undecided.
fn is_listed(verdict: &str, check: &str) -> bool {
    for line in verdict.lines() {
        if let Some(text) = line.strip_prefix("not proved: ") {
            if text == check {
                return true;
            }
        } else if let Some(text) = line.strip_prefix("undecided: ") {
            if let Some(rest) = text.strip_prefix(check) {
                if rest.starts_with(",") {
                    return true;
                }
            }
        }
    }
    false
}

fn are_listed(verdict: &str, checks: &[String]) -> bool {
    for check in checks {
        if !is_listed(verdict, check) {
            return false;
        }
    }
    true
}

/// Whether this number and verdict are what the program is to be answered.
fn is_expected(program: &Program, number: u8, verdict: &str) -> bool {
    if program.is_verified {
        number == 0 && verdict == "verified\n"
    } else {
        (number == 1 || number == 7) && are_listed(verdict, &program.checks)
    }
}

/// What `verify` answers where that isn't what is expected: the number of the status, and the verdict.
fn difference<C: Command>(
    alloc: Global,
    command: &C,
    program: &Program,
) -> Result<Option<(u8, String)>, AllocError> {
    let verify = String::from_str(alloc, "verify")?;
    let name = String::from_str(alloc, "FILE")?;
    let words = vec![in alloc; verify, name]?;
    let named = String::from_str(alloc, "FILE")?;
    let source = program.source.as_slice().to_vec(alloc)?;
    let mut files = MemFiles::new(alloc, vec![in alloc; (named, source)]?, Vec::new(alloc));
    let mut out = MemSink::new(alloc, Vec::new(alloc));
    let number = command.answer(alloc, &words, &mut files, &mut out);
    let verdict = str::from_utf8(out.bytes()).unwrap_or("");
    if is_expected(program, number, verdict) {
        return Ok(None);
    }
    Ok(Some((number, String::from_str(alloc, verdict)?)))
}

/// Verifies the programs of a file.
fn try_file<R: Print + Files + AllocGlobal, C: Command>(
    rt: &R,
    command: &C,
    name: &str,
) -> io::Result<()> {
    let alloc = rt.alloc();
    let text = fs::read_to_string(rt, name)?;
    let programs = read_programs(alloc, &text)?;
    let mut held = 0usize;
    for program in &programs {
        match difference(alloc, command, program)? {
            None => held = held.saturating_add(1),
            Some((number, verdict)) => {
                let program_name = &program.name;
                println!(rt; "{name}: {program_name}: {number}")?;
                print!(rt; "{verdict}")?;
            }
        }
    }
    let all = programs.len();
    println!(rt; "{name}: {held} of {all} programs as expected")
}

/// Verifies the programs of each file that is named after the program's name, and says how many are answered as expected.
pub fn try_all<R: Print + Files + Env + AllocGlobal, C: Command>(
    rt: &R,
    command: &C,
) -> io::Result<()> {
    for name in env::args(rt)?.skip(1) {
        try_file(rt, command, &name)?;
    }
    Ok(())
}
