// Programs of another implementation: how many obligations each has, and checks that are among them; and long derivations.

use crate::lines::are_accepted;
use crate::listed::{Program, read_programs};
use crate::listing::of_source;
use ss_report::kind_name;
use ss_vcgen::{Listed, Obligations};
use std::alloc::{AllocError, Global};
use std::rt::Files;
use std::{fs, io};

/// The kind and the place of an obligation, as `KIND LINE:COLUMN`.
fn check_text(alloc: Global, obligation: &Listed) -> Result<String, AllocError> {
    let mut text = String::from_str(alloc, kind_name(obligation.kind))?;
    text.push_str(" ")?;
    text.push_str(&obligation.place.line.to_string(alloc)?)?;
    text.push_str(":")?;
    text.push_str(&obligation.place.column.to_string(alloc)?)?;
    Ok(text)
}

fn has_check(alloc: Global, list: &[Listed], check: &str) -> Result<bool, AllocError> {
    for obligation in list {
        if check_text(alloc, obligation)?.as_str() == check {
            return Ok(true);
        }
    }
    Ok(false)
}

/// What of a program isn't as expected, or nothing.
fn difference(
    alloc: Global,
    program: &Program,
    listed: &Obligations,
) -> Result<Option<String>, AllocError> {
    let count = listed.list.len().to_string(alloc)?;
    if count.as_str() != program.count.as_str() {
        return Ok(Some(count));
    }
    for check in &program.checks {
        if !has_check(alloc, &listed.list, check)? {
            return Ok(Some(String::from_str(alloc, check)?));
        }
    }
    Ok(None)
}

/// What isn't as expected of a derivation, or nothing.
fn refusal(alloc: Global, program: &Program) -> Result<Option<String>, AllocError> {
    if are_accepted(alloc, program.lines, program.steps)? {
        Ok(None)
    } else {
        Ok(Some(String::from_str(alloc, "refused")?))
    }
}

fn answer(alloc: Global, program: &Program) -> Result<Option<String>, AllocError> {
    if program.source.is_empty() {
        return refusal(alloc, program);
    }
    match of_source(alloc, &program.source) {
        Some(listed) => difference(alloc, program, &listed),
        None => Ok(Some(String::from_str(alloc, "none")?)),
    }
}

/// Tries the programs of a file.
pub fn count_file<R: Print + Files + AllocGlobal>(rt: &R, name: &str) -> io::Result<()> {
    let alloc = rt.alloc();
    let text = fs::read_to_string(rt, name)?;
    let programs = read_programs(alloc, &text)?;
    let mut held = 0usize;
    for program in &programs {
        match answer(alloc, program)? {
            None => held = held.saturating_add(1),
            Some(told) => {
                let program_name = &program.name;
                println!(rt; "{name}: {program_name}: {told}")?;
            }
        }
    }
    let all = programs.len();
    println!(rt; "{name}: {held} of {all} hold")
}
