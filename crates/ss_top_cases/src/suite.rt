// The conformance suite: runs each case of a file, and prints what differs.

use crate::case::{Case, Expected, read_cases};
use ss_io::{MemFiles, MemSink};
use ss_main_messages::{
    failed_message, refused_message, spent_message, stopped_message, unadmitted_message,
    verdict_messages,
};
use ss_report::{Status, status_line};
use ss_top::specsharp;
use ss_top_words::{DEFAULT_LIMITS, Limits, read_words};
use std::alloc::{AllocError, Global};
use std::rt::Files;
use std::{fs, io, str};

/// The number of a status, and its status line where it has one.
fn told(alloc: Global, status: &Status) -> Result<String, AllocError> {
    let mut text = status.number().to_string(alloc)?;
    let line = status_line(alloc, status)?;
    if !line.is_empty() {
        text.push_str(" ")?;
        text.push_str(text_of(&line))?;
    }
    Ok(text)
}

fn is_expected(expected: &Expected, status: &Status, told: &str) -> bool {
    match expected {
        Expected::Status(text) => text.as_str() == told,
        Expected::Read => !matches!(status, Status::SourceRefused { rule: 0..=12, .. }),
    }
}

/// How far the words let verification search.
fn limits_of(alloc: Global, words: &[String]) -> Limits {
    match read_words(alloc, words) {
        Ok(Some(asked)) => asked.limits,
        _ => DEFAULT_LIMITS,
    }
}

/// The messages on standard error of an answer to a source.
fn messages(
    alloc: Global,
    source: &[u8],
    status: &Status,
    verdict: &[u8],
    limits: Limits,
) -> Result<String, AllocError> {
    match status {
        Status::SourceRefused { rule, place } => {
            refused_message(alloc, "FILE", source, *place, *rule)
        }
        Status::Failed { kind, place } => failed_message(alloc, "FILE", source, *place, *kind),
        Status::Stopped { place } => stopped_message(alloc, "FILE", source, *place),
        Status::NotAdmitted => unadmitted_message(alloc, "FILE"),
        Status::StepsSpent => spent_message(alloc, "FILE"),
        Status::Unproved { countered, .. } => {
            let verdict = str::from_utf8(verdict).unwrap_or("");
            verdict_messages(alloc, "FILE", source, verdict, countered, limits)
        }
        Status::Undecided { .. } => {
            let verdict = str::from_utf8(verdict).unwrap_or("");
            verdict_messages(alloc, "FILE", source, verdict, &[], limits)
        }
        _ => Ok(String::new(alloc)),
    }
}

/// Whether the messages are those that the case says, where it says any.
fn are_expected(
    alloc: Global,
    case: &Case,
    status: &Status,
    verdict: &[u8],
) -> Result<bool, AllocError> {
    if case.messages.is_empty() {
        return Ok(true);
    }
    let limits = limits_of(alloc, &case.words);
    let messages = messages(alloc, case.source.as_slice(), status, verdict, limits)?;
    Ok(messages.as_bytes() == case.messages.as_slice())
}

/// Whether these are the wanted lines, in order, with lines of `undecided` that have this end among them.
fn are_lines(lines: &str, wanted: &str, end: &str) -> bool {
    let mut rest = wanted.lines();
    let mut next = rest.next();
    for line in lines.lines() {
        match next {
            Some(text) if text == line => next = rest.next(),
            _ => {
                if !line.starts_with("undecided: ") || !line.ends_with(end) {
                    return false;
                }
            }
        }
    }
    next.is_none()
}

/// The text that bytes are, or nothing where they are none.
fn text_of(bytes: &[u8]) -> &str {
    match str::from_utf8(bytes) {
        Ok(text) => text,
        Err(_) => "",
    }
}

/// Whether the output is the one that the case says. Where it says only that its source is read, every output is.
fn is_written(case: &Case, output: &[u8]) -> bool {
    if matches!(case.expected, Expected::Read) {
        return true;
    }
    match &case.others {
        Some(end) => {
            let lines = text_of(output);
            let wanted = text_of(&case.output);
            are_lines(lines, wanted, end.as_str())
        }
        None => output == case.output.as_slice(),
    }
}

/// The words of a case. Where it says only that its source is read, `expand` answers it: all commands refuse the same sources.
fn words_of(alloc: Global, case: &Case) -> Result<Vec<String>, AllocError> {
    let mut words = Vec::new(alloc);
    if matches!(case.expected, Expected::Read) {
        words.push(String::from_str(alloc, "expand")?)?;
        words.push(String::from_str(alloc, "FILE")?)?;
        return Ok(words);
    }
    for word in &case.words {
        words.push(String::from_str(alloc, word)?)?;
    }
    Ok(words)
}

/// What a case was answered, where that isn't what is expected.
fn difference(alloc: Global, case: &Case) -> Result<Option<String>, AllocError> {
    let failing = case.failing.as_slice().to_vec(alloc)?;
    let file = (
        String::from_str(alloc, "FILE")?,
        case.source.as_slice().to_vec(alloc)?,
    );
    let mut files = MemFiles::new(alloc, vec![in alloc; file]?, Vec::new(alloc));
    let mut out = MemSink::new(alloc, failing);
    let words = words_of(alloc, case)?;
    let status = specsharp(alloc, &words, &mut files, &mut out);
    let told = told(alloc, &status)?;
    let answered = is_expected(&case.expected, &status, &told);
    let written = is_written(case, out.bytes());
    if answered && written && are_expected(alloc, case, &status, out.bytes())? {
        return Ok(None);
    }
    Ok(Some(told))
}

/// Runs the cases of a file.
pub fn run_file<R: Print + Files + AllocGlobal>(rt: &R, name: &str) -> io::Result<()> {
    let alloc = rt.alloc();
    let text = fs::read_to_string(rt, name)?;
    let cases = read_cases(alloc, &text)?;
    let mut held = 0usize;
    for case in &cases {
        match difference(alloc, case)? {
            None => held = held.saturating_add(1),
            Some(told) => {
                let case_name = &case.name;
                println!(rt; "{name}: {case_name}: {told}")?;
            }
        }
    }
    let all = cases.len();
    println!(rt; "{name}: {held} of {all} hold")
}
