// The program over the system's files and output.
#![tactic(auto)]

use ss_io::{RealFiles, RealOut};
use ss_main_messages::{
    Heard, Seen, Unread, failed_message, refused_message, spent_message, stopped_message,
    unadmitted_message, unread_message, usage, verdict_messages,
};
use ss_report::{Status, status_line};
use ss_top::specsharp;
use ss_top_words::{DEFAULT_LIMITS, Limits, read_words};
use std::alloc::{AllocError, Global};
use std::process::ExitCode;
use std::rt::Env;
use std::{env, fs, io, str};

// The words after the program's name.
fn words<R: Env + AllocGlobal>(rt: &R) -> io::Result<Vec<String>> {
    let mut words = Vec::new(rt.alloc());
    for word in env::args(rt)?.skip(1) {
        words.push(word)?;
    }
    Ok(words)
}

// Why a file couldn't be read.
fn unread<R: std::rt::Files>(rt: &R, file: &str) -> Unread {
    match fs::metadata(rt, file) {
        Ok(found) if found.is_dir() => Unread::Folder,
        Ok(_) => Unread::Other,
        Err(error) => match error.kind() {
            io::ErrorKind::NotFound => Unread::Missing,
            _ => Unread::Other,
        },
    }
}

// What messages speak of: a file, and how far its program was verified.
#[derive(Clone, Copy)]
struct Subject<'w> {
    file: &'w str,
    limits: Limits,
}

// What they speak of where no words are read.
const NOTHING: Subject<'static> = Subject {
    file: "",
    limits: DEFAULT_LIMITS,
};

// What is said of an answer that speaks of the source of a file, of which these bytes were read.
fn of_source(
    alloc: Global,
    subject: Subject<'_>,
    source: &[u8],
    status: &Status,
    verdict: &[u8],
) -> Result<String, AllocError> {
    let Subject { file, limits } = subject;
    match status {
        Status::SourceRefused { rule, place } => {
            refused_message(alloc, file, source, *place, *rule)
        }
        Status::Failed { kind, place } => failed_message(alloc, file, source, *place, *kind),
        Status::Stopped { place } => stopped_message(alloc, file, source, *place),
        Status::NotAdmitted => unadmitted_message(alloc, file),
        Status::StepsSpent => spent_message(alloc, file),
        Status::Unproved { countered, .. } => {
            let verdict = str::from_utf8(verdict).unwrap_or("");
            verdict_messages(alloc, file, source, verdict, countered, limits)
        }
        Status::Undecided { .. } => {
            let verdict = str::from_utf8(verdict).unwrap_or("");
            verdict_messages(alloc, file, source, verdict, &[], limits)
        }
        _ => Ok(String::new(alloc)),
    }
}

// What is said of an answer beside its status line.
fn explanation<R: std::rt::Files + AllocGlobal>(
    rt: &R,
    subject: Subject<'_>,
    source: Option<&[u8]>,
    status: &Status,
    verdict: &[u8],
) -> Result<String, AllocError> {
    match (status, source) {
        (Status::BadWords, _) => String::from_str(rt.alloc(), usage()),
        (Status::ReadFault, _) => {
            unread_message(rt.alloc(), subject.file, unread(rt, subject.file))
        }
        (_, Some(source)) => of_source(rt.alloc(), subject, source, status, verdict),
        (_, None) => Ok(String::new(rt.alloc())),
    }
}

// Says on standard error what was answered, and last the status; what can't be said there is left unsaid.
fn tell<R: Eprint + AllocGlobal>(rt: &R, explanation: Result<String, AllocError>, status: &Status) {
    if let Ok(text) = explanation {
        let _ = eprint!(rt; "{text}");
    }
    if let Ok(line) = status_line(rt.alloc(), status) {
        let line = str::from_utf8(&line).unwrap_or("");
        if !line.is_empty() {
            let _ = eprintln!(rt; "{line}");
        }
    }
}

// What messages about the words speak of.
fn subject_of(alloc: Global, words: &[String]) -> Subject<'_> {
    match read_words(alloc, words) {
        Ok(Some(asked)) => Subject {
            file: asked.file,
            limits: asked.limits,
        },
        _ => NOTHING,
    }
}

// Does what the words say, and tells it.
fn answer<R: Print + Eprint + std::rt::Files + AllocGlobal>(rt: &R, words: &[String]) -> Status {
    let mut files = Seen::new(RealFiles::new(rt, rt.alloc()));
    let mut out = Heard::new(rt.alloc(), RealOut::new(rt));
    let status = specsharp(rt.alloc(), words, &mut files, &mut out);
    let text = explanation(
        rt,
        subject_of(rt.alloc(), words),
        files.last(),
        &status,
        out.last(),
    );
    tell(rt, text, &status);
    status
}

// The answer where the words can't be had. One that isn't UTF-8 is no word of a command.
fn without_words(error: &io::Error) -> Status {
    match error.kind() {
        io::ErrorKind::InvalidData => Status::BadWords,
        _ => Status::Memory,
    }
}

fn main(rt: HostRuntime) -> ExitCode {
    let status = match words(&rt) {
        Ok(words) => answer(&rt, &words),
        Err(error) => {
            let status = without_words(&error);
            let text = explanation(&rt, NOTHING, None, &status, b"");
            tell(&rt, text, &status);
            status
        }
    };
    ExitCode::from(status.number())
}
