// How a run of the program ends.

ghost use Rattle.std.specs.Prelude.{◌≡◌, IfOk};
ghost use Rattle.ss_report.specs.Status.{failed_text, refused_text, stopped_text, status_text};

use crate::texts::kind_name;
use ss_core::{Kind, Place};
use ss_search_answers::{Countered, Undecided};
use std::alloc::{AllocError, Global};

/// How a run of the program ends.
#[derive(Drop)]
pub enum Status {
    /// The command did its work: the program was verified, and where it was run, its run is done.
    Ended,
    /// A model refutes the ground form of each of the first obligations, and there is one at least. For the second a budget wasn't enough.
    Unproved {
        countered: Vec<Countered>,
        undecided: Vec<Undecided>,
    },
    /// The words aren't those of a command.
    BadWords,
    /// The file couldn't be read.
    ReadFault,
    /// The source breaks a rule at a place.
    SourceRefused {
        rule: u16,
        place: Place,
    },
    /// The output failed.
    WriteFault,
    Memory,
    /// No obligation is known to be refuted, but for these a budget wasn't enough.
    Undecided {
        undecided: Vec<Undecided>,
    },
    /// The program doesn't admit the input: the conditions at the entry of its Main don't hold of it.
    NotAdmitted,
    /// The run isn't done within the steps that it has.
    StepsSpent,
    /// A check of the run of a program that wasn't verified failed.
    Failed {
        kind: Kind,
        place: Place,
    },
    /// The run stopped at an assumption that is false.
    Stopped {
        place: Place,
    },
}

impl Status {
    ghost use Rattle.ss_report.specs.Status.{status_number};

    /// The number that the process ends with.
    pub fn number(&self) -> u8
        ensures { result ≡ status_number self.now }
    {
        match self {
            Status::Ended => 0,
            Status::Unproved { .. } => 1,
            Status::BadWords => 2,
            Status::ReadFault => 3,
            Status::SourceRefused { .. } => 4,
            Status::WriteFault => 5,
            Status::Memory => 6,
            Status::Undecided { .. } => 7,
            Status::NotAdmitted => 8,
            Status::StepsSpent => 9,
            Status::Failed { .. } => 10,
            Status::Stopped { .. } => 11,
        }
    }
}

fn refused_line(alloc: Global, rule: u16, place: Place) -> Result<Vec<u8>, AllocError>
    ensures { IfOk result (λ line. line.items ≡ refused_text rule place) }
{
    let Place { line, column } = place;
    let text = format!(in alloc; "refused {rule} at {line}:{column}")?;
    Ok(text.into_bytes())
}

fn stopped_line(alloc: Global, place: Place) -> Result<Vec<u8>, AllocError>
    ensures { IfOk result (λ line. line.items ≡ stopped_text place) }
{
    let Place { line, column } = place;
    let text = format!(in alloc; "stopped at {line}:{column}")?;
    Ok(text.into_bytes())
}

fn failed_line(alloc: Global, kind: Kind, place: Place) -> Result<Vec<u8>, AllocError>
    ensures { IfOk result (λ line. line.items ≡ failed_text kind place) }
{
    let kind = kind_name(kind);
    let Place { line, column } = place;
    let text = format!(in alloc; "failed: {kind} at {line}:{column}")?;
    Ok(text.into_bytes())
}

/// What is said of a status on standard error, without the line end; nothing of Ended. An error is want of memory.
pub fn status_line(alloc: Global, status: &Status) -> Result<Vec<u8>, AllocError>
    ensures { IfOk result (λ line. line.items ≡ status_text status.now) }
{
    match status {
        Status::Ended => Ok(Vec::new(alloc)),
        Status::Unproved { .. } => Vec::from_slice(alloc, b"unproved"),
        Status::BadWords => Vec::from_slice(alloc, b"bad words"),
        Status::ReadFault => Vec::from_slice(alloc, b"read fault"),
        Status::SourceRefused { rule, place } => refused_line(alloc, *rule, *place),
        Status::WriteFault => Vec::from_slice(alloc, b"write fault"),
        Status::Memory => Vec::from_slice(alloc, b"out of memory"),
        Status::Undecided { .. } => Vec::from_slice(alloc, b"undecided"),
        Status::NotAdmitted => Vec::from_slice(alloc, b"input not admitted"),
        Status::StepsSpent => Vec::from_slice(alloc, b"steps spent"),
        Status::Failed { kind, place } => failed_line(alloc, *kind, *place),
        Status::Stopped { place } => stopped_line(alloc, *place),
    }
}
