// The messages of a run of the program.

ghost use Rattle.std.specs.Prelude.{◌≡◌, IfOk, string_bytes};
ghost use Rattle.ss_main_messages.specs.Messages.{begins_word as begins_reserved, byte_at as byte_of_place, error as error_of, failed_message as failed_as, file_message as file_message_of, is_foreign as is_foreign_byte, message as message_of, refused_message as refused_as, said_of, said_of_unread as said_of_unread_as, spent_message as spent_as, stopped_message as stopped_as, unadmitted_message as unadmitted_as, unread_message as unread_as};

use crate::lines::{line_at, pointed};
use crate::sentences::{failure, sentence};
use ss_core::{Kind, Place};
use ss_report::kind_name;
use std::alloc::{AllocError, Global};

/// Why a file couldn't be read.
#[derive(Clone, Copy, Debug, PartialEq, Eq)]
pub enum Unread {
    /// There is none of its name.
    Missing,
    /// It is a folder.
    Folder,
    Other,
}

/// The commands.
pub fn usage() -> &'static str {
    "usage: specsharp verify FILE             verifies the program of the file FILE\n       specsharp run FILE                verifies it, and runs it where it is verified\n           both with --rounds R, --instances N and --splits S: how far they search (2, 50000 and 200000 without them)\n       specsharp run FILE --unverified   runs it with all its checks, whatever it is\n           run with --steps S, for at most S steps (1000000 without it), and INT .. after FILE: the input\n       specsharp expand FILE             writes the core program that it means\nFILE doesn't begin with `-`; write ./-FILE for one that does. Numbers below 0 stand after `--`.\n"
}

// The file, and what is said of it.
fn file_message(alloc: Global, file: &str, said: &str) -> Result<String, AllocError>
    ensures { IfOk result (λ text. string_bytes text ≡ file_message_of file.now said.now) }
{
    let text = format!(in alloc; "{file}: {said}\n")?;
    Ok(text)
}

// What is said of a file that couldn't be read.
fn said_of_unread(why: Unread) -> &'static str
    ensures { result.now ≡ said_of_unread_as why }
{
    match why {
        Unread::Missing => {
            "there is no such file; look at its name and at the folder that you are in"
        }
        Unread::Folder => "this is a folder; name a file in it",
        Unread::Other => {
            "there is no such file, or it can't be read; look at its name, and see whether you may read it"
        }
    }
}

/// The message of a file that couldn't be read.
pub fn unread_message(alloc: Global, file: &str, why: Unread) -> Result<String, AllocError>
    ensures { IfOk result (λ text. string_bytes text ≡ unread_as file.now why) }
{
    file_message(alloc, file, said_of_unread(why))
}

/// The message of an input that the program of the file doesn't admit.
pub fn unadmitted_message(alloc: Global, file: &str) -> Result<String, AllocError>
    ensures { IfOk result (λ text. string_bytes text ≡ unadmitted_as file.now) }
{
    file_message(
        alloc,
        file,
        "a `requires` of its `Main` doesn't hold of this input, or `Main` takes none",
    )
}

/// The message of a run that isn't at its end after its steps.
pub fn spent_message(alloc: Global, file: &str) -> Result<String, AllocError>
    ensures { IfOk result (λ text. string_bytes text ≡ spent_as file.now) }
{
    file_message(
        alloc,
        file,
        "the run isn't at its end after its steps; `--steps S` says how many it may take (1000000 without it)",
    )
}

/// The file, the place and what is said of it, and below them the line of the source with a mark.
pub(crate) fn message(
    alloc: Global,
    file: &str,
    source: &[u8],
    place: Place,
    said: &str,
) -> Result<String, AllocError>
    ensures { IfOk result (λ text. string_bytes text ≡ message_of file.now source.now place said.now) }
{
    let Place { line, column } = place;
    let shown = pointed(alloc, source, place)?;
    let text = format!(in alloc; "{file}:{line}:{column}: {said}\n{shown}")?;
    Ok(text)
}

/// An error by its name, and what is said of it.
pub(crate) fn error(alloc: Global, name: &str, said: &str) -> Result<String, AllocError>
    ensures { IfOk result (λ text. string_bytes text ≡ error_of name.now said.now) }
{
    let text = format!(in alloc; "error[{name}]: {said}")?;
    Ok(text)
}

// Whether a byte stands in comments and strings alone, or nowhere.
fn is_foreign(byte: Option<u8>) -> bool
    ensures { result ≡ is_foreign_byte byte }
{
    match byte {
        Some(byte) => byte == 0 || byte > 127,
        None => false,
    }
}

// Whether a reserved word begins with a byte: it is a small letter.
fn begins_word(byte: Option<u8>) -> bool
    ensures { result ≡ begins_reserved byte }
{
    match byte {
        Some(byte) => b'a' <= byte && byte <= b'z',
        None => false,
    }
}

// The byte at a place, where the line has one there.
fn byte_at(source: &[u8], place: Place) -> Option<u8>
    ensures { result ≡ byte_of_place source.now place }
{
    let before = place.column.saturating_sub(1) as usize;
    line_at(source, place).get(before).copied()
}

// What is said of a rule that a source breaks at a place.
fn said(source: &[u8], place: Place, rule: u16) -> &'static str
    ensures { result.now ≡ said_of source.now place rule }
{
    if source.is_empty() {
        return "the file is empty; write a class with `static void Main()`";
    }
    let byte = byte_at(source, place);
    if rule == 1 && is_foreign(byte) {
        return "this byte can't stand here; save the file as UTF-8, with letters beyond ASCII in comments and strings alone";
    }
    if rule == 10 && begins_word(byte) {
        return "no program goes on with this word; something is missing or too much before it, or it is a reserved word and can't be a name";
    }
    sentence(rule)
}

/// The message of a source that a rule refuses at a place.
pub fn refused_message(
    alloc: Global,
    file: &str,
    source: &[u8],
    place: Place,
    rule: u16,
) -> Result<String, AllocError>
    ensures { IfOk result (λ text. string_bytes text ≡ refused_as file.now source.now place rule) }
{
    let name = rule.to_string(alloc)?;
    let error = error(alloc, name.as_str(), said(source, place, rule))?;
    message(alloc, file, source, place, error.as_str())
}

/// The message of a run that stopped at a place.
pub fn stopped_message(
    alloc: Global,
    file: &str,
    source: &[u8],
    place: Place,
) -> Result<String, AllocError>
    ensures { IfOk result (λ text. string_bytes text ≡ stopped_as file.now source.now place) }
{
    message(
        alloc,
        file,
        source,
        place,
        "stopped: this `assume` isn't true in this run",
    )
}

/// The message of a run in which a check of this kind failed at a place.
pub fn failed_message(
    alloc: Global,
    file: &str,
    source: &[u8],
    place: Place,
    kind: Kind,
) -> Result<String, AllocError>
    ensures { IfOk result (λ text. string_bytes text ≡ failed_as file.now source.now place kind) }
{
    let error = error(alloc, kind_name(kind), failure(kind))?;
    message(alloc, file, source, place, error.as_str())
}
