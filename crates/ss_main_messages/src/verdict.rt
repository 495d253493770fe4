// The messages of a verdict.

use crate::lines::{front, line_at};
use crate::messages::{error, message};
use crate::sentences::sentence_of_check;
use crate::texts::model_texts;
use ss_core::Place;
use ss_search_answers::Countered;
use ss_top_words::Limits;
use std::alloc::{AllocError, Global};
use std::str;

// A line of a verdict: the kind of a check that isn't shown to hold, where it stands, and what is said after it.
#[derive(Clone, Copy, Debug, PartialEq, Eq)]
struct Unproved<'a> {
    kind: &'a str,
    place: Place,
    behind: &'a str,
}

// The place of a line and a column with a colon between them.
fn read_place(text: &str) -> Option<Place> {
    let (line, column) = text.split_once(':')?;
    Some(Place {
        line: line.parse().ok()?,
        column: column.parse().ok()?,
    })
}

// The line `PREFIX: KIND at LINE:COLUMN in CLASS.NAME`, with what is said after it.
fn read_line<'a>(line: &'a str, prefix: &str) -> Option<Unproved<'a>> {
    let (kind, behind) = line.strip_prefix(prefix)?.split_once(" at ")?;
    let (place, behind) = behind.split_once(" in ")?;
    let place = read_place(place)?;
    Some(Unproved {
        kind,
        place,
        behind,
    })
}

// Adds which budget wasn't enough for the obligation.
fn push_budget(text: &mut String, behind: &str) -> Result<(), AllocError> {
    match behind.split_once(", ") {
        Some((_, budget)) => {
            let behind = if budget.ends_with(" splits") {
                " aren't enough"
            } else {
                ""
            };
            writeln!(text, "    this isn't decided: {budget}{behind}")
        }
        None => Ok(()),
    }
}

// Whether the name of a class stands at the place: the word before it on its line is `class`.
fn is_class_name(source: &[u8], place: Place) -> bool {
    let before = place.column.saturating_sub(1) as usize;
    let front = front(line_at(source, place), before);
    let mut is_class = false;
    for word in str::from_utf8(front).unwrap_or("").split_whitespace() {
        is_class = word == "class";
    }
    is_class
}

// Adds which body of a class this is, that nobody wrote.
fn push_unwritten(text: &mut String, class: &str, name: &str) -> Result<(), AllocError> {
    if class == name {
        writeln!(
            text,
            "    this is the constructor that {class} has since none is written"
        )
    } else {
        writeln!(
            text,
            "    {class} inherits {name} as it is; make it `virtual` above, and override it here"
        )
    }
}

// The same, where a line of a verdict has these words after a place.
fn push_body(text: &mut String, behind: &str) -> Result<(), AllocError> {
    match behind.split_once('.') {
        Some((class, rest)) => match rest.split_once(", ") {
            Some((name, _)) => push_unwritten(text, class, name),
            None => push_unwritten(text, class, rest),
        },
        None => Ok(()),
    }
}

// The message of a check that isn't shown to hold.
fn unproved_message(
    alloc: Global,
    file: &str,
    source: &[u8],
    unproved: &Unproved<'_>,
) -> Result<String, AllocError> {
    let error = error(alloc, unproved.kind, sentence_of_check(unproved.kind))?;
    let mut text = message(alloc, file, source, unproved.place, error.as_str())?;
    if is_class_name(source, unproved.place) {
        push_body(&mut text, unproved.behind)?;
    }
    Ok(text)
}

// Adds what a model gives to locals and fields, where it gives them something.
fn push_values(text: &mut String, values: Option<&String>) -> Result<(), AllocError> {
    match values {
        Some(values) if !values.is_empty() => {
            writeln!(text, "    a model that refutes it: {values}")
        }
        _ => Ok(()),
    }
}

// The messages of the lines of a verdict, each with its values.
fn with_values(
    alloc: Global,
    file: &str,
    source: &[u8],
    verdict: &str,
    values: &[String],
) -> Result<String, AllocError> {
    let mut text = String::new(alloc);
    let mut number: usize = 0;
    for line in verdict.lines() {
        if let Some(unproved) = read_line(line, "not proved: ") {
            let message = unproved_message(alloc, file, source, &unproved)?;
            text.push_str(message.as_str())?;
            push_values(&mut text, values.get(number))?;
            number = number.saturating_add(1);
        } else if let Some(undecided) = read_line(line, "undecided: ") {
            let message = unproved_message(alloc, file, source, &undecided)?;
            text.push_str(message.as_str())?;
            push_budget(&mut text, undecided.behind)?;
        }
    }
    Ok(text)
}

/// The messages of a verdict, one for each of its lines, with the values that its models give to locals and fields. The limits are those of
/// the verdict.
pub fn verdict_messages(
    alloc: Global,
    file: &str,
    source: &[u8],
    verdict: &str,
    countered: &[Countered],
    limits: Limits,
) -> Result<String, AllocError> {
    let values = model_texts(alloc, source, countered, limits)?;
    with_values(alloc, file, source, verdict, &values)
}
