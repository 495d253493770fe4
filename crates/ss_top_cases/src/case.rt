// Cases: a command line, a source, and what is expected of them.

use std::alloc::{AllocError, Global};

/// What is expected of a case.
#[derive(Drop)]
pub enum Expected {
    /// This number and status line.
    Status(String),
    /// Any answer but a refusal by a rule below 13.
    Read,
}

/// A case. Among the words `FILE` stands for the name of the file that holds the source.
#[derive(Drop)]
pub struct Case {
    pub name: String,
    pub words: Vec<String>,
    pub source: Vec<u8>,
    /// The writes that fail, by their numbers from 0.
    pub failing: Vec<u64>,
    pub output: Vec<u8>,
    /// The end of the `undecided` lines that may stand among the lines of the output, where there may be such.
    pub others: Option<String>,
    /// The messages on standard error, where the case says them.
    pub messages: Vec<u8>,
    pub expected: Expected,
}

fn digit(byte: u8) -> Option<u8> {
    match byte {
        b'0'..=b'9' => Some(byte - b'0'),
        b'a'..=b'f' => Some(byte - b'a' + 10),
        b'A'..=b'F' => Some(byte - b'A' + 10),
        _ => None,
    }
}

// The byte of two digits; one that isn't a digit counts as 0.
fn byte_of(high: u8, low: u8) -> u8 {
    let high = digit(high).unwrap_or(0) % 16;
    let low = digit(low).unwrap_or(0) % 16;
    high * 16 + low
}

// A line in which `\xHH` stands for a byte and `\\` for a backslash.
fn push_escaped(bytes: &mut Vec<u8>, line: &[u8]) -> Result<(), AllocError> {
    let mut rest = line;
    while let [byte, after @ ..] = rest {
        rest = after;
        match (*byte, after) {
            (b'\\', [b'x', high, low, others @ ..]) => {
                bytes.push(byte_of(*high, *low))?;
                rest = others;
            }
            (b'\\', [b'\\', others @ ..]) => {
                bytes.push(b'\\')?;
                rest = others;
            }
            (byte, _) => bytes.push(byte)?,
        }
    }
    Ok(())
}

// A number, and after a blank what stands so often: with `\xHH` for a byte.
fn push_repeated(bytes: &mut Vec<u8>, line: &str) -> Result<(), AllocError> {
    let Some((count, text)) = line.split_once(' ') else {
        return Ok(());
    };
    for _ in 0..count.parse::<u32>().unwrap_or(0) {
        push_escaped(bytes, text.as_bytes())?;
    }
    Ok(())
}

fn push_source(case: &mut Case, line: &str) -> Result<(), AllocError> {
    if let Some(text) = line.strip_prefix("e ") {
        push_escaped(&mut case.source, text.as_bytes())?;
        case.source.push(b'\n')?;
    } else if let Some(text) = line.strip_prefix("E ") {
        push_escaped(&mut case.source, text.as_bytes())?;
    } else if let Some(text) = line.strip_prefix("* ") {
        push_repeated(&mut case.source, text)?;
    } else if let Some(text) = line.strip_prefix(". ") {
        case.source.extend_from_slice(text.as_bytes())?;
    } else if line != "." {
        let text = line.strip_prefix(" ").unwrap_or(line);
        case.source.extend_from_slice(text.as_bytes())?;
        case.source.push(b'\n')?;
    }
    Ok(())
}

fn push_output(case: &mut Case, line: &str) -> Result<(), AllocError> {
    if let Some(text) = line.strip_prefix(". ") {
        return case.output.extend_from_slice(text.as_bytes());
    }
    let text = line.strip_prefix(" ").unwrap_or(line);
    case.output.extend_from_slice(text.as_bytes())?;
    case.output.push(b'\n')?;
    Ok(())
}

fn push_message(case: &mut Case, line: &str) -> Result<(), AllocError> {
    let text = line.strip_prefix(" ").unwrap_or(line);
    case.messages.extend_from_slice(text.as_bytes())?;
    case.messages.push(b'\n')?;
    Ok(())
}

fn push_failing(case: &mut Case, number: &str) -> Result<(), AllocError> {
    case.failing.push(number.parse::<u64>().unwrap_or(0))?;
    Ok(())
}

fn push_line(alloc: Global, case: &mut Case, line: &str) -> Result<(), AllocError> {
    if let Some(words) = line.strip_prefix("$ ") {
        for word in words.split_whitespace() {
            case.words.push(String::from_str(alloc, word)?)?;
        }
    } else if let Some(text) = line.strip_prefix("|") {
        push_source(case, text)?;
    } else if let Some(text) = line.strip_prefix(">~ ") {
        case.others = Some(String::from_str(alloc, text)?);
    } else if let Some(text) = line.strip_prefix(">") {
        push_output(case, text)?;
    } else if let Some(text) = line.strip_prefix("!") {
        push_message(case, text)?;
    } else if let Some(number) = line.strip_prefix("% ") {
        push_failing(case, number)?;
    } else if line == "= read" {
        case.expected = Expected::Read;
    } else if let Some(text) = line.strip_prefix("= ") {
        case.expected = Expected::Status(String::from_str(alloc, text)?);
    }
    Ok(())
}

/// The cases of a file.
pub fn read_cases(alloc: Global, text: &str) -> Result<Vec<Case>, AllocError> {
    let mut cases: Vec<Case> = Vec::new(alloc);
    for line in text.lines() {
        if let Some(name) = line.strip_prefix("=== ") {
            cases.push(Case {
                name: String::from_str(alloc, name)?,
                words: Vec::new(alloc),
                source: Vec::new(alloc),
                failing: Vec::new(alloc),
                output: Vec::new(alloc),
                others: None,
                messages: Vec::new(alloc),
                expected: Expected::Read,
            })?;
        } else if let Some(case) = cases.last_mut() {
            push_line(alloc, case, line)?;
        }
    }
    Ok(cases)
}
