// The line of a source that is shown beside a message, and the mark below it.

ghost use Rattle.std.specs.Prelude.{◌≡◌, ◌≤◌, IfOk, drop, length, map, replicate, string_bytes, take};
ghost use Rattle.ss_lexer.specs.Reading.{without_mark as without_mark_of};
ghost use Rattle.ss_main_messages.specs.Lines.{after_line as after_line_of, after_lines as after_lines_of, ends_line as ends_line_at, first_line as first_line_of, hidden as hidden_of, line_at as line_of_place, line_length as line_length_of, mark as mark_after, marked as marked_part, part_at as part_of, pointed as pointed_at, shown as shown_as};

use ss_core::Place;
use std::alloc::{AllocError, Global};

// Whether a line ends here: at a line feed, or at a carriage return with a line feed or nothing after it.
fn ends_line(byte: u8, behind: &[u8]) -> bool
    ensures { result ≡ ends_line_at byte behind.now }
{
    match behind {
        [] => byte == b'\n' || byte == b'\r',
        [next, ..] => byte == b'\n' || (byte == b'\r' && *next == b'\n'),
    }
}

// How many bytes stand before the first line end.
fn line_length(bytes: &[u8]) -> usize
    ensures exact { result ≡ line_length_of bytes.now }
    ensures within { result ≤ length bytes.now }
{
    let mut count = 0;
    let mut rest = bytes;
    while let [byte, others @ ..] = rest {
        if ends_line(*byte, others) {
            return count;
        }
        count += 1;
        rest = others;
    }
    count
}

fn first_line(bytes: &[u8]) -> &[u8]
    ensures { result.now ≡ first_line_of bytes.now }
{
    &bytes[..line_length(bytes)]
}

// What stands after the first line feed.
fn after_line(bytes: &[u8]) -> &[u8]
    ensures { result.now ≡ after_line_of bytes.now }
{
    let mut rest = bytes;
    while let [byte, others @ ..] = rest {
        if *byte == b'\n' {
            return others;
        }
        rest = others;
    }
    rest
}

// What stands after so many lines.
fn after_lines(lines: u32, bytes: &[u8]) -> &[u8]
    ensures { result.now ≡ after_lines_of lines bytes.now }
{
    let mut left = lines;
    let mut rest = bytes;
    while left > 0 {
        rest = after_line(rest);
        left -= 1;
    }
    rest
}

fn without_mark(source: &[u8]) -> &[u8]
    ensures { result.now ≡ without_mark_of source.now }
{
    match source {
        [0xEF, 0xBB, 0xBF, text @ ..] => text,
        _ => source,
    }
}

/// The line of a place in a source.
pub(crate) fn line_at(source: &[u8], place: Place) -> &[u8]
    ensures { result.now ≡ line_of_place source.now place }
{
    first_line(after_lines(place.line.saturating_sub(1), without_mark(source)))
}

// Of a long line a part is shown: how many bytes before it aren't.
fn hidden(column: u32) -> u32
    ensures { result ≡ hidden_of column }
{
    if column <= 80 { 0 } else { column - 40 }
}

/// The first bytes, so many.
pub(crate) fn front(bytes: &[u8], count: usize) -> &[u8]
    ensures { result.now ≡ take count bytes.now }
{
    if bytes.len() <= count {
        bytes
    } else {
        &bytes[..count]
    }
}

// What stands after the first bytes, so many.
fn behind(bytes: &[u8], count: usize) -> &[u8]
    ensures { result.now ≡ drop count bytes.now }
{
    if bytes.len() <= count {
        &[]
    } else {
        &bytes[count..]
    }
}

// What is shown of a line.
fn part_at(line: &[u8], column: u32) -> &[u8]
    ensures { result.now ≡ part_of line.now column }
{
    front(behind(line, hidden(column) as usize), 120)
}

// A byte as it is shown.
fn shown(byte: u8) -> u8
    ensures { result ≡ shown_as byte }
{
    match byte {
        b'\t' => b' ',
        0..=31 | 127..=255 => b'?',
        _ => byte,
    }
}

// A part of a line as it is shown.
fn shown_part(alloc: Global, part: &[u8]) -> Result<String, AllocError>
    ensures { IfOk result (λ text. string_bytes text ≡ map shown_as part.now) }
{
    let mut text = String::new(alloc);
    let mut rest = part;
    while let [byte, others @ ..] = rest {
        text.push(char::from(shown(*byte)))?;
        rest = others;
    }
    Ok(text)
}

fn blanks(alloc: Global, count: u32) -> Result<String, AllocError>
    ensures { IfOk result (λ text. string_bytes text ≡ replicate count 32) }
{
    let mut text = String::new(alloc);
    let mut left = count;
    while left > 0 {
        text.push_str(" ")?;
        left -= 1;
    }
    Ok(text)
}

// A mark after so many blanks.
fn mark(alloc: Global, count: u32) -> Result<String, AllocError>
    ensures { IfOk result (λ text. string_bytes text ≡ mark_after count) }
{
    let mut text = blanks(alloc, count)?;
    text.push_str("^\n")?;
    Ok(text)
}

// A part of a line, and below it a mark after so many blanks; nothing where the part is empty.
fn marked(alloc: Global, part: &[u8], count: u32) -> Result<String, AllocError>
    ensures { IfOk result (λ text. string_bytes text ≡ marked_part part.now count) }
{
    if part.is_empty() {
        return Ok(String::new(alloc));
    }
    let shown = shown_part(alloc, part)?;
    let mark = mark(alloc, count)?;
    let text = format!(in alloc; "{shown}\n{mark}")?;
    Ok(text)
}

/// The line of a place, and below it a mark under the place.
pub(crate) fn pointed(alloc: Global, source: &[u8], place: Place) -> Result<String, AllocError>
    ensures { IfOk result (λ text. string_bytes text ≡ pointed_at source.now place) }
{
    let part = part_at(line_at(source, place), place.column);
    let before = place.column.saturating_sub(1);
    marked(alloc, part, before.saturating_sub(hidden(place.column)))
}
