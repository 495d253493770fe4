// The pieces of which a source is made.

ghost use Rattle.std.specs.Prelude.{◌≡◌, ◌≤◌, ◌<◌, ◌∷◌, length, false};
ghost use Rattle.ss_lexer.specs.Lexemes.{string_end, comment_end, symbols};
ghost use Rattle.ss_lexer.specs.Fronts.{first_beginning};
ghost use Rattle.ss_lexer.specs.Fronts.{StandsFirst, front_of, string_front, comment_front, slash_front, symbol_front};

use crate::scans::{
    comment_end, digits_length, is_blank, is_digit, is_letter, line_length, string_end, word_length,
};
use crate::spelling::symbol_at;
use ss_ast::Symbol;

/// What a piece of a source is.
#[derive(Clone, Copy)]
pub enum Form {
    /// One blank byte.
    Space,
    Comment,
    /// A comment that nothing closes.
    OpenComment,
    /// A reserved word or a name.
    Word,
    Number,
    Text,
    /// A string that its line doesn't close.
    OpenText,
    Symbol(Symbol),
    /// A byte with which nothing begins.
    Stray,
}

// The piece at the front of a source, and its length.
pub fn first_piece(source: &[u8]) -> (Form, usize)
    requires { 0 < length source.now }
    ensures first { StandsFirst source.now result }
    ensures within { result.1 ≤ length source.now }
    ensures some { 0 < result.1 }
{
    match source {
        [] => unreachable!(),
        [first, behind @ ..] => piece_from(*first, behind, source),
    }
}

fn piece_from(first: u8, behind: &[u8], source: &[u8]) -> (Form, usize)
    requires { source.now ≡ first ∷ behind.now }
    ensures { result ≡ front_of first behind.now }
{
    if is_letter(first) {
        (Form::Word, 1 + word_length(behind))
    } else if is_digit(first) {
        (Form::Number, 1 + digits_length(behind))
    } else if is_blank(first) {
        (Form::Space, 1)
    } else if first == b'"' {
        string_piece(behind)
    } else if first == b'/' {
        slash_piece(behind, source)
    } else {
        symbol_piece(source)
    }
}

// The string whose first quote stands before these bytes.
fn string_piece(behind: &[u8]) -> (Form, usize)
    ensures { result ≡ string_front (string_end false behind.now) behind.now }
{
    match string_end(behind) {
        Some(n) => (Form::Text, 1 + n),
        None => (Form::OpenText, 1 + line_length(behind)),
    }
}

// The comment or the symbol whose `/` stands before these bytes.
fn slash_piece(behind: &[u8], source: &[u8]) -> (Form, usize)
    requires { source.now ≡ 47 ∷ behind.now }
    ensures { result ≡ slash_front behind.now }
{
    match behind {
        [] => symbol_piece(source),
        [next, inside @ ..] => {
            if *next == b'/' {
                (Form::Comment, 2 + line_length(inside))
            } else if *next == b'*' {
                comment_piece(inside)
            } else {
                symbol_piece(source)
            }
        }
    }
}

// The comment whose `/*` stands before these bytes.
fn comment_piece(inside: &[u8]) -> (Form, usize)
    ensures { result ≡ comment_front (comment_end inside.now) inside.now }
{
    match comment_end(inside) {
        Some(n) => (Form::Comment, 2 + n),
        None => (Form::OpenComment, 2 + inside.len()),
    }
}

fn symbol_piece(source: &[u8]) -> (Form, usize)
    ensures { result ≡ symbol_front (first_beginning symbols source.now) }
{
    match symbol_at(source) {
        Some((symbol, n)) => (Form::Symbol(symbol), n),
        None => (Form::Stray, 1),
    }
}
