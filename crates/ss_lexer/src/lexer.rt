// The tokens of a source.

ghost use Rattle.std.specs.Prelude.{ℕ, List, ◌≡◌, ◌+◌, ◌<◌, ◌^◌, length, OnOk};
ghost use Rattle.ss_ast.specs.Tokens.{kind_of};
ghost use Rattle.ss_lexer.specs.Pieces.{meaning, form_of};
ghost use Rattle.ss_lexer.specs.Reading.{next_place, place_after, without_mark, Answer, IsReadAs, IsAnswer, Answers};
ghost use Rattle.ss_lexer.specs.Steps.{state, pushed, Took};

use crate::meaning::{Meaning, ends_operand, is_minus, meaning_of};
use crate::pieces::{Form, first_piece};
use ss_ast::{Token, TokenKind};
use ss_core::{FrontStop, Place, Rule};
use std::alloc::{AllocError, Global};

/// The most bytes that a source may have.
pub const MAX_BYTES: usize = 1_048_576;

// The place after the byte.
fn next_place(place: Place, byte: u8) -> Place
    requires lines { place.line + 1 < 2 ^ 32 }
    requires columns { place.column + 1 < 2 ^ 32 }
    ensures { result ≡ next_place place byte }
{
    if byte == b'\n' {
        Place {
            line: place.line + 1,
            column: 1,
        }
    } else {
        Place {
            line: place.line,
            column: place.column + 1,
        }
    }
}

// The place after the bytes.
fn place_after(place: Place, bytes: &[u8]) -> Place
    requires lines { place.line + length bytes.now < 2 ^ 32 }
    requires columns { place.column + length bytes.now < 2 ^ 32 }
    ensures { result ≡ place_after place bytes.now }
{
    let mut at = place;
    let mut rest = bytes;
    while let [byte, behind @ ..] = rest {
        at = next_place(at, *byte);
        rest = behind;
    }
    at
}

// The bytes without a byte order mark at their front.
fn without_mark(bytes: &[u8]) -> &[u8]
    ensures { result.now ≡ without_mark bytes.now }
{
    match bytes {
        [a, b, c, behind @ ..] if *a == 0xef && *b == 0xbb && *c == 0xbf => behind,
        _ => bytes,
    }
}

/// What has been read of a source.
#[derive(Drop)]
pub struct Lexer {
    tokens: Vec<Token>,
    // The place of the next byte.
    place: Place,
    // The last token ends an operand.
    operand: bool,
    // The last token is a `-` after no operand.
    signed: bool,
}

impl Lexer {
    fn push(&mut self, kind: TokenKind) -> Result<(), AllocError>
        ensures state { OnOk result (state self.new ≡ pushed (record { kind = kind_of kind; place = self.old.place }) (state self.old)) }
        ensures place { self.new.place ≡ self.old.place }
    {
        self.signed = is_minus(&kind) && !self.operand;
        self.operand = ends_operand(&kind);
        self.tokens.push(Token {
            kind,
            place: self.place,
        })?;
        Ok(())
    }

    // Takes the piece at the front of what is left.
    fn take(&mut self, alloc: Global, form: Form, text: &[u8]) -> Result<(), FrontStop>
        requires piece { form_of text.now ≡ Some form }
        requires lines { self.old.place.line + length text.now < 2 ^ 32 }
        requires columns { self.old.place.column + length text.now < 2 ^ 32 }
        ensures { Took (meaning self.old.signed form text.now) text.now self.old self.new result }
    {
        match meaning_of(alloc, self.signed, form, text)? {
            Meaning::Nothing => {
                self.place = place_after(self.place, text);
                Ok(())
            }
            Meaning::Token(kind) => {
                self.push(kind)?;
                self.place = place_after(self.place, text);
                Ok(())
            }
            Meaning::Fault(rule, sound) => {
                let (front, _) = text.split_at(sound);
                Err(FrontStop::Refused {
                    rule,
                    place: place_after(self.place, front),
                })
            }
        }
    }
}

fn read_tokens(alloc: Global, bytes: &[u8]) -> Result<Vec<Token>, FrontStop>
    ensures { Answers bytes.now result }
{
    let start = Place { line: 1, column: 1 };
    if bytes.len() > MAX_BYTES {
        return Err(FrontStop::Refused {
            rule: Rule::TooLong.number(),
            place: start,
        });
    }
    let mut lexer = Lexer {
        tokens: Vec::new(alloc),
        place: start,
        operand: false,
        signed: false,
    };
    let mut rest = without_mark(bytes);
    while !rest.is_empty() {
        let (form, length) = first_piece(rest);
        let (text, behind) = rest.split_at(length);
        lexer.take(alloc, form, text)?;
        rest = behind;
    }
    lexer.push(TokenKind::TextEnd)?;
    Ok(lexer.tokens)
}

/// The tokens of a source. Refused comes with the first fault. That is rule 5 at 1:1 where there are more than `MAX_BYTES`
/// bytes. Else it is rule 1 at a byte or a backslash that can't stand there, or 4 at a number that is too large. Or it is rule
/// 2 or 3 where a comment or a string begins that isn't closed.
pub fn tokens(alloc: Global, bytes: &[u8]) -> Result<Vec<Token>, FrontStop>
    ensures reads { Answers bytes.now result }
    ensures only { (a : Answer) → IsReadAs bytes.now a → IsAnswer a result }
{
    read_tokens(alloc, bytes)
}

/// A law and no step of a program: bytes are read as one answer at most.
pub fn one_answer()
    ensures { (bytes : List ℕ) (a b : Answer) → IsReadAs bytes a → IsReadAs bytes b → a ≡ b }
{}
