// What a piece of a source means.

ghost use Rattle.std.specs.Prelude.{◌≡◌, ◌≤◌, length, IfOk, string_bytes};
ghost use Rattle.ss_ast.specs.Tokens.{kind_of, AText};
ghost use Rattle.std.specs.Str.Lossy.{utf8_valid_len};
ghost use Rattle.ss_lexer.specs.Lexemes.{look_up, words, decimal, sound_len, string_value};
ghost use Rattle.ss_lexer.specs.Pieces.{form_of, meaning, sound_or_bad, word_or_name, number_meaning, ends_operand, is_operand_word, is_minus, Nothing, Means};
ghost use Rattle.ss_lexer.specs.Steps.{meaning_is, FaultIsWithin};

use crate::literals::{escapes_length, name_of, number_value, string_value, utf8_length};
use crate::pieces::Form;
use crate::spelling::word_of;
use ss_ast::{Symbol, TokenKind, Word};
use ss_core::Rule;
use std::alloc::{AllocError, Global};

/// What a piece is in a source.
#[derive(Drop)]
pub enum Meaning {
    /// It only separates tokens.
    Nothing,
    Token(TokenKind),
    /// The rule of this number is broken, after so many of its bytes.
    Fault(u16, usize),
}

// What the piece means, where 2147483648 may stand in it or may not.
pub fn meaning_of(
    alloc: Global,
    signed: bool,
    form: Form,
    text: &[u8],
) -> Result<Meaning, AllocError>
    requires { form_of text.now ≡ Some form }
    ensures gives { IfOk result (λ m. meaning_is m ≡ meaning signed form text.now) }
    ensures within { IfOk result (λ m. FaultIsWithin m (length text.now)) }
{
    match form {
        Form::Space => Ok(Meaning::Nothing),
        Form::Comment => Ok(comment_meaning(text)),
        Form::OpenComment => Ok(Meaning::Fault(Rule::OpenComment.number(), 0)),
        Form::Word => Ok(Meaning::Token(word_meaning(alloc, text)?)),
        Form::Number => Ok(number_meaning(signed, text)),
        Form::Text => string_meaning(alloc, text),
        Form::OpenText => Ok(Meaning::Fault(Rule::OpenString.number(), 0)),
        Form::Symbol(symbol) => Ok(Meaning::Token(TokenKind::Symbol(symbol))),
        Form::Stray => Ok(Meaning::Fault(Rule::BadByte.number(), 0)),
    }
}

fn comment_meaning(text: &[u8]) -> Meaning
    ensures gives { meaning_is result ≡ sound_or_bad (utf8_valid_len text.now) text.now Nothing }
    ensures within { FaultIsWithin result (length text.now) }
{
    let sound = utf8_length(text);
    if sound == text.len() {
        Meaning::Nothing
    } else {
        Meaning::Fault(Rule::BadByte.number(), sound)
    }
}

fn word_meaning(alloc: Global, text: &[u8]) -> Result<TokenKind, AllocError>
    requires { form_of text.now ≡ Some Form.Word }
    ensures { IfOk result (λ k. kind_of k ≡ word_or_name (look_up words text.now) text.now) }
{
    match word_of(text) {
        Some(word) => Ok(TokenKind::Word(word)),
        None => Ok(TokenKind::Name(name_of(alloc, text)?)),
    }
}

fn number_meaning(signed: bool, text: &[u8]) -> Meaning
    ensures gives { meaning_is result ≡ number_meaning signed (decimal text.now) }
    ensures within { FaultIsWithin result (length text.now) }
{
    match number_value(text) {
        Some(n) if n < 2_147_483_648 || signed => Meaning::Token(TokenKind::Number(n)),
        _ => Meaning::Fault(Rule::BigNumber.number(), 0),
    }
}

fn string_meaning(alloc: Global, text: &[u8]) -> Result<Meaning, AllocError>
    requires { 2 ≤ length text.now }
    ensures gives { IfOk result (λ m. meaning_is m ≡ sound_or_bad (sound_len text.now) text.now (Means (AText (string_value text.now)))) }
    ensures within { IfOk result (λ m. FaultIsWithin m (length text.now)) }
{
    let sound = utf8_length(text).min(escapes_length(text));
    if sound != text.len() {
        return Ok(Meaning::Fault(Rule::BadByte.number(), sound));
    }
    let value = string_value(alloc, &text[1..text.len() - 1])?;
    Ok(Meaning::Token(TokenKind::Text(value)))
}

// Whether an operand ends with the token.
pub fn ends_operand(kind: &TokenKind) -> bool
    ensures { result ≡ ends_operand (kind_of kind.now) }
{
    match kind {
        TokenKind::Number(_) => true,
        TokenKind::Name(_) => true,
        TokenKind::Symbol(Symbol::Close) => true,
        TokenKind::Symbol(Symbol::CloseBracket) => true,
        TokenKind::Word(word) => is_operand_word(*word),
        _ => false,
    }
}

fn is_operand_word(word: Word) -> bool
    ensures { result ≡ is_operand_word word }
{
    match word {
        Word::This => true,
        Word::Result => true,
        Word::True => true,
        Word::False => true,
        Word::Null => true,
        _ => false,
    }
}

pub fn is_minus(kind: &TokenKind) -> bool
    ensures { result ≡ is_minus (kind_of kind.now) }
{
    matches!(kind, TokenKind::Symbol(Symbol::Minus))
}
