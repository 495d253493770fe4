// The tokens that a declaration and its parts begin with.

ghost use Rattle.std.specs.Prelude.{◌≡◌, ◌<◌, length, option_map, IfSome};
ghost use Rattle.ss_ast.specs.Tokens.{kind_of};
ghost use Rattle.ss_grammar.specs.Reading.{seen, ahead};
ghost use Rattle.ss_grammar_expressions.specs.Heads.{pieces};
ghost use Rattle.ss_grammar_programs.specs.Heads.{access_word, an_access, member_word_of, member_word, class_kind, begins_class, begins_kind, begins_member, type_follows, fields_follow};

use ss_ast::{Modifier, ModifierWord, Symbol, Token, TokenKind, Word};
use ss_core::Place;

fn access_place(place: Place, word: Word) -> Option<Place>
    ensures { access_word place word ≡ result }
{
    match word {
        Word::Public | Word::Private | Word::Protected | Word::Internal => Some(place),
        _ => None,
    }
}

/// The place of an access word, where one is the next, and the tokens after it.
pub fn next_access(tokens: &[Token]) -> Option<(Place, &[Token])>
    ensures sees { seen an_access (pieces tokens.now) ≡ option_map (λ x. (x.0, pieces x.1.now)) result }
    ensures fewer { IfSome result (λ x. length x.1.now < length tokens.now) }
{
    match tokens {
        [
            Token {
                kind: TokenKind::Word(word),
                place,
            },
            rest @ ..,
        ] => match access_place(*place, *word) {
            Some(place) => Some((place, rest)),
            None => None,
        },
        _ => None,
    }
}

fn modifier(place: Place, word: Word) -> Option<Option<Modifier>>
    ensures { member_word_of place word ≡ result }
{
    match word {
        Word::Static => Some(Some(Modifier {
            place,
            word: ModifierWord::Static,
        })),
        Word::Virtual => Some(Some(Modifier {
            place,
            word: ModifierWord::Virtual,
        })),
        Word::Override => Some(Some(Modifier {
            place,
            word: ModifierWord::Override,
        })),
        Word::Public | Word::Private | Word::Protected | Word::Internal => Some(None),
        _ => None,
    }
}

/// A word before a member, where one is the next, and the tokens after it. An access word says nothing.
pub fn next_modifier(tokens: &[Token]) -> Option<(Option<Modifier>, &[Token])>
    ensures sees { seen member_word (pieces tokens.now) ≡ option_map (λ x. (x.0, pieces x.1.now)) result }
    ensures fewer { IfSome result (λ x. length x.1.now < length tokens.now) }
{
    match tokens {
        [
            Token {
                kind: TokenKind::Word(word),
                place,
            },
            rest @ ..,
        ] => match modifier(*place, *word) {
            Some(said) => Some((said, rest)),
            None => None,
        },
        _ => None,
    }
}

fn is_class_kind(kind: &TokenKind) -> bool
    ensures { class_kind (kind_of kind.now) ≡ result }
{
    match kind {
        TokenKind::Word(word) => matches!(
            word,
            Word::Class | Word::Public | Word::Private | Word::Protected | Word::Internal
        ),
        _ => false,
    }
}

/// Whether a class begins here.
pub fn is_class(tokens: &[Token]) -> bool
    ensures { ahead begins_class (pieces tokens.now) ≡ result }
{
    match tokens {
        [Token { kind, .. }, ..] => is_class_kind(kind),
        _ => false,
    }
}

fn is_member_kind(kind: &TokenKind) -> bool
    ensures { begins_kind (kind_of kind.now) ≡ result }
{
    match kind {
        TokenKind::Symbol(Symbol::OpenBracket) => true,
        TokenKind::Word(word) => matches!(
            word,
            Word::Static
                | Word::Virtual
                | Word::Override
                | Word::Public
                | Word::Private
                | Word::Protected
                | Word::Internal
                | Word::Invariant
                | Word::Void
                | Word::Int
                | Word::Bool
                | Word::Object
        ),
        TokenKind::Name(_) => true,
        _ => false,
    }
}

/// Whether a member begins here.
pub fn is_member(tokens: &[Token]) -> bool
    ensures { ahead begins_member (pieces tokens.now) ≡ result }
{
    match tokens {
        [Token { kind, .. }, ..] => is_member_kind(kind),
        _ => false,
    }
}

/// After a name, whether the name begins a type.
pub fn is_type_ahead(tokens: &[Token]) -> bool
    ensures { ahead type_follows (pieces tokens.now) ≡ result }
{
    match tokens {
        [Token { kind, .. }, ..] => match kind {
            TokenKind::Symbol(Symbol::OpenBracket) | TokenKind::Symbol(Symbol::Bang) => true,
            TokenKind::Name(_) => true,
            _ => false,
        },
        _ => false,
    }
}

/// After a type and a name, whether the name is that of a field.
pub fn is_field_ahead(tokens: &[Token]) -> bool
    ensures { ahead fields_follow (pieces tokens.now) ≡ result }
{
    match tokens {
        [Token { kind, .. }, ..] => match kind {
            TokenKind::Symbol(Symbol::Equal) | TokenKind::Symbol(Symbol::Comma) => true,
            TokenKind::Symbol(Symbol::Semicolon) => true,
            _ => false,
        },
        _ => false,
    }
}
