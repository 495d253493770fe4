// The tokens that a part begins with.

ghost use Rattle.std.specs.Prelude.{◌≡◌, ◌==◌, ◌<◌, length, option_map, IfOk, IfSome, Some};
ghost use Rattle.ss_ast.specs.Tokens.{kind_of, tok};
ghost use Rattle.ss_ast.specs.Expressions.{name_tree, expr_tree};
ghost use Rattle.ss_grammar_expressions.specs.Heads.{the, symbol_number, the_word, type_head, link_head, link_of, link_symbol, link_word, pieces, Operation, castable, castable_word, type_word_of, unary_symbol, unary_word, unary_head, AToken, Leaf};
ghost use Rattle.ss_grammar_expressions.specs.Parser.{give, name_at};
ghost use Rattle.ss_grammar.specs.Reading.{take, seen, ahead};
ghost use Rattle.ss_grammar.specs.Stops.{Gives};
ghost use Rattle.ss_parser_expression_trees.specs.View.{start_of, joint_of, ranked_of, unary_start_of};

use crate::build;
use ss_ast::{
    Expr, Name, Operator, Quantifier, Symbol, Token, TokenKind, TypeName, Word, same_word,
};
use ss_core::Place;
use ss_grammar::fault::{Fault, Stop};
use std::alloc::{AllocError, Global};

/// What a type begins with.
#[derive(Drop)]
pub struct Start {
    pub place: Place,
    pub name: TypeName,
}

/// An operator that groups to the left.
#[derive(Clone, Copy)]
pub enum Joint {
    Operation(Operator),
    Is,
    As,
}

/// An operator and its rank.
#[derive(Clone, Copy)]
pub struct RankedJoint {
    pub rank: u32,
    pub joint: Joint,
}

/// A symbol that opens a level at the front of a unary expression.
#[derive(Clone, Copy)]
pub enum Opening {
    /// `-`
    Negate,
    /// `!`
    Not,
    /// `(`
    Paren,
}

/// What a unary expression begins with. A leaf is a whole part by itself.
#[derive(Drop)]
pub enum UnaryStart {
    Opening(Place, Opening),
    Leaf(Place, Box<Expr>),
    Old(Place),
    New(Place),
    Quantifier(Place, Quantifier),
}

// The number of a symbol.
fn number_of(symbol: Symbol) -> u8
    ensures { result ≡ symbol_number symbol }
{
    symbol as u8
}

/// Whether the two are the same symbol.
pub fn same_symbol(one: Symbol, other: Symbol) -> bool
    ensures { result ≡ (symbol_number one == symbol_number other) }
{
    number_of(one) == number_of(other)
}

/// The place of this symbol, and the tokens after it.
pub fn expect(tokens: &[Token], symbol: Symbol) -> Result<(Place, &[Token]), Stop>
    ensures gives { Gives (λ x. (x.0, pieces x.1.now)) result (take (the symbol) give (pieces tokens.now)) }
    ensures fewer { IfOk result (λ x. length x.1.now < length tokens.now) }
{
    match tokens {
        [
            Token {
                kind: TokenKind::Symbol(s),
                place,
            },
            rest @ ..,
        ] if same_symbol(*s, symbol) => Ok((*place, rest)),
        _ => Err(Stop::Fault(Fault::Expected, tokens.len())),
    }
}

/// The expression, and the tokens after this symbol.
pub fn then_symbol(
    expr: Box<Expr>,
    symbol: Symbol,
    tokens: &[Token],
) -> Result<(Box<Expr>, &[Token]), Stop>
    ensures gives { Gives (λ x. (expr_tree x.0.value, pieces x.1.now)) result (take (the symbol) (λ _. give (expr_tree expr.value)) (pieces tokens.now)) }
    ensures fewer { IfOk result (λ x. length x.1.now < length tokens.now) }
{
    let (_, rest) = expect(tokens, symbol)?;
    Ok((expr, rest))
}

/// The place of this symbol, and the tokens after it, where it is the next.
pub fn next_symbol(tokens: &[Token], symbol: Symbol) -> Option<(Place, &[Token])>
    ensures sees { seen (the symbol) (pieces tokens.now) ≡ option_map (λ x. (x.0, pieces x.1.now)) result }
    ensures fewer { IfSome result (λ x. length x.1.now < length tokens.now) }
{
    match tokens {
        [
            Token {
                kind: TokenKind::Symbol(s),
                place,
            },
            rest @ ..,
        ] if same_symbol(*s, symbol) => Some((*place, rest)),
        _ => None,
    }
}

/// The place of this word, and the tokens after it.
pub fn expect_word(tokens: &[Token], word: Word) -> Result<(Place, &[Token]), Stop>
    ensures gives { Gives (λ x. (x.0, pieces x.1.now)) result (take (the_word word) give (pieces tokens.now)) }
    ensures fewer { IfOk result (λ x. length x.1.now < length tokens.now) }
{
    match tokens {
        [
            Token {
                kind: TokenKind::Word(w),
                place,
            },
            rest @ ..,
        ] if same_word(*w, word) => Ok((*place, rest)),
        _ => Err(Stop::Fault(Fault::Expected, tokens.len())),
    }
}

/// The place of this word, and the tokens after it, where it is the next.
pub fn next_word(tokens: &[Token], word: Word) -> Option<(Place, &[Token])>
    ensures sees { seen (the_word word) (pieces tokens.now) ≡ option_map (λ x. (x.0, pieces x.1.now)) result }
    ensures fewer { IfSome result (λ x. length x.1.now < length tokens.now) }
{
    match tokens {
        [
            Token {
                kind: TokenKind::Word(w),
                place,
            },
            rest @ ..,
        ] if same_word(*w, word) => Some((*place, rest)),
        _ => None,
    }
}

/// A name, and the tokens after it.
pub fn expect_name(tokens: &[Token]) -> Result<(Name, &[Token]), Stop>
    ensures gives { Gives (λ x. (name_tree x.0, pieces x.1.now)) result (name_at (pieces tokens.now)) }
    ensures fewer { IfOk result (λ x. length x.1.now < length tokens.now) }
{
    match tokens {
        [
            Token {
                kind: TokenKind::Name(name),
                place,
            },
            rest @ ..,
        ] => Ok((
            Name {
                text: name.clone()?,
                place: *place,
            },
            rest,
        )),
        _ => Err(Stop::Fault(Fault::Expected, tokens.len())),
    }
}

/// The type that this word names.
pub fn type_word(place: Place, word: Word) -> Option<Start>
    ensures { type_word_of place word ≡ option_map start_of result }
{
    match word {
        Word::Int => Some(Start {
            place,
            name: TypeName::Int,
        }),
        Word::Bool => Some(Start {
            place,
            name: TypeName::Bool,
        }),
        Word::Object => Some(Start {
            place,
            name: TypeName::Object,
        }),
        _ => None,
    }
}

/// What a type begins with, and the tokens after it.
pub fn expect_type(tokens: &[Token]) -> Result<(Start, &[Token]), Stop>
    ensures gives { Gives (λ x. (start_of x.0, pieces x.1.now)) result (take type_head give (pieces tokens.now)) }
    ensures fewer { IfOk result (λ x. length x.1.now < length tokens.now) }
{
    match tokens {
        [Token { kind, place }, rest @ ..] => match kind {
            TokenKind::Word(word) => match type_word(*place, *word) {
                Some(start) => Ok((start, rest)),
                None => Err(Stop::Fault(Fault::Expected, tokens.len())),
            },
            TokenKind::Name(name) => {
                let name = TypeName::Class(name.clone()?);
                Ok((
                    Start {
                        place: *place,
                        name,
                    },
                    rest,
                ))
            }
            _ => Err(Stop::Fault(Fault::Expected, tokens.len())),
        },
        _ => Err(Stop::Fault(Fault::Expected, tokens.len())),
    }
}

// An operation of this rank.
fn operation(rank: u32, operator: Operator) -> Option<RankedJoint>
    ensures { option_map ranked_of result ≡ Some (record { rank = rank; head = Operation operator }) }
{
    Some(RankedJoint {
        rank,
        joint: Joint::Operation(operator),
    })
}

// The operator that this symbol is.
fn ranked_symbol(symbol: Symbol) -> Option<RankedJoint>
    ensures { link_symbol symbol ≡ option_map ranked_of result }
{
    match symbol {
        Symbol::Star => operation(1, Operator::Multiply),
        Symbol::Slash => operation(1, Operator::Divide),
        Symbol::Percent => operation(1, Operator::Remainder),
        Symbol::Plus => operation(2, Operator::Add),
        Symbol::Minus => operation(2, Operator::Subtract),
        Symbol::Less => operation(3, Operator::Less),
        Symbol::LessEqual => operation(3, Operator::LessEqual),
        Symbol::Greater => operation(3, Operator::Greater),
        Symbol::GreaterEqual => operation(3, Operator::GreaterEqual),
        Symbol::EqualEqual => operation(4, Operator::Equal),
        Symbol::BangEqual => operation(4, Operator::NotEqual),
        Symbol::AndAnd => operation(5, Operator::And),
        Symbol::OrOr => operation(6, Operator::Or),
        _ => None,
    }
}

// The operator that this word is.
fn ranked_word(word: Word) -> Option<RankedJoint>
    ensures { link_word word ≡ option_map ranked_of result }
{
    match word {
        Word::Is => Some(RankedJoint {
            rank: 3,
            joint: Joint::Is,
        }),
        Word::As => Some(RankedJoint {
            rank: 3,
            joint: Joint::As,
        }),
        _ => None,
    }
}

// The operator that a token is.
fn ranked(kind: &TokenKind) -> Option<RankedJoint>
    ensures { link_of (kind_of kind.now) ≡ option_map ranked_of result }
{
    match kind {
        TokenKind::Symbol(symbol) => ranked_symbol(*symbol),
        TokenKind::Word(word) => ranked_word(*word),
        _ => None,
    }
}

/// The operator of this rank, where it is the next, and the tokens after it.
pub fn next_joint(tokens: &[Token], rank: u32) -> Option<(Joint, &[Token])>
    ensures sees { seen (link_head rank) (pieces tokens.now) ≡ option_map (λ x. (joint_of x.0, pieces x.1.now)) result }
    ensures fewer { IfSome result (λ x. length x.1.now < length tokens.now) }
{
    match tokens {
        [Token { kind, .. }, rest @ ..] => {
            match ranked(kind) {
                Some(found) => {
                    if found.rank == rank {
                        Some((found.joint, rest))
                    } else {
                        None
                    }
                }
                None => None,
            }
        }
        _ => None,
    }
}

/// Whether the operand of a cast may begin here.
pub fn is_castable(tokens: &[Token]) -> bool
    ensures { result ≡ ahead castable (pieces tokens.now) }
{
    match tokens {
        [Token { kind, .. }, ..] => match kind {
            TokenKind::Name(_) | TokenKind::Number(_) | TokenKind::Text(_) => true,
            TokenKind::Symbol(Symbol::Open) | TokenKind::Symbol(Symbol::Bang) => true,
            TokenKind::Word(word) => is_castable_word(*word),
            _ => false,
        },
        _ => false,
    }
}

// Whether the operand of a cast may begin with this word.
fn is_castable_word(word: Word) -> bool
    ensures { result ≡ castable_word word }
{
    matches!(
        word,
        Word::True | Word::False | Word::Null | Word::This | Word::Result | Word::New | Word::Old
    )
}

// What a unary expression begins with, where it may be this symbol.
fn unary_symbol(place: Place, symbol: Symbol) -> Option<UnaryStart>
    ensures { unary_symbol place symbol ≡ option_map unary_start_of result }
{
    match symbol {
        Symbol::Minus => Some(UnaryStart::Opening(place, Opening::Negate)),
        Symbol::Bang => Some(UnaryStart::Opening(place, Opening::Not)),
        Symbol::Open => Some(UnaryStart::Opening(place, Opening::Paren)),
        _ => None,
    }
}

// A leaf.
fn leaf(alloc: Global, place: Place, expr: Expr) -> Result<Option<UnaryStart>, AllocError>
    ensures { IfOk result (λ start. option_map unary_start_of start ≡ Some (Leaf place (expr_tree expr))) }
{
    let expr = build::boxed(alloc, expr)?;
    Ok(Some(UnaryStart::Leaf(place, expr)))
}

// What a unary expression begins with, where it may be this word.
fn unary_word(alloc: Global, place: Place, word: Word) -> Result<Option<UnaryStart>, AllocError>
    ensures { IfOk result (λ start. unary_word place word ≡ option_map unary_start_of start) }
{
    match word {
        Word::True => leaf(alloc, place, build::truth(place, true)),
        Word::False => leaf(alloc, place, build::truth(place, false)),
        Word::Null => leaf(alloc, place, build::null(place)),
        Word::This => leaf(alloc, place, build::this(place)),
        Word::Base => leaf(alloc, place, build::base(place)),
        Word::Result => leaf(alloc, place, build::result(place)),
        Word::Old => Ok(Some(UnaryStart::Old(place))),
        Word::New => Ok(Some(UnaryStart::New(place))),
        Word::Forall => Ok(Some(UnaryStart::Quantifier(place, Quantifier::Forall))),
        Word::Exists => Ok(Some(UnaryStart::Quantifier(place, Quantifier::Exists))),
        _ => Ok(None),
    }
}

/// What a unary expression begins with, where it may begin with this token.
pub fn unary_start(alloc: Global, token: &Token) -> Result<Option<UnaryStart>, AllocError>
    ensures { IfOk result (λ start. unary_head (AToken (tok token.now)) ≡ option_map unary_start_of start) }
{
    let place = token.place;
    match &token.kind {
        TokenKind::Symbol(symbol) => Ok(unary_symbol(place, *symbol)),
        TokenKind::Word(word) => unary_word(alloc, place, *word),
        TokenKind::Name(name) => leaf(alloc, place, build::named(place, name)?),
        TokenKind::Number(n) => leaf(alloc, place, build::number(place, i64::from(*n))),
        TokenKind::Text(text) => leaf(alloc, place, build::text(alloc, place, text)?),
        TokenKind::TextEnd => Ok(None),
    }
}
