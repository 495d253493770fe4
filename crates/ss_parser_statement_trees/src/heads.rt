// The tokens that a statement and its parts begin with.

ghost use Rattle.std.specs.Prelude.{◌≡◌, ◌<◌, length, IfOk, IfSome, option_map};
ghost use Rattle.ss_ast.specs.Tokens.{tok, kind_of};
ghost use Rattle.ss_grammar.specs.Reading.{seen};
ghost use Rattle.ss_grammar_expressions.specs.First.{tokened};
ghost use Rattle.ss_grammar_expressions.specs.Heads.{pieces, AToken};
ghost use Rattle.ss_grammar_statements.specs.Heads.{prim_head, simple_symbol, start_head, stmt_word, stmt_symbol, stmt_kind, stmt_head, PrimFirst};
ghost use Rattle.ss_parser_statement_trees.specs.View.{prim_start_of, simple_start_of, init_start_of, stmt_start_of};

use ss_ast::{
    AssignOperator, Block, Expr, Name, Quantifier, StepOperator, Symbol, Token, TokenKind, Word,
};
use ss_core::Place;
use ss_parser_expression_trees::heads::{Opening, Start, UnaryStart, type_word, unary_start};
use std::alloc::{AllocError, Global};

/// What a path begins with. A leaf is a whole part by itself.
#[derive(Drop)]
pub enum PrimStart {
    Paren(Place),
    Leaf(Place, Box<Expr>),
    Old(Place),
    New(Place),
    Quantifier(Place, Quantifier),
}

/// What stands after the path of an assignment.
#[derive(Clone, Copy)]
pub enum SimpleStart {
    Assign(AssignOperator),
    Step(StepOperator),
}

/// What a declaration or a simple statement begins with.
#[derive(Drop)]
pub enum InitStart {
    /// a type's word
    Type(Start),
    /// a name, with which a type or a path begins
    Name(Name),
    /// anything else that a path may begin with
    Prim(PrimStart),
}

/// A word that a statement begins with.
#[derive(Clone, Copy)]
pub enum StmtWord {
    If,
    While,
    For,
    Return,
    Assert,
    Assume,
    Expose,
}

/// What a statement begins with.
#[derive(Drop)]
pub enum StmtStart {
    /// `{`
    Block(Place),
    Init(InitStart),
    Word(Place, StmtWord),
    /// `;`
    Empty(Place),
}

/// What a path begins with, where it may begin with this token.
pub fn prim_start(alloc: Global, token: &Token) -> Result<Option<PrimStart>, AllocError>
    ensures { IfOk result (λ start. prim_head (AToken (tok token.now)) ≡ option_map prim_start_of start) }
{
    match unary_start(alloc, token)? {
        Some(UnaryStart::Opening(place, Opening::Paren)) => Ok(Some(PrimStart::Paren(place))),
        Some(UnaryStart::Opening(_, Opening::Negate)) => Ok(None),
        Some(UnaryStart::Opening(_, Opening::Not)) => Ok(None),
        Some(UnaryStart::Leaf(place, expr)) => Ok(Some(PrimStart::Leaf(place, expr))),
        Some(UnaryStart::Old(place)) => Ok(Some(PrimStart::Old(place))),
        Some(UnaryStart::New(place)) => Ok(Some(PrimStart::New(place))),
        Some(UnaryStart::Quantifier(place, quantifier)) => {
            Ok(Some(PrimStart::Quantifier(place, quantifier)))
        }
        None => Ok(None),
    }
}

/// What stands after the path of an assignment, where it may be this symbol.
pub fn simple_start(symbol: Symbol) -> Option<SimpleStart>
    ensures { simple_symbol symbol ≡ option_map simple_start_of result }
{
    match symbol {
        Symbol::Equal => Some(SimpleStart::Assign(AssignOperator::Set)),
        Symbol::PlusEqual => Some(SimpleStart::Assign(AssignOperator::Add)),
        Symbol::MinusEqual => Some(SimpleStart::Assign(AssignOperator::Subtract)),
        Symbol::StarEqual => Some(SimpleStart::Assign(AssignOperator::Multiply)),
        Symbol::PlusPlus => Some(SimpleStart::Step(StepOperator::Up)),
        Symbol::MinusMinus => Some(SimpleStart::Step(StepOperator::Down)),
        _ => None,
    }
}

// The same of a token that is no name and no type's word.
fn other_start(alloc: Global, token: &Token) -> Result<Option<InitStart>, AllocError>
    ensures { IfOk result (λ start. option_map PrimFirst (prim_head (AToken (tok token.now))) ≡ option_map init_start_of start) }
{
    match prim_start(alloc, token)? {
        Some(prim) => Ok(Some(InitStart::Prim(prim))),
        None => Ok(None),
    }
}

/// What a declaration or a simple statement begins with, where one may begin with this token.
pub fn init_start(alloc: Global, token: &Token) -> Result<Option<InitStart>, AllocError>
    ensures { IfOk result (λ start. start_head (AToken (tok token.now)) ≡ option_map init_start_of start) }
{
    match &token.kind {
        TokenKind::Word(word) => match type_word(token.place, *word) {
            Some(ty) => Ok(Some(InitStart::Type(ty))),
            None => other_start(alloc, token),
        },
        TokenKind::Name(text) => Ok(Some(InitStart::Name(Name {
            text: text.clone()?,
            place: token.place,
        }))),
        _ => other_start(alloc, token),
    }
}

// What a statement begins with, where it may be this word.
fn word_start(place: Place, word: Word) -> Option<StmtStart>
    ensures { stmt_word place word ≡ option_map stmt_start_of result }
{
    match word {
        Word::If => Some(StmtStart::Word(place, StmtWord::If)),
        Word::While => Some(StmtStart::Word(place, StmtWord::While)),
        Word::For => Some(StmtStart::Word(place, StmtWord::For)),
        Word::Return => Some(StmtStart::Word(place, StmtWord::Return)),
        Word::Assert => Some(StmtStart::Word(place, StmtWord::Assert)),
        Word::Assume => Some(StmtStart::Word(place, StmtWord::Assume)),
        Word::Expose => Some(StmtStart::Word(place, StmtWord::Expose)),
        _ => None,
    }
}

// What a statement begins with, where it may be this symbol.
fn symbol_start(place: Place, symbol: Symbol) -> Option<StmtStart>
    ensures { stmt_symbol place symbol ≡ option_map stmt_start_of result }
{
    match symbol {
        Symbol::OpenBrace => Some(StmtStart::Block(place)),
        Symbol::Semicolon => Some(StmtStart::Empty(place)),
        _ => None,
    }
}

// The same of a token that begins no declaration and no path.
fn own_start(token: &Token) -> Option<StmtStart>
    ensures { stmt_kind token.now.place (kind_of token.now.kind) ≡ option_map stmt_start_of result }
{
    match &token.kind {
        TokenKind::Symbol(symbol) => symbol_start(token.place, *symbol),
        TokenKind::Word(word) => word_start(token.place, *word),
        _ => None,
    }
}

/// What a statement begins with, where one may begin with this token.
pub fn stmt_start(alloc: Global, token: &Token) -> Result<Option<StmtStart>, AllocError>
    ensures { IfOk result (λ start. stmt_head (AToken (tok token.now)) ≡ option_map stmt_start_of start) }
{
    match own_start(token) {
        Some(start) => Ok(Some(start)),
        None => match init_start(alloc, token)? {
            Some(init) => Ok(Some(StmtStart::Init(init))),
            None => Ok(None),
        },
    }
}

/// What the next statement begins with, its first token and the tokens after it, where a statement begins here.
pub fn next_start(
    alloc: Global,
    tokens: &[Token],
) -> Result<Option<(StmtStart, &Token, &[Token])>, AllocError>
    ensures sees { IfOk result (λ next. seen (tokened stmt_head) (pieces tokens.now) ≡ option_map (λ x. ((stmt_start_of x.0, AToken (tok x.1.now)), pieces x.2.now)) next) }
    ensures fewer { IfOk result (λ next. IfSome next (λ x. length x.2.now < length tokens.now)) }
{
    match tokens {
        [token, rest @ ..] => match stmt_start(alloc, token)? {
            Some(start) => Ok(Some((start, token, rest))),
            None => Ok(None),
        },
        _ => Ok(None),
    }
}
