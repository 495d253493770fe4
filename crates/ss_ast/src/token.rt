// Tokens, each with its place in the source.

ghost use Rattle.std.specs.Prelude.{◌≡◌, ◌==◌};
ghost use Rattle.ss_ast.specs.Tokens.{word_number};

use ss_core::Place;

/// A reserved word.
#[derive(Clone, Copy)]
pub enum Word {
    Using,
    Class,
    Static,
    Virtual,
    Override,
    Public,
    Private,
    Protected,
    Internal,
    Void,
    Int,
    Bool,
    Object,
    This,
    Base,
    Null,
    True,
    False,
    New,
    Is,
    As,
    If,
    Else,
    While,
    For,
    Return,
    Assert,
    Assume,
    Expose,
    At,
    Invariant,
    Requires,
    Ensures,
    Modifies,
    Old,
    Result,
    Forall,
    Exists,
    In,
}

/// A symbol.
#[derive(Clone, Copy, Debug, PartialEq, Eq)]
pub enum Symbol {
    /// `<==>`
    Iff,
    /// `==>`
    Implies,
    EqualEqual,
    BangEqual,
    LessEqual,
    GreaterEqual,
    AndAnd,
    OrOr,
    PlusEqual,
    MinusEqual,
    StarEqual,
    PlusPlus,
    MinusMinus,
    OpenBrace,
    CloseBrace,
    Open,
    Close,
    OpenBracket,
    CloseBracket,
    Semicolon,
    Colon,
    Comma,
    Dot,
    Equal,
    Less,
    Greater,
    Plus,
    Minus,
    Star,
    Slash,
    Percent,
    Bang,
}

/// What a token is.
#[derive(Drop)]
pub enum TokenKind {
    Word(Word),
    Symbol(Symbol),
    Name(String),
    /// A number, at most 2147483648.
    Number(u32),
    /// A string: the bytes that it stands for, which are UTF-8.
    Text(Vec<u8>),
    /// The end of the text, which is the last token and no other.
    TextEnd,
}

/// A token and the place of its first byte.
#[derive(Drop)]
pub struct Token {
    pub kind: TokenKind,
    pub place: Place,
}

fn number_of(word: Word) -> u8
    ensures { result ≡ word_number word }
{
    word as u8
}

/// Whether the two are the same word.
pub fn same_word(one: Word, other: Word) -> bool
    ensures { result ≡ (word_number one == word_number other) }
{
    number_of(one) == number_of(other)
}
