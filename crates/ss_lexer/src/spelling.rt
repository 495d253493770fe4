// The spellings of symbols and reserved words.

ghost use Rattle.std.specs.Prelude.{◌≡◌};
ghost use Rattle.ss_lexer.specs.Lexemes.{look_up, symbols, words};
ghost use Rattle.ss_lexer.specs.Fronts.{first_beginning};
ghost use Rattle.ss_lexer.specs.Steps.{rows};

use ss_ast::{Symbol, Word};

// Longer ones first.
static SYMBOLS: [(&[u8], Symbol); 32] = [
    (b"<==>", Symbol::Iff),
    (b"==>", Symbol::Implies),
    (b"==", Symbol::EqualEqual),
    (b"!=", Symbol::BangEqual),
    (b"<=", Symbol::LessEqual),
    (b">=", Symbol::GreaterEqual),
    (b"&&", Symbol::AndAnd),
    (b"||", Symbol::OrOr),
    (b"+=", Symbol::PlusEqual),
    (b"-=", Symbol::MinusEqual),
    (b"*=", Symbol::StarEqual),
    (b"++", Symbol::PlusPlus),
    (b"--", Symbol::MinusMinus),
    (b"{", Symbol::OpenBrace),
    (b"}", Symbol::CloseBrace),
    (b"(", Symbol::Open),
    (b")", Symbol::Close),
    (b"[", Symbol::OpenBracket),
    (b"]", Symbol::CloseBracket),
    (b";", Symbol::Semicolon),
    (b":", Symbol::Colon),
    (b",", Symbol::Comma),
    (b".", Symbol::Dot),
    (b"=", Symbol::Equal),
    (b"<", Symbol::Less),
    (b">", Symbol::Greater),
    (b"+", Symbol::Plus),
    (b"-", Symbol::Minus),
    (b"*", Symbol::Star),
    (b"/", Symbol::Slash),
    (b"%", Symbol::Percent),
    (b"!", Symbol::Bang),
];

static WORDS: [(&[u8], Word); 39] = [
    (b"using", Word::Using),
    (b"class", Word::Class),
    (b"static", Word::Static),
    (b"virtual", Word::Virtual),
    (b"override", Word::Override),
    (b"public", Word::Public),
    (b"private", Word::Private),
    (b"protected", Word::Protected),
    (b"internal", Word::Internal),
    (b"void", Word::Void),
    (b"int", Word::Int),
    (b"bool", Word::Bool),
    (b"object", Word::Object),
    (b"this", Word::This),
    (b"base", Word::Base),
    (b"null", Word::Null),
    (b"true", Word::True),
    (b"false", Word::False),
    (b"new", Word::New),
    (b"is", Word::Is),
    (b"as", Word::As),
    (b"if", Word::If),
    (b"else", Word::Else),
    (b"while", Word::While),
    (b"for", Word::For),
    (b"return", Word::Return),
    (b"assert", Word::Assert),
    (b"assume", Word::Assume),
    (b"expose", Word::Expose),
    (b"at", Word::At),
    (b"invariant", Word::Invariant),
    (b"requires", Word::Requires),
    (b"ensures", Word::Ensures),
    (b"modifies", Word::Modifies),
    (b"old", Word::Old),
    (b"result", Word::Result),
    (b"forall", Word::Forall),
    (b"exists", Word::Exists),
    (b"in", Word::In),
];

// The first of these symbols with which the source begins, and its length.
fn symbol_in(table: &[(&[u8], Symbol)], source: &[u8]) -> Option<(Symbol, usize)>
    ensures { result ≡ first_beginning (rows table.now) source.now }
{
    let mut rest = table;
    while let [(text, symbol), behind @ ..] = rest {
        if source.starts_with(text) {
            return Some((*symbol, text.len()));
        }
        rest = behind;
    }
    None
}

// The first of these words that is spelled so.
fn word_in(table: &[(&[u8], Word)], text: &[u8]) -> Option<Word>
    ensures { result ≡ look_up (rows table.now) text.now }
{
    let mut rest = table;
    while let [(spelling, word), behind @ ..] = rest {
        if text == *spelling {
            return Some(*word);
        }
        rest = behind;
    }
    None
}

// The longest symbol with which the source begins, and its length.
pub fn symbol_at(source: &[u8]) -> Option<(Symbol, usize)>
    ensures { result ≡ first_beginning symbols source.now }
{
    symbol_in(&SYMBOLS, source)
}

// The reserved word that the text spells.
pub fn word_of(text: &[u8]) -> Option<Word>
    ensures { result ≡ look_up words text.now }
{
    word_in(&WORDS, text)
}
