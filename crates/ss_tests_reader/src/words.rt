// The words of terms, formulas and rules, as docs/OBLIGATIONS.md has them.

use ss_logic::{GoodRule, RuleName as EveryRule, Sort};
use ss_rules::RuleName;
use ss_terms::{Predicate, Symbol};

/// What stands after an opening parenthesis.
#[derive(Clone, Copy)]
pub enum Head {
    Function(Symbol),
    Atom(Predicate),
    Not,
    And,
    Or,
    Forall,
    Exists,
}

/// The head of this word. A class or a field that it takes is still 0.
pub fn head_of(word: &str) -> Option<Head> {
    match function(word) {
        Some(symbol) => Some(Head::Function(symbol)),
        None => match word {
            "not" => Some(Head::Not),
            "and" => Some(Head::And),
            "or" => Some(Head::Or),
            "forall" => Some(Head::Forall),
            "exists" => Some(Head::Exists),
            _ => match predicate(word) {
                Some(predicate) => Some(Head::Atom(predicate)),
                None => None,
            },
        },
    }
}

fn predicate(word: &str) -> Option<Predicate> {
    match word {
        "=" => Some(Predicate::Equal),
        "<=" => Some(Predicate::AtMost),
        "sub" => Some(Predicate::Sub),
        "alloc" => Some(Predicate::Allocated),
        "com" => Some(Predicate::Committed),
        "ready" => Some(Predicate::Ready),
        "isgroup" => Some(Predicate::IsGroup),
        "good" => Some(Predicate::Good),
        _ => None,
    }
}

fn function(word: &str) -> Option<Symbol> {
    match word {
        "+" => Some(Symbol::Add),
        "-" => Some(Symbol::Subtract),
        "*" => Some(Symbol::Multiply),
        "quo" => Some(Symbol::Quotient),
        "rem" => Some(Symbol::Remainder),
        "field" => Some(Symbol::Field(0)),
        "elem" => Some(Symbol::Element(Sort::Rest)),
        "elemi" => Some(Symbol::Element(Sort::Whole)),
        "elemb" => Some(Symbol::Element(Sort::Truth)),
        "len" => Some(Symbol::Length),
        "type" => Some(Symbol::TypeOf),
        "inv" => Some(Symbol::Level),
        "own" => Some(Symbol::Owner),
        "pair" => Some(Symbol::Pair),
        "next" => Some(Symbol::Next),
        _ => store(word),
    }
}

fn store(word: &str) -> Option<Symbol> {
    match word {
        "set" => Some(Symbol::Set(0)),
        "put" => Some(Symbol::Put),
        "unp" => Some(Symbol::Unpack(0)),
        "pck" => Some(Symbol::Pack(0)),
        "cap" => Some(Symbol::Capture(0)),
        "join" => Some(Symbol::Join),
        "new" => Some(Symbol::New(0)),
        "arr" => Some(Symbol::NewArray(0)),
        "rdy" => Some(Symbol::MakeReady),
        _ => None,
    }
}

// The number after this letter.
fn field(word: &str) -> Option<u32> {
    word.strip_prefix("f")?.parse::<u32>().ok()
}

fn class(word: &str) -> Option<u16> {
    word.strip_prefix("c")?.parse::<u16>().ok()
}

fn constant(word: &str, letter: &str) -> Option<usize> {
    word.strip_prefix(letter)?.parse::<usize>().ok()
}

/// The sort that this word binds.
pub fn bound_sort(word: &str) -> Option<Sort> {
    match word {
        "object" => Some(Sort::Rest),
        "int" => Some(Sort::Whole),
        _ => None,
    }
}

/// The number of the bound name that this word is.
pub fn bound_name(word: &str) -> Option<usize> {
    constant(word, "v")
}

/// The rule of this name.
pub fn any_rule(word: &str) -> Option<RuleName> {
    match word {
        "read" => Some(RuleName::Read),
        "fresh" => Some(RuleName::Fresh),
        "class" => Some(RuleName::Class),
        "split" => Some(RuleName::Split),
        "apart" => Some(RuleName::Apart),
        "quorem" => Some(RuleName::Quorem),
        "bool" => Some(RuleName::Bool),
        "g1" => Some(RuleName::Invariants),
        "g2" => Some(RuleName::Full),
        "g3" => Some(RuleName::Owned),
        "g4" => Some(RuleName::Marks),
        "g5" => Some(RuleName::Typed),
        "g6" => Some(RuleName::Ready),
        _ => None,
    }
}

/// The rule of this name that a line `rule` may have.
pub fn free_rule(word: &str) -> Option<EveryRule> {
    match word {
        "read" => Some(EveryRule::Read),
        "fresh" => Some(EveryRule::Fresh),
        "class" => Some(EveryRule::Class),
        "split" => Some(EveryRule::Split),
        "apart" => Some(EveryRule::Apart),
        "quorem" => Some(EveryRule::Quorem),
        "bool" => Some(EveryRule::Bool),
        _ => None,
    }
}

/// The rule of this name that a line `good` may have, but for `g1`.
pub fn good_rule(word: &str) -> Option<GoodRule> {
    match word {
        "g2" => Some(GoodRule::Full),
        "g3" => Some(GoodRule::Owned),
        "g4" => Some(GoodRule::Marks),
        "g5" => Some(GoodRule::Typed),
        "g6" => Some(GoodRule::Ready),
        _ => None,
    }
}

/// The function with the class or the field that this word is, where it takes such.
pub fn with_word(symbol: Symbol, word: &str) -> Option<Symbol> {
    match symbol {
        Symbol::Field(_) => Some(Symbol::Field(field(word)?)),
        Symbol::Set(_) => Some(Symbol::Set(field(word)?)),
        Symbol::Unpack(_) => Some(Symbol::Unpack(class(word)?)),
        Symbol::Pack(_) => Some(Symbol::Pack(class(word)?)),
        Symbol::Capture(_) => Some(Symbol::Capture(class(word)?)),
        Symbol::New(_) => Some(Symbol::New(class(word)?)),
        Symbol::NewArray(_) => Some(Symbol::NewArray(class(word)?)),
        _ => None,
    }
}

/// The number, the constant or the class that this word is alone.
pub fn leaf(word: &str) -> Option<Symbol> {
    match word {
        "true" => return Some(Symbol::Fixed(true)),
        "false" => return Some(Symbol::Fixed(false)),
        "null" => return Some(Symbol::Null),
        _ => {}
    }
    if let Some(t) = class(word) {
        return Some(Symbol::ClassName(t));
    }
    for (letter, sort) in [
        ("s", Sort::Store),
        ("i", Sort::Whole),
        ("b", Sort::Truth),
        ("x", Sort::Rest),
    ] {
        if let Some(k) = constant(word, letter) {
            return Some(Symbol::Constant(sort, k));
        }
    }
    let n = word.parse::<i128>().ok()?;
    Some(Symbol::Number(n))
}
