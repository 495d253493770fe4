// The rules of the language.

ghost use Rattle.std.specs.Prelude.{◌≡◌};
ghost use Rattle.ss_core.specs.Rules.{rule_number};

/// The rules that a source may break, each with its number.
#[derive(Clone, Copy, Debug, PartialEq, Eq)]
pub enum Rule {
    /// A byte or an escape that can't stand where it does.
    BadByte,
    /// A comment that isn't closed.
    OpenComment,
    /// A string that isn't closed.
    OpenString,
    /// A number that is too large.
    BigNumber,
    /// Too many bytes.
    TooLong,
    /// A token with which no program goes on.
    Unexpected,
    /// A token that opens a level of nesting too many.
    TooDeep,
    /// A `}` where a class could begin.
    StrayBrace,
    /// A name that means nothing where it stands.
    Unknown,
    /// A name that is declared already.
    Twice,
    /// A class that is above itself.
    Cycle,
    /// A method that doesn't fit the inherited one of its name.
    BadOverride,
    /// Something of another type or form than is wanted where it stands.
    BadType,
    /// A program without exactly one `Main`.
    NoMain,
    /// A call or a `new` in a condition.
    CallInCondition,
    /// Too much of something.
    Limit,
    /// A body with a result whose end can be reached.
    NoReturn,
    /// What may be null where a non-null value is wanted.
    MayBeNull,
    /// A method whose types differ in `!` from those of the one that it overrides.
    BadOverrideType,
    /// A constructor that leaves a non-null field without a value.
    Unassigned,
    /// `this` where its object isn't complete.
    ThisEscapes,
    /// A delayed constructor over one that isn't delayed.
    BaseNotDelayed,
    /// An invariant that reads what isn't admissible.
    NotAdmissible,
    /// A word of conditions where it may not stand.
    MisplacedWord,
    /// An attribute that may not stand where it does.
    BadAttribute,
}

impl Rule {
    /// The rule's number.
    pub fn number(self) -> u16
        ensures { result ≡ rule_number self }
    {
        match self {
            Rule::BadByte => 1,
            Rule::OpenComment => 2,
            Rule::OpenString => 3,
            Rule::BigNumber => 4,
            Rule::TooLong => 5,
            Rule::Unexpected => 10,
            Rule::TooDeep => 11,
            Rule::StrayBrace => 12,
            Rule::Unknown => 20,
            Rule::Twice => 21,
            Rule::Cycle => 22,
            Rule::BadOverride => 23,
            Rule::BadType => 24,
            Rule::NoMain => 25,
            Rule::CallInCondition => 26,
            Rule::Limit => 27,
            Rule::NoReturn => 28,
            Rule::MayBeNull => 30,
            Rule::BadOverrideType => 31,
            Rule::Unassigned => 40,
            Rule::ThisEscapes => 41,
            Rule::BaseNotDelayed => 42,
            Rule::NotAdmissible => 50,
            Rule::MisplacedWord => 51,
            Rule::BadAttribute => 52,
        }
    }
}
