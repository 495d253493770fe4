// What a message says of a rule and of a kind of check.

ghost use Rattle.std.specs.Prelude.{◌≡◌};
ghost use Rattle.ss_main_messages.specs.Sentences.{sentence as sentence_of, sentence_of_check as check_sentence, failure as failure_of};

use ss_core::Kind;

/// The sentence of a rule.
pub(crate) fn sentence(rule: u16) -> &'static str
    ensures { result.now ≡ sentence_of rule }
{
    match rule {
        1 => "this byte or escape can't stand here",
        2 => "this comment isn't closed; end it with `*/`",
        3 => "this string isn't closed on its line; end it with a quotation mark",
        4 => "this number is too large; the largest is 2147483647",
        5 => "the file has more than 1048576 bytes; take another one or split it",
        10 =>
            "no program goes on like this; something is missing or too much before or at this place",
        11 => "this opens level 65 of nesting; there may be 64",
        12 => "this brace closes nothing; take it away, or open a class before it",
        20 => "this name means nothing here; declare it, or mend its spelling",
        21 => "this name is declared already; choose another one",
        22 => "this class stands above itself; break the circle of classes",
        23 =>
            "this method doesn't fit what it overrides; mend `override`, `virtual`, its types or its clauses",
        24 => "this doesn't fit where it stands; its type or its form is wrong here",
        25 =>
            "a program has exactly one `static void Main()`, without a parameter or with one of type `int[]`",
        26 => "a condition may have neither a call nor a `new`; keep its value in a local before",
        27 => "there are more of these than the language lets you have",
        28 => "the end of this method can be reached without a result; add a `return`",
        30 =>
            "this may be null where what is never null is wanted; test it before, or give the other a type without `!`",
        31 => "this override differs from what it overrides in a `!`; write the same types",
        40 =>
            "this constructor, or that of a class without one, leaves a field of a type with `!` without a value on some path",
        41 => "`this` may not stand here, since the object isn't complete yet",
        42 => "the constructor above is `[NotDelayed]`, so this class needs one that is it too",
        50 => "an invariant may read fields of `this` and of what it owns alone",
        51 => "a question about levels and owners, `old` and `result` can't stand here",
        52 => "this attribute is unknown, can't stand here, or stands here already",
        _ => "this rule is broken",
    }
}

/// The sentence of a kind of check, by the name that a verdict has for it.
pub(crate) fn sentence_of_check(kind: &str) -> &'static str
    ensures { result.now ≡ check_sentence kind.now }
{
    match kind {
        "Null" => "the object here isn't shown to be non-null",
        "Index" => "the index here isn't shown to be within the array",
        "Cast" => "the value here isn't shown to be of the type of the cast",
        "Overflow" => "the result here isn't shown to fit into an `int`",
        "ZeroDivisor" => "the divisor here isn't shown to differ from 0",
        "NegativeLength" => "the length here isn't shown to be at least 0",
        "Assert" => "this `assert` isn't shown to hold",
        "Precondition" =>
            "a `requires` of what is called here, or its default contract, isn't shown to hold",
        "Postcondition" =>
            "an `ensures`, or the default contract, isn't shown to hold at this return",
        "Frame" =>
            "what is changed before this return isn't shown to be named by `modifies`, or by the default contract, or a new object to be at its full level",
        "LoopInvariant" => "an `invariant` of this loop isn't shown to hold",
        "LoopFrame" =>
            "what is changed before this turn of the loop isn't shown to be named by `modifies`, or by the default contract, or a new object to be at its full level",
        "LoopLevel" => "the levels of objects aren't shown to stay as they are in this loop",
        "UnpackLevel" => "the object isn't shown to stand at the level that `expose` asks for",
        "UnpackCommitted" => "the object isn't shown to be free of an owner that is closed",
        "PackLevel" => "the object isn't shown to stand at the level that is closed here",
        "Invariant" => "an `invariant` of the class isn't shown to hold here",
        "PackOwned" => "what the object owns isn't shown to be consistent here",
        "WriteLevel" => "the object isn't shown to be exposed where its field is assigned",
        "WriteCommitted" => "the object isn't shown to be free to be changed here",
        "RepOwner" => "the value isn't shown to be free to be owned by a `[Rep]` field",
        "PeerOwner" => "the value isn't shown to have the owner that a `[Peer]` field asks for",
        _ => "this isn't shown to hold",
    }
}

/// The sentence of a check that failed in a run.
pub(crate) fn failure(kind: Kind) -> &'static str
    ensures { result.now ≡ failure_of kind }
{
    match kind {
        Kind::Null => "there is no object here: the value is null",
        Kind::Index => "the index here isn't within the array",
        Kind::Cast => "the value here isn't of the type of the cast",
        Kind::Overflow => "the result here doesn't fit into an `int`",
        Kind::ZeroDivisor => "the divisor here is 0",
        Kind::NegativeLength => "the length here is below 0",
        Kind::Assert => "this `assert` doesn't hold",
        Kind::Precondition =>
            "a `requires` of what is called here, or its default contract, doesn't hold",
        Kind::Postcondition => "an `ensures`, or the default contract, doesn't hold at this return",
        Kind::Frame =>
            "something was changed before this return that `modifies`, or the default contract, doesn't name, or a new object isn't at its full level",
        Kind::LoopInvariant => "an `invariant` of this loop doesn't hold",
        Kind::LoopFrame =>
            "something was changed before this turn of the loop that `modifies`, or the default contract, doesn't name, or a new object isn't at its full level",
        Kind::LoopLevel =>
            "an object that is exposed around this loop doesn't stand at the level that it stood at",
        Kind::UnpackLevel => "the object doesn't stand at the level that `expose` asks for",
        Kind::UnpackCommitted => "the object has an owner that is closed; expose the owner first",
        Kind::PackLevel => "the object doesn't stand at the level that is closed here",
        Kind::Invariant => "an `invariant` of the class doesn't hold where it is closed",
        Kind::PackOwned => "something that the object owns isn't consistent where it is closed",
        Kind::WriteLevel => "the object isn't exposed where its field is assigned",
        Kind::WriteCommitted => "the array has an owner that is closed; expose the owner first",
        Kind::RepOwner =>
            "the value has another owner already than the one that a `[Rep]` field asks for",
        Kind::PeerOwner =>
            "the value has another owner than the one that a `[Peer]` field asks for",
    }
}
