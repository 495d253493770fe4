// The text of a verdict.

ghost use Rattle.std.specs.Prelude.{◌≡◌, ◌++◌, IfOk, OnOk, string_bytes};
ghost use Rattle.ss_report.specs.Texts.{kind_name as kind_words, check_text, budget_text as budget_words, not_proved_line, undecided_line};

use ss_core::{Kind, Place};
use ss_search_answers::Budget;
use std::alloc::{AllocError, Global};

/// A check: its kind, its place, and the names of its class and of its body.
#[derive(Clone, Copy)]
pub(crate) struct Check<'a> {
    pub(crate) kind: Kind,
    pub(crate) place: Place,
    pub(crate) class: &'a str,
    pub(crate) body: &'a str,
}

/// The name of a kind.
pub fn kind_name(kind: Kind) -> &'static str
    ensures { result.now ≡ kind_words kind }
{
    match kind {
        Kind::Null => "Null",
        Kind::Index => "Index",
        Kind::Cast => "Cast",
        Kind::Overflow => "Overflow",
        Kind::ZeroDivisor => "ZeroDivisor",
        Kind::NegativeLength => "NegativeLength",
        Kind::Assert => "Assert",
        Kind::Precondition => "Precondition",
        Kind::Postcondition => "Postcondition",
        Kind::Frame => "Frame",
        Kind::LoopInvariant => "LoopInvariant",
        Kind::LoopFrame => "LoopFrame",
        Kind::LoopLevel => "LoopLevel",
        Kind::UnpackLevel => "UnpackLevel",
        Kind::UnpackCommitted => "UnpackCommitted",
        Kind::PackLevel => "PackLevel",
        Kind::Invariant => "Invariant",
        Kind::PackOwned => "PackOwned",
        Kind::WriteLevel => "WriteLevel",
        Kind::WriteCommitted => "WriteCommitted",
        Kind::RepOwner => "RepOwner",
        Kind::PeerOwner => "PeerOwner",
    }
}

// Adds a check: `KIND at LINE:COLUMN in CLASS.NAME`.
fn push_check(text: &mut String, check: &Check<'_>) -> Result<(), AllocError>
    ensures { OnOk result (string_bytes text.new ≡ string_bytes text.old ++ check_text check.now.kind check.now.place check.now.class.now check.now.body.now) }
{
    let kind = kind_name(check.kind);
    let Place { line, column } = check.place;
    let class = check.class;
    let body = check.body;
    write!(text, "{kind} at {line}:{column} in {class}.{body}")?;
    Ok(())
}

/// Adds the line of an obligation that a model refutes: `not proved: KIND at LINE:COLUMN in CLASS.NAME` and a line end.
pub(crate) fn push_not_proved(text: &mut String, check: &Check<'_>) -> Result<(), AllocError>
    ensures { OnOk result (string_bytes text.new ≡ string_bytes text.old ++ not_proved_line check.now.kind check.now.place check.now.class.now check.now.body.now) }
{
    text.push_str("not proved: ")?;
    push_check(text, check)?;
    text.push_str("\n")?;
    Ok(())
}

// Which budget wasn't enough, and a line end.
fn budget_text(alloc: Global, over: Budget) -> Result<String, AllocError>
    ensures { IfOk result (λ text. string_bytes text ≡ budget_words over) }
{
    match over {
        Budget::Splits(splits) => format!(in alloc; ", {splits} splits\n"),
        Budget::Instances(limit) => format!(in alloc; ", more than {limit} instances\n"),
    }
}

/// Adds the line of an obligation that isn't decided: `undecided: KIND at LINE:COLUMN in CLASS.NAME, `, then `N splits` or `more than N instances`,
/// and a line end.
pub(crate) fn push_undecided(
    alloc: Global,
    text: &mut String,
    check: &Check<'_>,
    over: Budget,
) -> Result<(), AllocError>
    ensures { OnOk result (string_bytes text.new ≡ string_bytes text.old ++ undecided_line check.now.kind check.now.place check.now.class.now check.now.body.now over) }
{
    text.push_str("undecided: ")?;
    push_check(text, check)?;
    text.push_str(&budget_text(alloc, over)?)?;
    Ok(())
}
