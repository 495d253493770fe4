// What is asked of values, as parts.

ghost use Rattle.std.specs.Prelude.{[], ◌∷◌, ◌++◌, ◌≡◌, OnOk};
ghost use Rattle.ss_logic.specs.Express.{over, over_two};
ghost use Rattle.ss_terms.specs.Forms.{term_at, IsGrown};
ghost use Rattle.ss_vcgen_express.specs.Marked.{marked_part};
ghost use Rattle.ss_vcgen_express.specs.Numbers.{meant_at, HasMeant};
ghost use Rattle.ss_vcgen_express.specs.Sayings.{related, said_so, HasRelation, HasSaying};
ghost use Rattle.ss_vcgen_express.specs.Contexts.{context_at, HasContext};
ghost use Rattle.ss_vcgen_walk.specs.Asked.{asked_null, asked_allocated, asked_readable};
ghost use Rattle.ss_vcgen_walk.specs.Parts.{parts_at, HasParts, AreParts};

use crate::parts::Part;
use crate::reading_context::ReadingContext;
use ss_core::{Kind, Place};
use ss_terms::{Bank, FormulaId};
use ss_vcgen_express::{Meant, Relation, Saying, over, over_two};
use std::alloc::{AllocError, Global};

/// The check that fails where a part isn't so.
#[derive(Clone, Copy)]
pub(crate) struct Check {
    pub(crate) kind: Kind,
    pub(crate) place: Place,
    pub(crate) checked: bool,
}

/// The operands of a form: what each means.
#[derive(Clone, Copy)]
pub(crate) struct Operands<'a> {
    pub(crate) first: &'a Meant,
    pub(crate) second: &'a Meant,
}

/// A value that something is asked of: what it means, and whether it is checked.
#[derive(Clone, Copy)]
pub(crate) struct Subject<'a> {
    pub(crate) meant: &'a Meant,
    pub(crate) checked: bool,
}

// One more part.
fn add(parts: &mut Vec<Part>, check: Check, formula: FormulaId) -> Result<(), AllocError>
    ensures { OnOk result (parts.new.items ≡ parts.old.items ++ record { formula = formula; kind = check.kind; place = check.place; checked = check.checked } ∷ []) }
{
    parts.push(Part {
        formula,
        kind: check.kind,
        place: check.place,
        checked: check.checked,
    })?;
    Ok(())
}

// This is so of the value.
pub(crate) fn ask(
    alloc: Global,
    bank: &mut Bank,
    parts: &mut Vec<Part>,
    check: Check,
    m: &Meant,
    saying: Saying,
) -> Result<(), AllocError>
    requires meant { HasMeant bank.old m.now }
    requires saying { HasSaying bank.old saying }
    requires parts { HasParts bank.old parts.old.items }
    ensures asked { OnOk result (AreParts bank.new parts.new.items (λ b. parts_at b parts.old.items ++ marked_part check.kind check.place check.checked (over (meant_at b m.now) (said_so (term_at b) saying)))) }
    ensures grown { IsGrown bank.old bank.new }
{
    let formula = over(alloc, bank, m, saying)?;
    add(parts, check, formula)
}

// This is so of two values.
pub(crate) fn ask_two(
    alloc: Global,
    bank: &mut Bank,
    parts: &mut Vec<Part>,
    check: Check,
    operands: Operands<'_>,
    relation: Relation,
) -> Result<(), AllocError>
    requires first { HasMeant bank.old operands.first.now }
    requires second { HasMeant bank.old operands.second.now }
    requires relation { HasRelation bank.old relation }
    requires parts { HasParts bank.old parts.old.items }
    ensures asked { OnOk result (AreParts bank.new parts.new.items (λ b. parts_at b parts.old.items ++ marked_part check.kind check.place check.checked (over_two (meant_at b operands.entry.first.now) (meant_at b operands.entry.second.now) (related (term_at b) relation)))) }
    ensures grown { IsGrown bank.old bank.new }
{
    let formula = over_two(alloc, bank, operands.first, operands.second, relation)?;
    add(parts, check, formula)
}

// The object isn't null.
pub(crate) fn ask_not_null(
    alloc: Global,
    bank: &mut Bank,
    parts: &mut Vec<Part>,
    place: Place,
    subject: Subject<'_>,
) -> Result<(), AllocError>
    requires meant { HasMeant bank.old subject.meant.now }
    requires parts { HasParts bank.old parts.old.items }
    ensures asked { OnOk result (AreParts bank.new parts.new.items (λ b. parts_at b parts.old.items ++ asked_null subject.entry.checked (meant_at b subject.entry.meant.now) place)) }
    ensures grown { IsGrown bank.old bank.new }
{
    let check = Check {
        kind: Kind::Null,
        place,
        checked: subject.checked,
    };
    ask(alloc, bank, parts, check, subject.meant, Saying::NotNull)
}

// Inside `old` the object was allocated at entry.
fn ask_allocated(
    bank: &mut Bank,
    context: &ReadingContext<'_>,
    parts: &mut Vec<Part>,
    place: Place,
    m: &Meant,
) -> Result<(), AllocError>
    requires context { HasContext bank.old context.now.expression.now }
    requires meant { HasMeant bank.old m.now }
    requires parts { HasParts bank.old parts.old.items }
    ensures asked { OnOk result (AreParts bank.new parts.new.items (λ b. parts_at b parts.old.items ++ asked_allocated (context_at b context.now.expression.now) (meant_at b m.now) place)) }
    ensures grown { IsGrown bank.old bank.new }
{
    if context.expression.inside_old {
        let check = Check {
            kind: Kind::Null,
            place,
            checked: true,
        };
        return ask(
            context.alloc,
            bank,
            parts,
            check,
            m,
            Saying::Allocated(context.expression.entry),
        );
    }
    Ok(())
}

// The state of the object may be read.
pub(crate) fn ask_readable(
    bank: &mut Bank,
    context: &ReadingContext<'_>,
    parts: &mut Vec<Part>,
    place: Place,
    subject: Subject<'_>,
) -> Result<(), AllocError>
    requires context { HasContext bank.old context.now.expression.now }
    requires meant { HasMeant bank.old subject.meant.now }
    requires parts { HasParts bank.old parts.old.items }
    ensures asked { OnOk result (AreParts bank.new parts.new.items (λ b. parts_at b parts.old.items ++ asked_readable subject.entry.checked (context_at b context.now.expression.now) (meant_at b subject.entry.meant.now) place)) }
    ensures grown { IsGrown bank.old bank.new }
{
    ask_not_null(context.alloc, bank, parts, place, subject)?;
    ask_allocated(bank, context, parts, place, subject.meant)
}
