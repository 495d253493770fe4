// Forms of expressions with one operand.

ghost use Rattle.std.specs.Prelude.{pos, true, [], ◌∷◌, ◌++◌, IfOk, OnOk};
ghost use Rattle.ss_core.specs.View.{word_tree};
ghost use Rattle.ss_logic.specs.Shapes.{number};
ghost use Rattle.ss_logic.specs.Formulas.{neg};
ghost use Rattle.ss_logic.specs.Terms.{app};
ghost use Rattle.ss_logic.specs.Terms as term;
ghost use Rattle.ss_logic.specs.Express as spec;
ghost use Rattle.ss_terms.specs.Forms.{IsGrown};
ghost use Rattle.ss_vcgen_express.specs.Marked.{marked_part};
ghost use Rattle.ss_core.specs.declared.names.Kind.TheVariants as kind;
ghost use Rattle.ss_vcgen_express.specs.Numbers.{meant_at, HasMeant, IsMeant, IsTerm};
ghost use Rattle.ss_vcgen_express.specs.Contexts.{context_at, HasContext};
ghost use Rattle.ss_vcgen_walk.specs.Asked.{asked_word};
ghost use Rattle.ss_vcgen_walk.specs.Forms.{single_meant, single_asks};
ghost use Rattle.ss_vcgen_walk.specs.Parts.{parts_at, HasParts, AreParts};
ghost use Rattle.ss_vcgen_walk.specs.Reading.{Expressed};

use crate::asks::{Check, Subject, ask, ask_not_null, ask_readable};
use crate::guards::denied;
use crate::parts::Part;
use crate::reading_context::ReadingContext;
use ss_core::{ClassId, FieldId, Kind, Place, StateWord};
use ss_terms::{Bank, Symbol, TermId};
use ss_vcgen_express::{Function, Meant, Relation, Saying, as_class, mapped, over, word_said};
use std::alloc::{AllocError, Global};

/// A form with one operand. The last of three or of two says whether it is checked that the operand isn't null.
#[derive(Clone, Copy)]
pub(crate) enum Single {
    Negate(Place),
    Not,
    Is(ClassId),
    As(ClassId),
    Field(Place, FieldId, bool),
    Length(Place, bool),
    State(Place, StateWord, bool),
}

// The number 0.
fn zero(bank: &mut Bank) -> Result<TermId, AllocError>
    ensures at { IfOk result (λ t. IsTerm bank.new t (λ b. number (pos 0))) }
    ensures grown { IsGrown bank.old bank.new }
{
    bank.number(0)
}

// The negation of a number.
fn negated(alloc: Global, bank: &mut Bank, m: &Meant) -> Result<Meant, AllocError>
    requires { HasMeant bank.old m.now }
    ensures at { IfOk result (λ r. IsMeant bank.new r (λ b. spec.mapped (λ x. app term.Subtract (number (pos 0) ∷ x ∷ [])) (meant_at b m.now))) }
    ensures grown { IsGrown bank.old bank.new }
{
    let first = zero(bank)?;
    let function = Function {
        symbol: Symbol::Subtract,
        first: Some(first),
    };
    mapped(alloc, bank, function, m)
}

// The negation of a truth value.
fn not_so(alloc: Global, bank: &mut Bank, m: &Meant) -> Result<Meant, AllocError>
    requires { HasMeant bank.old m.now }
    ensures at { IfOk result (λ r. IsMeant bank.new r (λ b. spec.Says (neg (spec.said (meant_at b m.now))))) }
    ensures grown { IsGrown bank.old bank.new }
{
    let f = denied(alloc, bank, m)?;
    Ok(Meant::Says(f))
}

// That an object is of a class or below.
fn of_class(alloc: Global, bank: &mut Bank, class: ClassId, m: &Meant) -> Result<Meant, AllocError>
    requires { HasMeant bank.old m.now }
    ensures at { IfOk result (λ r. IsMeant bank.new r (λ b. spec.Says (spec.over (meant_at b m.now) (spec.is_of class.0)))) }
    ensures grown { IsGrown bank.old bank.new }
{
    let f = over(alloc, bank, m, Saying::IsOf(class.0))?;
    Ok(Meant::Says(f))
}

// A field of an object.
fn read(
    bank: &mut Bank,
    context: &ReadingContext<'_>,
    field: FieldId,
    m: &Meant,
) -> Result<Meant, AllocError>
    requires context { HasContext bank.old context.now.expression.now }
    requires meant { HasMeant bank.old m.now }
    ensures at { IfOk result (λ r. IsMeant bank.new r (λ b. spec.mapped (λ o. app (term.Field field.0) (spec.state (context_at b context.now.expression.now) ∷ o ∷ [])) (meant_at b m.now))) }
    ensures grown { IsGrown bank.old bank.new }
{
    let function = Function {
        symbol: Symbol::Field(field.0),
        first: Some(context.expression.state()),
    };
    mapped(context.alloc, bank, function, m)
}

// The length of an array.
fn length(alloc: Global, bank: &mut Bank, m: &Meant) -> Result<Meant, AllocError>
    requires { HasMeant bank.old m.now }
    ensures at { IfOk result (λ r. IsMeant bank.new r (λ b. spec.mapped (λ o. app term.Length (o ∷ [])) (meant_at b m.now))) }
    ensures grown { IsGrown bank.old bank.new }
{
    let function = Function {
        symbol: Symbol::Length,
        first: None,
    };
    mapped(alloc, bank, function, m)
}

// The answer to a question about an object.
fn answered(
    bank: &mut Bank,
    context: &ReadingContext<'_>,
    word: StateWord,
    m: &Meant,
) -> Result<Meant, AllocError>
    requires context { HasContext bank.old context.now.expression.now }
    requires meant { HasMeant bank.old m.now }
    ensures at { IfOk result (λ r. IsMeant bank.new r (λ b. spec.Says (spec.over (meant_at b m.now) (spec.word_said (context_at b context.now.expression.now) (word_tree word))))) }
    ensures grown { IsGrown bank.old bank.new }
{
    let f = word_said(context.alloc, bank, context.expression, word, m)?;
    Ok(Meant::Says(f))
}

// What the form means.
fn single_meant(
    bank: &mut Bank,
    context: &ReadingContext<'_>,
    form: Single,
    m: &Meant,
) -> Result<Meant, AllocError>
    requires context { HasContext bank.old context.now.expression.now }
    requires meant { HasMeant bank.old m.now }
    ensures at { IfOk result (λ r. IsMeant bank.new r (λ b. single_meant form (context_at b context.now.expression.now) (meant_at b m.now))) }
    ensures grown { IsGrown bank.old bank.new }
{
    match form {
        Single::Negate(_) => negated(context.alloc, bank, m),
        Single::Not => not_so(context.alloc, bank, m),
        Single::Is(class) => of_class(context.alloc, bank, class, m),
        Single::As(class) => as_class(context.alloc, bank, class.0, m),
        Single::Field(_, field, _) => read(bank, context, field, m),
        Single::Length(_, _) => length(context.alloc, bank, m),
        Single::State(_, word, _) => answered(bank, context, word, m),
    }
}

// The negation of a number has 32 bits.
fn ask_negation(
    alloc: Global,
    bank: &mut Bank,
    parts: &mut Vec<Part>,
    place: Place,
    m: &Meant,
) -> Result<(), AllocError>
    requires meant { HasMeant bank.old m.now }
    requires parts { HasParts bank.old parts.old.items }
    ensures asked { OnOk result (AreParts bank.new parts.new.items (λ b. parts_at b parts.old.items ++ marked_part kind.Overflow place true (spec.over (meant_at b m.now) (λ x. spec.fits_int (app term.Subtract (number (pos 0) ∷ x ∷ [])))))) }
    ensures grown { IsGrown bank.old bank.new }
{
    let first = zero(bank)?;
    let check = Check {
        kind: Kind::Overflow,
        place,
        checked: true,
    };
    let saying = Saying::Behind(Relation::Fits(Symbol::Subtract), first);
    ask(alloc, bank, parts, check, m, saying)
}

// A question about an object may be asked.
fn ask_word(
    bank: &mut Bank,
    context: &ReadingContext<'_>,
    parts: &mut Vec<Part>,
    place: Place,
    word: StateWord,
    subject: Subject<'_>,
) -> Result<(), AllocError>
    requires context { HasContext bank.old context.now.expression.now }
    requires meant { HasMeant bank.old subject.meant.now }
    requires parts { HasParts bank.old parts.old.items }
    ensures asked { OnOk result (AreParts bank.new parts.new.items (λ b. parts_at b parts.old.items ++ asked_word (word_tree word) subject.entry.checked (context_at b context.now.expression.now) (meant_at b subject.entry.meant.now) place)) }
    ensures grown { IsGrown bank.old bank.new }
{
    match word {
        StateWord::New => ask_not_null(context.alloc, bank, parts, place, subject),
        StateWord::Consistent
        | StateWord::Committed
        | StateWord::Level(_)
        | StateWord::Packed(_)
        | StateWord::Unowned => ask_readable(bank, context, parts, place, subject),
    }
}

// What the form asks.
fn ask_single(
    bank: &mut Bank,
    context: &ReadingContext<'_>,
    parts: &mut Vec<Part>,
    form: Single,
    m: &Meant,
) -> Result<(), AllocError>
    requires context { HasContext bank.old context.now.expression.now }
    requires meant { HasMeant bank.old m.now }
    requires parts { HasParts bank.old parts.old.items }
    ensures asked { OnOk result (AreParts bank.new parts.new.items (λ b. single_asks form (parts_at b parts.old.items) (context_at b context.now.expression.now) (meant_at b m.now))) }
    ensures grown { IsGrown bank.old bank.new }
{
    match form {
        Single::Negate(place) => ask_negation(context.alloc, bank, parts, place, m),
        Single::Not | Single::Is(_) | Single::As(_) => Ok(()),
        Single::Field(place, _, checked) => {
            let subject = Subject { meant: m, checked };
            ask_readable(bank, context, parts, place, subject)
        }
        Single::Length(place, checked) => {
            let subject = Subject { meant: m, checked };
            ask_not_null(context.alloc, bank, parts, place, subject)
        }
        Single::State(place, word, checked) => {
            let subject = Subject { meant: m, checked };
            ask_word(bank, context, parts, place, word, subject)
        }
    }
}

// The form of an operand that means this.
pub(crate) fn of_single(
    bank: &mut Bank,
    context: &ReadingContext<'_>,
    parts: &mut Vec<Part>,
    form: Single,
    m: &Meant,
) -> Result<Meant, AllocError>
    requires context { HasContext bank.old context.now.expression.now }
    requires meant { HasMeant bank.old m.now }
    requires parts { HasParts bank.old parts.old.items }
    ensures expressed { IfOk result (λ r. Expressed bank.new r parts.new.items (λ b. single_meant form (context_at b context.now.expression.now) (meant_at b m.now)) (λ b. single_asks form (parts_at b parts.old.items) (context_at b context.now.expression.now) (meant_at b m.now))) }
    ensures grown { IsGrown bank.old bank.new }
{
    ask_single(bank, context, parts, form, m)?;
    single_meant(bank, context, form, m)
}
