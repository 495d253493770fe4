// The beginnings of fields, at the front of a constructor.

ghost use Rattle.std.specs.Prelude.{◌≡◌, ◌+◌, IfOk, OnOk, map, option_map};
ghost use Rattle.ss_core.specs.Chain.{in_class};
ghost use Rattle.ss_core.specs.View as core;
ghost use Rattle.ss_typed.specs.Tree.{StmtTrees, Before};
ghost use Rattle.ss_typed.specs.View as typed;
ghost use Rattle.ss_paths.specs.Fields.{field_numbers};
ghost use Rattle.ss_expand_rules.specs.Code.{after};
ghost use Rattle.ss_expand_rules.specs.Constructors as constructors;
ghost use Rattle.ss_expand_rules.specs.Program as elab;
ghost use Rattle.ss_expand_rules.specs.Statements as statements;
ghost use Rattle.ss_expand_expressions.specs.Sources.{stmts_of};
ghost use Rattle.ss_expand_lifting.specs.Contexts.{context_of};

use ss_core::{ClassId, Field, FieldId, Place, Ty};
use ss_expand_bodies::field_at;
use ss_expand_lifting::{Code, ElaborationContext, OwnField, assign_field};
use ss_paths_assigned::Fields;
use ss_typed::{Typed, TypedClass, TypedExpr, TypedField, members_of};
use std::alloc::{AllocError, Global};

/// The number of a field, and the value with which it begins.
#[derive(Clone, Copy)]
struct InitialValue<'p> {
    number: FieldId,
    value: &'p TypedExpr,
}

// Adds the assignment with which the field of `this` begins.
fn add_assignment(
    context: &ElaborationContext<'_>,
    place: Place,
    field: &Field,
    initial: InitialValue<'_>,
    code: &mut Code,
    made: &mut Vec<Ty>,
) -> Result<(), AllocError>
    ensures { (more : StmtTrees) → OnOk result (after (stmts_of code.new.statements) (statements.stmts (context_of context.now) more made.new.items)
        ≡ after (stmts_of code.old.statements) (statements.stmts (context_of context.now) (Before (constructors.initial_assignment context.now.body.now.class.0 initial.entry.number.0 place (core.field_of field.now) (typed.expr initial.entry.value.now)) more) made.old.items)) }
{
    let own = OwnField {
        place,
        field: initial.number,
        ty: field.ty,
    };
    assign_field(context, own, initial.value, code, made)?;
    Ok(())
}

// The same of a field that is declared, where there is one.
fn add_declared(
    context: &ElaborationContext<'_>,
    member: &TypedField,
    found: Option<(ClassId, &Field)>,
    initial: InitialValue<'_>,
    code: &mut Code,
    made: &mut Vec<Ty>,
) -> Result<(), AllocError>
    ensures { (more : StmtTrees) → OnOk result (after (stmts_of code.new.statements) (statements.stmts (context_of context.now) more made.new.items)
        ≡ after (stmts_of code.old.statements) (statements.stmts (context_of context.now) (constructors.initialize context.now.body.now.class.0 initial.entry.number.0 (typed.field member.now) (Some (typed.expr initial.entry.value.now)) (option_map (λ p. in_class p.0.0 (core.field_of p.1.now)) found.entry) more) made.old.items)) }
{
    match found {
        Some((_, field)) => {
            add_assignment(context, member.place, field, initial, code, made)?;
            Ok(())
        }
        None => Ok(()),
    }
}

// Adds the assignment with which the field of this number begins, where it begins with a value.
fn add_initial(
    context: &ElaborationContext<'_>,
    number: FieldId,
    field: &TypedField,
    code: &mut Code,
    made: &mut Vec<Ty>,
) -> Result<(), AllocError>
    ensures { (more : StmtTrees) → OnOk result (after (stmts_of code.new.statements) (statements.stmts (context_of context.now) more made.new.items)
        ≡ after (stmts_of code.old.statements) (statements.stmts (context_of context.now) (constructors.initialize context.now.body.now.class.0 number.0 (typed.field field.now) (option_map typed.expr field.now.initial) (elab.field_at (typed.typed context.now.program.now) number.0) more) made.old.items)) }
{
    match &field.initial {
        Some(value) => {
            let found = field_at(context.program, number);
            let initial = InitialValue { number, value };
            add_declared(context, field, found, initial, code, made)?;
            Ok(())
        }
        None => Ok(()),
    }
}

// The number of the next field. There is no room for so many that it doesn't fit.
fn number_after(number: u32) -> Result<u32, AllocError>
    ensures { IfOk result (λ n. n ≡ number + 1) }
{
    number.checked_add(1).ok_or(AllocError)
}

// Adds the assignments of these fields, of which the first has this number.
fn add_fields(
    context: &ElaborationContext<'_>,
    first: u32,
    fields: &[TypedField],
    code: &mut Code,
    made: &mut Vec<Ty>,
) -> Result<(), AllocError>
    ensures { (more : StmtTrees) → OnOk result (after (stmts_of code.new.statements) (statements.stmts (context_of context.now) more made.new.items)
        ≡ after (stmts_of code.old.statements) (statements.stmts (context_of context.now) (constructors.before_all (constructors.initializers_from (typed.typed context.now.program.now) context.now.body.now.class.0 first (map typed.field fields.now)) more) made.old.items)) }
{
    let mut number = first;
    for field in fields {
        add_initial(context, FieldId(number), field, code, made)?;
        number = number_after(number)?;
    }
    Ok(())
}

// The count as the number of a field. There is no room for so many that it doesn't fit.
fn as_number(fields: usize) -> Result<u32, AllocError>
    ensures { IfOk result (λ n. n ≡ fields) }
{
    u32::try_from(fields).map_err(|_| AllocError)
}

// The number of the first field of a class.
fn first_field(alloc: Global, program: &Typed, class: ClassId) -> Result<u32, AllocError>
    ensures { IfOk result (λ n. n ≡ (field_numbers (typed.typed program.now) class.0).first) }
{
    let fields = Fields::new(alloc, program)?;
    let first = as_number(fields.numbers(class).first)?;
    Ok(first)
}

// Adds the assignments of the fields of a class.
fn add_members(
    context: &ElaborationContext<'_>,
    members: Option<&TypedClass>,
    code: &mut Code,
    made: &mut Vec<Ty>,
) -> Result<(), AllocError>
    ensures { (more : StmtTrees) → OnOk result (after (stmts_of code.new.statements) (statements.stmts (context_of context.now) more made.new.items)
        ≡ after (stmts_of code.old.statements) (statements.stmts (context_of context.now) (constructors.before_all (constructors.initializers_in (typed.typed context.now.program.now) context.now.body.now.class.0 (option_map (λ m. typed.members m.now) members.entry)) more) made.old.items)) }
{
    match members {
        Some(members) => {
            let first = first_field(context.alloc, context.program, context.body.class)?;
            add_fields(context, first, &members.fields, code, made)?;
            Ok(())
        }
        None => Ok(()),
    }
}

/// Adds the assignments with which the fields of the body's class begin.
pub fn add_initializers(
    context: &ElaborationContext<'_>,
    code: &mut Code,
    made: &mut Vec<Ty>,
) -> Result<(), AllocError>
    ensures { (more : StmtTrees) → OnOk result (after (stmts_of code.new.statements) (statements.stmts (context_of context.now) more made.new.items)
        ≡ after (stmts_of code.old.statements) (statements.stmts (context_of context.now) (constructors.before_all (constructors.initializers (typed.typed context.now.program.now) context.now.body.now.class.0) more) made.old.items)) }
{
    let members = members_of(context.program, context.body.class);
    add_members(context, members, code, made)?;
    Ok(())
}
