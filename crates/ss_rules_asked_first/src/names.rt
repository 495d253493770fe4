// The declared classes as arguments.

ghost use Rattle.std.specs.Prelude.{◌≡◌, ◌≤◌, ◌++◌, [], ◌∷◌, length, not, if◌then◌else◌, IfOk, OnOk};
ghost use Rattle.ss_core.specs.Chain.{most_classes};
ghost use Rattle.ss_core.specs.View as view;
ghost use Rattle.ss_logic.specs.Shapes.{class_term};
ghost use Rattle.ss_logic.specs.Asked as spec;
ghost use Rattle.ss_rules_asked.specs.Numbers.{arguments_at, HasArguments};
ghost use Rattle.ss_rules_asked_first.specs.Named.{AreArguments};

use ss_core::{Class, Classes, Expr};
use ss_rules_asked::Argument;
use ss_terms::Bank;
use std::alloc::{AllocError, Global};

/// The names of the declared classes. An error is want of memory.
pub(crate) fn class_names(
    alloc: Global,
    bank: &Bank,
    classes: &Classes,
) -> Result<Vec<Argument>, AllocError>
    requires { length (view.classes classes.now) ≤ most_classes }
    ensures { IfOk result (λ v. AreArguments bank.now v.items (spec.classes_from 4 (view.classes classes.now))) }
{
    let _ = bank;
    let mut names = Vec::new(alloc);
    let mut t: u16 = 4;
    for class in &classes.list {
        let _ = class;
        names.push(Argument::Class(t))?;
        t += 2;
    }
    Ok(names)
}

// Whether there is none.
fn is_empty(es: &[Expr]) -> bool
    ensures { result ≡ spec.is_empty (view.exprs es.now) }
{
    match es {
        [] => true,
        [_, ..] => false,
    }
}

// Adds the class, where it has an invariant.
fn add_with_invariants(
    bank: &Bank,
    names: &mut Vec<Argument>,
    t: u16,
    class: &Class,
) -> Result<(), AllocError>
    requires { HasArguments bank.now names.old.items }
    ensures { OnOk result (AreArguments bank.now names.new.items (arguments_at bank.now names.old.items ++ (if spec.is_empty (view.class_of class.now).invariants then [] else class_term t ∷ []))) }
{
    let _ = bank;
    if is_empty(&class.invariants) {
        return Ok(());
    }
    names.push(Argument::Class(t))?;
    Ok(())
}

/// The names of those that have an invariant. An error is want of memory.
pub(crate) fn with_invariants(
    alloc: Global,
    bank: &Bank,
    classes: &Classes,
) -> Result<Vec<Argument>, AllocError>
    requires { length (view.classes classes.now) ≤ most_classes }
    ensures { IfOk result (λ v. AreArguments bank.now v.items (spec.with_invariants_from 4 (view.classes classes.now))) }
{
    let mut names = Vec::new(alloc);
    let mut t: u16 = 4;
    for class in &classes.list {
        add_with_invariants(bank, &mut names, t, class)?;
        t += 2;
    }
    Ok(names)
}
