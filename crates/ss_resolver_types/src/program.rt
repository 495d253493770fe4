// The faults of types in a program, and the first of them.

ghost use Rattle.std.specs.Prelude.{◌≡◌, ◌++◌, ◌<◌, ◌+◌, length, map, OnOk, IfOk};
ghost use Rattle.ss_ast.specs.Programs.{member_tree, class_tree, program_tree};
ghost use Rattle.ss_tables.specs.Members.{constructors_in};
ghost use Rattle.ss_tables_lookup.specs.Classes.{trees};
ghost use Rattle.ss_resolver_types_expressions.specs.Programs.{members_faults, has_constructor, class_faults, classes_faults, first_type_fault};

use crate::members::{check_member, note_implied_base};
use ss_ast::{ClassDecl, Member, MemberKind, Program};
use ss_faults::{Fault, first_fault};
use ss_tables_lookup::Tables;
use std::alloc::{AllocError, Global};

// The members of a class.
fn check_members(
    alloc: Global,
    tables: &Tables<'_>,
    class: usize,
    found: &mut Vec<Fault>,
    declaration: &ClassDecl,
    members: &[Member],
) -> Result<(), AllocError>
    requires { class < length (trees tables.now) }
    ensures { OnOk result (found.new.items ≡ found.old.items ++ members_faults (trees tables.now) class (class_tree declaration.now) (map member_tree members.now)) }
{
    for member in members {
        check_member(alloc, tables, class, found, declaration, member)?;
    }
    Ok(())
}

// Whether a constructor is written.
fn has_constructor(members: &[Member]) -> bool
    ensures { result ≡ has_constructor (constructors_in (map member_tree members.now)) }
{
    for member in members {
        if let MemberKind::Constructor(_) = &member.kind {
            return true;
        }
    }
    false
}

// A class.
fn check_class(
    alloc: Global,
    tables: &Tables<'_>,
    class: usize,
    found: &mut Vec<Fault>,
    declaration: &ClassDecl,
) -> Result<(), AllocError>
    requires { class < length (trees tables.now) }
    ensures { OnOk result (found.new.items ≡ found.old.items ++ class_faults (trees tables.now) class (class_tree declaration.now)) }
{
    check_members(
        alloc,
        tables,
        class,
        found,
        declaration,
        &declaration.members,
    )?;
    let is_written = has_constructor(&declaration.members);
    note_implied_base(tables, class, found, is_written, declaration.name.place)
}

fn check_classes(
    alloc: Global,
    tables: &Tables<'_>,
    found: &mut Vec<Fault>,
    classes: &[ClassDecl],
) -> Result<(), AllocError>
    requires { classes.now ≡ tables.now }
    ensures { OnOk result (found.new.items ≡ found.old.items ++ classes_faults (trees tables.now) 0 (map class_tree classes.now)) }
{
    for (class, declaration) in classes.iter().enumerate() {
        check_class(alloc, tables, class, found, declaration)?;
    }
    Ok(())
}

/// The first fault of the phase of types in a program with these tables, None where there is none.
pub fn first_type_fault(
    alloc: Global,
    tables: &Tables<'_>,
    program: &Program,
) -> Result<Option<Fault>, AllocError>
    requires { tables.now ≡ program.now.classes.items }
    ensures { IfOk result (λ f. f ≡ first_type_fault (program_tree program.now)) }
{
    let mut found = Vec::new(alloc);
    check_classes(alloc, tables, &mut found, &program.classes)?;
    Ok(first_fault(&found))
}
