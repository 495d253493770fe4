// The text of a core program.

ghost use Rattle.std.specs.Prelude.{◌≡◌, [], ◌∷◌, ◌++◌, IfOk, OnOk, codes, length, map};
ghost use Rattle.std.specs.List.{flat_map};
ghost use Rattle.ss_core.specs.View as view;
ghost use Rattle.ss_report_core.specs.Groups as grouped;
ghost use Rattle.ss_report_names.specs.Names as names;
ghost use Rattle.ss_report_names.specs.Contexts.{core_of, classes_of};
ghost use Rattle.ss_report_core.specs.Stmts.{line, deeper, code_text};
ghost use Rattle.ss_report_core.specs.Text as texts;

use crate::groups::bodies_by_class;
use crate::stmts::push_code;
use ss_core::{Body, Class, Core};
use ss_report_names::{
    Context, Locals, Program, push_both, push_bytes, push_class_between, push_title,
};
use std::alloc::{AllocError, Global};

// The line with the class and the name of a body.
fn push_title_line(out: &mut Vec<u8>, program: &Program<'_>, body: &Body) -> Result<(), AllocError>
    ensures { OnOk result (out.new.items ≡ out.old.items ++ line [] (codes "body " ++ names.title (classes_of program.now) (view.body body.now))) }
{
    out.extend_from_slice(b"body ")?;
    push_title(out, &program.whole.classes, body)?;
    out.extend_from_slice(b"\n")
}

// The statements of a body, one level deep.
fn push_statements(
    alloc: Global,
    out: &mut Vec<u8>,
    program: &Program<'_>,
    body: &Body,
) -> Result<(), AllocError>
    ensures { OnOk result (out.new.items ≡ out.old.items ++ code_text (core_of program.now) (names.local_names (view.body body.now)) (deeper []) (view.body body.now).code) }
{
    let locals = Locals::new(alloc, body)?;
    let context = Context {
        alloc,
        program,
        locals: &locals,
        bound: &[],
    };
    push_code(out, &context, b"  ", &body.code)
}

fn push_body(
    alloc: Global,
    out: &mut Vec<u8>,
    program: &Program<'_>,
    body: &Body,
) -> Result<(), AllocError>
    ensures { OnOk result (out.new.items ≡ out.old.items ++ texts.body_text (core_of program.now) (view.body body.now)) }
{
    push_title_line(out, program, body)?;
    push_statements(alloc, out, program, body)?;
    push_bytes(out, b"end\n")
}

fn push_bodies(
    alloc: Global,
    out: &mut Vec<u8>,
    program: &Program<'_>,
    bodies: &[&Body],
) -> Result<(), AllocError>
    ensures { OnOk result (out.new.items ≡ out.old.items ++ flat_map (texts.body_text (core_of program.now)) (grouped.trees bodies.now)) }
{
    for body in bodies {
        push_body(alloc, out, program, body)?;
    }
    Ok(())
}

// The line with the name of a class and the class above it.
fn push_class_line(
    out: &mut Vec<u8>,
    program: &Program<'_>,
    class: &Class,
) -> Result<(), AllocError>
    ensures { OnOk result (out.new.items ≡ out.old.items ++ grouped.class_line (core_of program.now) (view.class_of class.now)) }
{
    push_both(out, b"class ", class.name.as_bytes())?;
    push_class_between(out, &program.whole.classes, b" : ", class.above, b"\n")
}

// The line of a class, and these bodies.
fn push_class_text(
    alloc: Global,
    out: &mut Vec<u8>,
    program: &Program<'_>,
    class: &Class,
    bodies: &[&Body],
) -> Result<(), AllocError>
    ensures { OnOk result (out.new.items ≡ out.old.items ++ grouped.class_with (core_of program.now) (view.class_of class.now) (grouped.trees bodies.now)) }
{
    push_class_line(out, program, class)?;
    push_bodies(alloc, out, program, bodies)
}

// The texts of these classes, with the bodies of each.
fn push_classes(
    alloc: Global,
    out: &mut Vec<u8>,
    program: &Program<'_>,
    classes: &[Class],
    table: &[Vec<&Body>],
) -> Result<(), AllocError>
    requires classes { map view.class_of classes.now ≡ classes_of program.now }
    requires table { grouped.AreGroups (length classes.now) (core_of program.now).bodies table.now }
    ensures { OnOk result (out.new.items ≡ out.old.items ++ texts.core_text (core_of program.now)) }
{
    for (k, class) in classes.iter().enumerate() {
        push_class_text(alloc, out, program, class, &table[k])?;
    }
    Ok(())
}

/// The text of a core program, as bytes. An error is want of memory.
pub fn core_text(alloc: Global, whole: &Core) -> Result<Vec<u8>, AllocError>
    ensures { IfOk result (λ text. text.items ≡ texts.core_text (view.core whole.now)) }
{
    let program = Program::new(alloc, whole)?;
    let classes = &whole.classes.list;
    let table = bodies_by_class(alloc, classes.len(), &whole.bodies)?;
    let mut out = Vec::new(alloc);
    push_classes(alloc, &mut out, &program, classes, &table)?;
    Ok(out)
}
