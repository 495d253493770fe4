// The locals that have a term, by their names in the source.

use ss_core::{Body, Core, Local, Ty};
use ss_terms::TermId;
use std::alloc::{AllocError, Global};

/// Where a statement stands: its body, the terms of the body's locals by their numbers, and the store.
#[derive(Clone, Copy)]
pub struct Position<'a> {
    pub core: &'a Core,
    pub body: &'a Body,
    pub locals: &'a [Option<TermId>],
    pub store: TermId,
}

/// A local that has a term.
#[derive(Clone, Copy)]
pub(crate) struct Named<'a> {
    pub(crate) name: &'a str,
    pub(crate) ty: Ty,
    pub(crate) term: TermId,
}

impl Named<'_> {
    /// Whether the name is that of a local of the program, and no other after it has it, as the copy of a parameter does.
    pub(crate) fn is_told(&self, others: &[Named<'_>]) -> bool {
        for other in others {
            if other.name == self.name {
                return false;
            }
        }
        !self.name.is_empty()
    }
}

// Adds those of the locals that have a term, where the first stands for the first of these terms.
fn add_named<'a>(
    named: &mut Vec<Named<'a>>,
    locals: &'a [Local],
    terms: &[Option<TermId>],
) -> Result<(), AllocError> {
    for number in 0..locals.len() {
        if let Some(Some(term)) = terms.get(number) {
            let local = &locals[number];
            named.push(Named {
                name: local.name.as_str(),
                ty: local.ty,
                term: *term,
            })?;
        }
    }
    Ok(())
}

// Adds `this`, where the body has it; the terms that are left are those of the others.
fn add_this<'t>(
    named: &mut Vec<Named<'_>>,
    body: &Body,
    terms: &'t [Option<TermId>],
) -> Result<&'t [Option<TermId>], AllocError> {
    if body.flags.is_static {
        return Ok(terms);
    }
    let [first, others @ ..] = terms else {
        return Ok(terms);
    };
    if let Some(term) = first {
        let ty = Ty::Ref {
            class: body.class,
            non_null: true,
        };
        named.push(Named {
            name: "this",
            ty,
            term: *term,
        })?;
    }
    Ok(others)
}

// Whether it is the temporary of this number: they are named t0, t1 and so on.
fn is_temporary(alloc: Global, local: &Local, number: usize) -> Result<bool, AllocError> {
    let name = format!(in alloc; "t{number}")?;
    Ok(local.name.as_str() == name.as_str())
}

// How many temporaries stand after the locals of the program.
fn temporary_count(alloc: Global, locals: &[Local]) -> Result<usize, AllocError> {
    let mut count = 0;
    for local in locals {
        if is_temporary(alloc, local, count)? {
            count = count.saturating_add(1);
        } else if is_temporary(alloc, local, 0)? {
            count = 1;
        } else {
            count = 0;
        }
    }
    Ok(count)
}

// The locals without the temporaries.
fn of_program(alloc: Global, locals: &[Local]) -> Result<&[Local], AllocError> {
    let count = temporary_count(alloc, locals)?;
    let end = locals.len().saturating_sub(count);
    Ok(locals.get(..end).unwrap_or(locals))
}

/// The locals of the program that have a term at a position, in order. An error is want of memory.
pub(crate) fn named_locals<'a>(
    alloc: Global,
    position: &Position<'a>,
) -> Result<Vec<Named<'a>>, AllocError> {
    let body = position.body;
    let mut named = Vec::new(alloc);
    let terms = add_this(&mut named, body, position.locals)?;
    add_named(&mut named, &body.params, terms)?;
    let others = terms.get(body.params.len()..).unwrap_or(&[]);
    add_named(&mut named, of_program(alloc, &body.locals)?, others)?;
    Ok(named)
}
