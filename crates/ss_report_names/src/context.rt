// What the names of a text are looked up in.

ghost use Rattle.std.specs.Prelude.{◌≡◌};
ghost use Rattle.ss_core.specs.View as view;
ghost use Rattle.ss_report_names.specs.Names as names;
ghost use Rattle.ss_report_names.specs.Tables as tables;

use crate::locals::Table;
use ss_core::{Body, Core};
use std::alloc::Global;

/// A program, with the names of its fields by their numbers.
#[derive(Drop)]
pub struct Program<'a> {
    pub whole: &'a Core,
    pub(crate) fields: Vec<&'a str>,
    ghost named: { tables.texts fields.items ≡ tables.field_names (view.classes whole.now.classes) },
}

/// A body, with the texts of its locals by their numbers.
#[derive(Drop)]
pub struct Locals<'a> {
    pub body: &'a Body,
    pub(crate) table: Table<'a>,
    ghost written: { tables.IsTable (names.local_names (view.body body.now)) table },
}

/// The program, the locals of a body, and the bound names of the quantifiers around an expression, from the outermost inwards.
#[derive(Drop)]
pub struct Context<'a> {
    pub alloc: Global,
    pub program: &'a Program<'a>,
    pub locals: &'a Locals<'a>,
    pub bound: &'a [&'a str],
}
