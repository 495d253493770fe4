// The context in which the code of a body is elaborated.

ghost use Rattle.std.specs.Prelude.{◌≡◌, ◌≤◌, length, map};
ghost use Rattle.ss_core.specs.View as core;
ghost use Rattle.ss_core.specs.Chain.{most_classes};
ghost use Rattle.ss_typed.specs.View as typed;
ghost use Rattle.ss_expand_rules.specs.Program as elab;
ghost use Rattle.ss_expand_bodies.specs.Origins.{origin_of};

use ss_expand_bodies::{Opened, Origin};
use ss_expand_expressions::Numbers;
use ss_typed::{Typed, TypedBody};
use std::alloc::Global;

/// The context in which the code of a body is elaborated.
#[derive(Drop)]
pub struct ElaborationContext<'a> {
    pub alloc: Global,
    pub program: &'a Typed,
    /// The bodies of the core program in their order.
    pub origins: &'a [Origin],
    pub body: &'a TypedBody,
    pub numbers: &'a Numbers,
    /// From the outermost inwards.
    pub exposes: Vec<Opened>,
    pub ghost listed: { map origin_of origins.now ≡ elab.bodies (typed.typed program.now) },
    pub ghost few_classes: { length (core.classes program.now.classes) ≤ most_classes },
}
