// Runs.

ghost use Rattle.std.specs.Prelude.{◌≡◌, ◌≤◌, ◌<◌, ◌^◌, true, length};
ghost use Rattle.ss_io.specs.Outside.{Rose};
ghost use Rattle.ss_core.specs.View.{core, classes};
ghost use Rattle.ss_core.specs.Chain.{IsWithinLimits};
ghost use Rattle.ss_ast.specs.Tokens.{toks};
ghost use Rattle.ss_typed.specs.View.{typed};
ghost use Rattle.ss_store_rules.specs.Admitted as store;
ghost use Rattle.ss_machine_typed.specs.Inputs.{IsInput};
ghost use Rattle.ss_top_sources.specs.Sources.{IsAccepted};
ghost use Rattle.ss_top_sources.specs.CoreSources.{Means};
ghost use Rattle.ss_top.specs.Answers.{Says};
ghost use Rattle.ss_top_words.specs.declared.Command.TheVariants as goals;

use crate::front::refuse;
use ss_core::Core;
use ss_io::Sink;
use ss_machine::{CheckedEnd, run_checked};
use ss_report::Status;
use ss_store::admitted;
use ss_top_sources::{Accepted, elaborate, read_source};
use ss_top_words::Asked;
use std::alloc::Global;

/// Runs the program of a source with all its checks, whatever it is.
pub fn run_unverified<S: Sink>(alloc: Global, asked: &Asked, source: &[u8], out: &mut S) -> Status
    requires short { length asked.now.input.items < 2 ^ 31 }
    requires input { IsInput asked.now.input.items }
    ensures says { Says asked.now.limits asked.now.steps asked.now.input.items (S.taken out.old) (S.taken out.new) result goals.RunUnverified source.now }
    ensures faults { S.faults out.old ≤ S.faults out.new }
    ensures cause { result ≡ Status.WriteFault → Rose (S.faults out.old) (S.faults out.new) }
{
    match read_source(alloc, source) {
        Ok(accepted) => run_accepted(alloc, asked, source, &accepted, out),
        Err(stop) => refuse(stop),
    }
}

// The same of an accepted source.
fn run_accepted<S: Sink>(
    alloc: Global,
    asked: &Asked,
    source: &[u8],
    accepted: &Accepted,
    out: &mut S,
) -> Status
    requires short { length asked.now.input.items < 2 ^ 31 }
    requires input { IsInput asked.now.input.items }
    requires accepted { IsAccepted source.now (toks accepted.now.tokens.items) (typed accepted.now.program) }
    ensures says { Says asked.now.limits asked.now.steps asked.now.input.items (S.taken out.old) (S.taken out.new) result goals.RunUnverified source.now }
    ensures faults { S.faults out.old ≤ S.faults out.new }
    ensures cause { result ≡ Status.WriteFault → Rose (S.faults out.old) (S.faults out.new) }
{
    let Ok(program) = elaborate(alloc, accepted) else {
        return Status::Memory;
    };
    run_whole(alloc, asked, source, &program, out)
}

/// Runs a program with all its checks, where it admits the input.
pub fn run_whole<S: Sink>(
    alloc: Global,
    asked: &Asked,
    source: &[u8],
    program: &Core,
    out: &mut S,
) -> Status
    requires short { length asked.now.input.items < 2 ^ 31 }
    requires input { IsInput asked.now.input.items }
    requires means { Means source.now (core program.now) }
    requires limits { IsWithinLimits (classes program.now.classes) }
    ensures says { Says asked.now.limits asked.now.steps asked.now.input.items (S.taken out.old) (S.taken out.new) result goals.RunUnverified source.now }
    ensures faults { S.faults out.old ≤ S.faults out.new }
    ensures cause { result ≡ Status.WriteFault → Rose (S.faults out.old) (S.faults out.new) }
{
    match admitted(alloc, program, &asked.input) {
        Ok(true) => run_admitted(alloc, asked, source, program, out),
        Ok(false) => Status::NotAdmitted,
        Err(_) => Status::Memory,
    }
}

// Runs a program that admits the input.
fn run_admitted<S: Sink>(
    alloc: Global,
    asked: &Asked,
    source: &[u8],
    program: &Core,
    out: &mut S,
) -> Status
    requires short { length asked.now.input.items < 2 ^ 31 }
    requires input { IsInput asked.now.input.items }
    requires means { Means source.now (core program.now) }
    requires limits { IsWithinLimits (classes program.now.classes) }
    requires admits { store.admitted (core program.now) asked.now.input.items ≡ true }
    ensures says { Says asked.now.limits asked.now.steps asked.now.input.items (S.taken out.old) (S.taken out.new) result goals.RunUnverified source.now }
    ensures faults { S.faults out.old ≤ S.faults out.new }
    ensures cause { result ≡ Status.WriteFault → Rose (S.faults out.old) (S.faults out.new) }
{
    let _source = source;
    match run_checked(alloc, program, &asked.input, asked.steps, out) {
        CheckedEnd::Done { .. } => Status::Ended,
        CheckedEnd::Failed { kind, place } => Status::Failed { kind, place },
        CheckedEnd::Stopped { place } => Status::Stopped { place },
        CheckedEnd::Running => Status::StepsSpent,
        CheckedEnd::WriteFault => Status::WriteFault,
        CheckedEnd::Memory => Status::Memory,
    }
}
