// A source that was read.

ghost use Rattle.std.specs.Prelude.{◌≡◌, ℕ, ℤ, List, ◌≤◌, ◌<◌, ◌^◌, length};
ghost use Rattle.ss_io.specs.Outside.{Rose};
ghost use Rattle.ss_core.specs.View.{core, classes};
ghost use Rattle.ss_core.specs.Chain.{IsWithinLimits};
ghost use Rattle.ss_vcgen_heaps.specs.Obligations as oblig;
ghost use Rattle.ss_vcgen_builder.specs.Built.{trees};
ghost use Rattle.ss_sound.specs.Safe.{IsSafe};
ghost use Rattle.ss_top_sources.specs.CoreSources.{Means};
ghost use Rattle.ss_ast.specs.Tokens.{toks};
ghost use Rattle.ss_typed.specs.View.{typed};
ghost use Rattle.ss_machine_typed.specs.Inputs.{IsInput};
ghost use Rattle.ss_top_sources.specs.Sources.{IsAccepted};
ghost use Rattle.ss_top.specs.Answers.{Says, IsListed, answer_of, command_of_goal};
ghost use Rattle.ss_top.specs.declared.source.Goal.{Goal as AnyGoal};
ghost use Rattle.ss_top_words.specs.declared.Limits.{Limits as AnyLimits};
ghost use Rattle.ss_top_words.specs.declared.Command.TheVariants as goals;

use crate::front::refuse;
use crate::runs::{run_unverified, run_whole};
use ss_core::Core;
use ss_io::{Sink, WriteStop};
use ss_report::{Status, core_text, verdict_text};
use ss_search_answers::Options;
use ss_sound::{Verdict, verify};
use ss_top_sources::{Accepted, elaborate, read_program, read_source};
use ss_top_words::{Asked, Command};
use ss_vcgen::{Obligations, obligations};
use std::alloc::Global;

/// What is done with a program that is verified.
#[derive(Clone, Copy, Debug, PartialEq, Eq)]
pub enum Goal {
    /// The verdict is written.
    Verdict,
    /// It is run.
    Run,
}

// A source, and the program that it means.
#[derive(Clone, Copy)]
struct SourceProgram<'a> {
    source: &'a [u8],
    program: &'a Core,
}

/// Does what is asked of a source.
pub fn answer_source<S: Sink>(alloc: Global, asked: &Asked, source: &[u8], out: &mut S) -> Status
    requires short { length asked.now.input.items < 2 ^ 31 }
    requires input { IsInput asked.now.input.items }
    ensures says { Says asked.now.limits asked.now.steps asked.now.input.items (S.taken out.old) (S.taken out.new) result asked.now.command source.now }
    ensures faults { S.faults out.old ≤ S.faults out.new }
    ensures cause { result ≡ Status.WriteFault → Rose (S.faults out.old) (S.faults out.new) }
{
    match asked.command {
        Command::Verify => verify_source(alloc, Goal::Verdict, asked, source, out),
        Command::Run => verify_source(alloc, Goal::Run, asked, source, out),
        Command::RunUnverified => run_unverified(alloc, asked, source, out),
        Command::Expand => expand_source(alloc, source, out),
    }
}

// Writes the core program of a source.
fn expand_source<S: Sink>(alloc: Global, source: &[u8], out: &mut S) -> Status
    ensures says { (limits : AnyLimits) (steps : ℕ) (input : List ℤ) → Says limits steps input (S.taken out.old) (S.taken out.new) result goals.Expand source.now }
    ensures faults { S.faults out.old ≤ S.faults out.new }
    ensures cause { result ≡ Status.WriteFault → Rose (S.faults out.old) (S.faults out.new) }
{
    match read_source(alloc, source) {
        Ok(accepted) => expand_accepted(alloc, source, &accepted, out),
        Err(stop) => refuse(stop),
    }
}

// Writes the core program of an accepted source.
fn expand_accepted<S: Sink>(
    alloc: Global,
    source: &[u8],
    accepted: &Accepted,
    out: &mut S,
) -> Status
    requires accepted { IsAccepted source.now (toks accepted.now.tokens.items) (typed accepted.now.program) }
    ensures says { (limits : AnyLimits) (steps : ℕ) (input : List ℤ) → Says limits steps input (S.taken out.old) (S.taken out.new) result goals.Expand source.now }
    ensures faults { S.faults out.old ≤ S.faults out.new }
    ensures cause { result ≡ Status.WriteFault → Rose (S.faults out.old) (S.faults out.new) }
{
    let _source = source;
    let Ok(program) = elaborate(alloc, accepted) else {
        return Status::Memory;
    };
    let Ok(text) = core_text(alloc, &program) else {
        return Status::Memory;
    };
    match out.write(&text) {
        Ok(()) => Status::Ended,
        Err(WriteStop::Failed) => Status::WriteFault,
        Err(WriteStop::Memory) => Status::Memory,
    }
}

// Verifies the program of a source, and does with a safe one what is asked.
fn verify_source<S: Sink>(
    alloc: Global,
    goal: Goal,
    asked: &Asked,
    source: &[u8],
    out: &mut S,
) -> Status
    requires short { length asked.now.input.items < 2 ^ 31 }
    requires input { IsInput asked.now.input.items }
    ensures says { Says asked.now.limits asked.now.steps asked.now.input.items (S.taken out.old) (S.taken out.new) result (command_of_goal goal) source.now }
    ensures faults { S.faults out.old ≤ S.faults out.new }
    ensures cause { result ≡ Status.WriteFault → Rose (S.faults out.old) (S.faults out.new) }
{
    match read_program(alloc, source) {
        Ok(program) => answer_program(alloc, goal, asked, source, &program, out),
        Err(stop) => refuse(stop),
    }
}

// The same of the program that a source means.
fn answer_program<S: Sink>(
    alloc: Global,
    goal: Goal,
    asked: &Asked,
    source: &[u8],
    program: &Core,
    out: &mut S,
) -> Status
    requires short { length asked.now.input.items < 2 ^ 31 }
    requires input { IsInput asked.now.input.items }
    requires means { Means source.now (core program.now) }
    requires limits { IsWithinLimits (classes program.now.classes) }
    ensures says { Says asked.now.limits asked.now.steps asked.now.input.items (S.taken out.old) (S.taken out.new) result (command_of_goal goal) source.now }
    ensures faults { S.faults out.old ≤ S.faults out.new }
    ensures cause { result ≡ Status.WriteFault → Rose (S.faults out.old) (S.faults out.new) }
{
    let Ok(mut obligations) = obligations(alloc, program) else {
        return Status::Memory;
    };
    let limits = asked.limits;
    let options = Options {
        rounds: limits.rounds,
        splits: limits.splits,
        instances: limits.instances,
    };
    match verify(alloc, program, &mut obligations, &options) {
        Verdict::Verified(_) => answer_safe(alloc, goal, asked, source, program, out),
        Verdict::Memory => Status::Memory,
        verdict => {
            let meant = SourceProgram { source, program };
            tell_verdict(alloc, asked, &meant, &obligations, verdict, out)
        }
    }
}

// What the command does with a safe program.
fn answer_safe<S: Sink>(
    alloc: Global,
    goal: Goal,
    asked: &Asked,
    source: &[u8],
    program: &Core,
    out: &mut S,
) -> Status
    requires short { length asked.now.input.items < 2 ^ 31 }
    requires input { IsInput asked.now.input.items }
    requires means { Means source.now (core program.now) }
    requires limits { IsWithinLimits (classes program.now.classes) }
    requires safe { IsSafe (core program.now) }
    ensures says { Says asked.now.limits asked.now.steps asked.now.input.items (S.taken out.old) (S.taken out.new) result (command_of_goal goal) source.now }
    ensures faults { S.faults out.old ≤ S.faults out.new }
    ensures cause { result ≡ Status.WriteFault → Rose (S.faults out.old) (S.faults out.new) }
{
    match goal {
        Goal::Verdict => tell_verified(source, program, out),
        Goal::Run => run_safe(alloc, asked, source, program, out),
    }
}

// Says that a safe program is verified.
fn tell_verified<S: Sink>(source: &[u8], program: &Core, out: &mut S) -> Status
    requires means { Means source.now (core program.now) }
    requires safe { IsSafe (core program.now) }
    ensures says { (limits : AnyLimits) (steps : ℕ) (input : List ℤ) → Says limits steps input (S.taken out.old) (S.taken out.new) result goals.Verify source.now }
    ensures faults { S.faults out.old ≤ S.faults out.new }
    ensures cause { result ≡ Status.WriteFault → Rose (S.faults out.old) (S.faults out.new) }
{
    let (_source, _program) = (source, program);
    match out.write(b"verified\n") {
        Ok(()) => Status::Ended,
        Err(WriteStop::Failed) => Status::WriteFault,
        Err(WriteStop::Memory) => Status::Memory,
    }
}

// Runs a safe program. No check of it fails.
fn run_safe<S: Sink>(
    alloc: Global,
    asked: &Asked,
    source: &[u8],
    program: &Core,
    out: &mut S,
) -> Status
    requires short { length asked.now.input.items < 2 ^ 31 }
    requires input { IsInput asked.now.input.items }
    requires means { Means source.now (core program.now) }
    requires limits { IsWithinLimits (classes program.now.classes) }
    requires safe { IsSafe (core program.now) }
    ensures says { Says asked.now.limits asked.now.steps asked.now.input.items (S.taken out.old) (S.taken out.new) result goals.Run source.now }
    ensures faults { S.faults out.old ≤ S.faults out.new }
    ensures cause { result ≡ Status.WriteFault → Rose (S.faults out.old) (S.faults out.new) }
{
    run_whole(alloc, asked, source, program, out)
}

// The answer where the text of this verdict was written.
fn answer_of(verdict: Verdict) -> Status
    ensures { result ≡ answer_of verdict }
{
    match verdict {
        Verdict::Verified(_) => Status::Ended,
        Verdict::Unproved {
            countered,
            undecided,
        } => Status::Unproved {
            countered,
            undecided,
        },
        Verdict::Undecided(undecided) => Status::Undecided { undecided },
        Verdict::Memory => Status::Memory,
    }
}

// Writes the text of a verdict that lists obligations.
fn tell_verdict<S: Sink>(
    alloc: Global,
    asked: &Asked,
    meant: &SourceProgram<'_>,
    obligations: &Obligations,
    verdict: Verdict,
    out: &mut S,
) -> Status
    requires means { Means meant.now.source.now (core meant.now.program.now) }
    requires obligations { trees obligations.now ≡ oblig.obligations (core meant.now.program.now) }
    requires listed { IsListed asked.now.limits (core meant.now.program.now) verdict }
    ensures says { (goal : AnyGoal) → Says asked.now.limits asked.now.steps asked.now.input.items (S.taken out.old) (S.taken out.new) result (command_of_goal goal) meant.now.source.now }
    ensures faults { S.faults out.old ≤ S.faults out.new }
    ensures cause { result ≡ Status.WriteFault → Rose (S.faults out.old) (S.faults out.new) }
{
    let (_asked, _source) = (asked, meant.source);
    let Ok(lines) = verdict_text(alloc, meant.program, obligations, &verdict) else {
        return Status::Memory;
    };
    match out.write(&lines) {
        Ok(()) => answer_of(verdict),
        Err(WriteStop::Failed) => Status::WriteFault,
        Err(WriteStop::Memory) => Status::Memory,
    }
}
