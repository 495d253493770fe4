// Whole runs.
ghost use Rattle.std.specs.Prelude.{◌≡◌, ℕ, ◌<◌, ◌≤◌, ◌^◌, ◌∷◌, [], Some, length, IfOk};
ghost use Rattle.ss_core.specs.View as view;
ghost use Rattle.ss_core.specs.Chain.{IsWithinLimits};
ghost use Rattle.ss_io.specs.Outside.{Grew, GrewByFront, Wrote, Rose};
ghost use Rattle.ss_store_rules.specs.Admitted.{main_arguments};
ghost use Rattle.ss_machine_rules.specs.Runs.{run, printed, start_with};
ghost use Rattle.ss_machine_rules.specs.States.{Running};
ghost use Rattle.ss_machine_rules.specs.Good.{IsGoodState};
ghost use Rattle.ss_machine_typed.specs.Inputs.{IsInput};
ghost use Rattle.ss_machine_good.specs.States.{IsNonNullState};
ghost use Rattle.ss_store_rules.specs.Formed.{IsFormed};
ghost use Rattle.ss_machine_rules.specs.Ends.{IsDoneAt, HasFailed, HasStopped, IsRunning};
ghost use Rattle.ss_machine.specs.Ends as ends;
ghost use Rattle.ss_machine.specs.Ends.{IfDone, IfFailed, IfStopped, OnWhole};
ghost use Rattle.ss_machine.specs.Frames.{running, waiting};
ghost use Rattle.ss_machine.specs.Pieces.{pieces, WroteFirst};

use crate::frame::{Frame, Target, locals_at_entry};
use crate::good::{every_state_is_good, non_null_never_gives_null};
use crate::halt::Halt;
use crate::machine::Machine;
use ss_core::{Body, Core, Kind, Place};
use ss_core_bodies::body_at;
use ss_io::Sink;
use ss_machine_stores::Stores;
use ss_store_rules::Value;
use std::alloc::{AllocError, Global};

/// How a run ends.
#[derive(Clone, Copy, Debug, PartialEq, Eq)]
pub enum CheckedEnd {
    /// The run is done, after this least number of steps.
    Done { steps: u64 },
    /// A check failed.
    Failed { kind: Kind, place: Place },
    /// An assumption was false.
    Stopped { place: Place },
    /// The steps are spent and the run goes on.
    Running,
    /// A write failed.
    WriteFault,
    /// There was no memory.
    Memory,
}

// Main gets the array of the input where it has a parameter.
fn arguments(alloc: Global, main: &Body) -> Result<Vec<Value>, AllocError>
    ensures { IfOk result (λ v. v.items ≡ main_arguments (view.body main.now).params) }
{
    let mut arguments = Vec::new(alloc);
    if !main.params.is_empty() {
        arguments.push(Value::Obj(0))?;
    }
    Ok(arguments)
}

// Main at its entry, with the input as the only object.
fn start<'a>(alloc: Global, main: &'a Body, input: &[i32]) -> Result<Machine<'a>, AllocError>
    requires { length input.now < 2 ^ 31 }
    ensures { IfOk result (λ m. start_with input.now (Some (view.body main.now)) ≡ Running (running m ∷ waiting m) m.stores.now []) }
{
    let locals = locals_at_entry(main, arguments(alloc, main)?)?;
    let stores = Stores::start(alloc, input)?;
    Ok(Machine {
        top: Frame::at_entry(alloc, main, locals, Target::Call(None)),
        below: Vec::new(alloc),
        stores,
    })
}

// The answer where a step halts; that of a run that is over has the number of its steps.
fn end_of(halt: Halt, steps: u64) -> CheckedEnd
    ensures { result ≡ ends.end_of halt steps }
{
    match halt {
        Halt::Over => CheckedEnd::Done { steps },
        Halt::Fails(kind, place) => CheckedEnd::Failed { kind, place },
        Halt::Stops(place) => CheckedEnd::Stopped { place },
        Halt::WriteFault => CheckedEnd::WriteFault,
        Halt::Memory => CheckedEnd::Memory,
    }
}

/// Runs a program on an input for at most this many steps, with all its checks. Each piece that it prints is one write.
///
/// `Done`, `Failed`, `Stopped` and `Running` say what the run is after these steps, and the sink took all that it printed. `WriteFault`
/// comes where a write failed, and `Memory` where there was no memory; the sink then took a front of what the run prints.
/// What a step prints is one piece, which the sink takes whole in one write; an empty one is not written.
/// Each state of the run of a formed program is good until a check has failed. In a good state each object meets the invariants of
/// each class at which it is packed (JOT 2004). In no state of such a run does an expression of non-null type give null (OOPSLA 2003).
pub fn run_checked<S: Sink>(
    alloc: Global,
    core: &Core,
    input: &[i32],
    steps: u64,
    out: &mut S,
) -> CheckedEnd
    requires limits { IsWithinLimits (view.classes core.now.classes) }
    requires short { length input.now < 2 ^ 31 }
    ensures done { IfDone result (λ k. IsDoneAt (view.core core.now) input.now k steps) }
    ensures failed { IfFailed result (λ kind place. HasFailed (view.core core.now) input.now kind place steps) }
    ensures stopped { IfStopped result (λ place. HasStopped (view.core core.now) input.now place steps) }
    ensures running { result ≡ CheckedEnd.Running → IsRunning (run (view.core core.now) input.now steps) }
    ensures printed { OnWhole result
        (Grew (S.taken out.old) (S.taken out.new) (printed (view.core core.now) input.now steps)) }
    ensures front { GrewByFront (S.taken out.old) (S.taken out.new) (printed (view.core core.now) input.now steps) }
    ensures pieces { OnWhole result
        (Wrote (S.pieces out.old) (S.pieces out.new) (pieces (view.core core.now) input.now steps)) }
    ensures first_pieces { WroteFirst (S.pieces out.old) (S.pieces out.new) (pieces (view.core core.now) input.now steps) }
    ensures good { IsFormed (view.core core.now) → IsInput input.now → (n : ℕ) → IsGoodState (view.core core.now) (run (view.core core.now) input.now n) }
    ensures non_null { IsFormed (view.core core.now) → IsInput input.now → (n : ℕ) → IsNonNullState (view.core core.now) (run (view.core core.now) input.now n) }
    ensures faults { S.faults out.old ≤ S.faults out.new }
    ensures cause { result ≡ CheckedEnd.WriteFault → Rose (S.faults out.old) (S.faults out.new) }
{
    every_state_is_good(core, input);
    non_null_never_gives_null(core, input);
    let Some(main) = body_at(core, core.main) else {
        return CheckedEnd::Done { steps: 0 };
    };
    let Ok(mut machine) = start(alloc, main, input) else {
        return CheckedEnd::Memory;
    };
    for count in 0..steps {
        if let Err(halt) = machine.step(alloc, core, out) {
            return end_of(halt, count + 1);
        }
    }
    CheckedEnd::Running
}
