// Runs of core programs.

ghost use Rattle.std.specs.Prelude.{◌≡◌, ◌<◌, ◌^◌, length};
ghost use Rattle.ss_core.specs.View as view;
ghost use Rattle.ss_core.specs.Chain.{IsWithinLimits};
ghost use Rattle.ss_io.specs.Outside.{Rose};
ghost use Rattle.ss_machine_rules.specs.Ends.{HasStopped, IsRunning};
ghost use Rattle.ss_machine_rules.specs.Runs.{run};
ghost use Rattle.ss_machine.specs.Ends.{IfStopped};

use ss_core::Core;
use ss_io::Sink;
use ss_machine::{CheckedEnd, run_checked};
use std::alloc::Global;

/// How a run ends.
pub fn end_of_run<S: Sink>(
    alloc: Global,
    program: &Core,
    input: &[i32],
    steps: u64,
    out: &mut S,
) -> CheckedEnd
    requires limits { IsWithinLimits (view.classes program.now.classes) }
    requires short { length input.now < 2 ^ 31 }
    ensures stopped { IfStopped result (λ place. HasStopped (view.core program.now) input.now place steps) }
    ensures running { result ≡ CheckedEnd.Running → IsRunning (run (view.core program.now) input.now steps) }
    ensures cause { result ≡ CheckedEnd.WriteFault → Rose (S.faults out.old) (S.faults out.new) }
{
    run_checked(alloc, program, input, steps, out)
}
