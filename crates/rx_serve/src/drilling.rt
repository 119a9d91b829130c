// The command `drill`: a generated session in memory, of which five lines are written.
ghost use Rattle.std.specs.Prelude.{◌≡◌, ◌+◌, ◌≤◌, ℕ, List, Option};
ghost use Rattle.rx_io.specs.declared.file_calls.FileCall.{FileCall};
ghost use Rattle.rx_io.specs.Named.{Contents};
ghost use Rattle.rx_base.specs.Outside.{Stream};
ghost use Rattle.command_line.specs.Commands.{drill_shown};
ghost use Rattle.rx_serve.specs.Drilling.{DrillLeaves};
ghost use Rattle.rx_serve.specs.Outside.{outside, faults, HasFaults};
ghost use Rattle.rx_serve.specs.Status.{status_of};

use crate::ending::End;
use command_line::DrillCommand;
use drill::run_drill;
use rx_base::Steps;
use rx_io::Sink;
use std::alloc::Global;
use std::sync::ledger::Ledger;

/// Serves a generated session in memory, and writes five lines about it.
pub(crate) fn drill_session<K: Sink, L: Ledger>(
    alloc: Global,
    drill: DrillCommand,
    output: &mut K,
    steps: &mut Steps<L>,
) -> End
    ensures drills { (files : Option Contents) (calls : Option (List FileCall)) (input : Option Stream) → DrillLeaves (drill_shown drill) (outside files calls input (K.told output.old) steps.old) (outside files calls input (K.told output.new) steps.new) result }
    ensures faults { (files : ℕ) (input : ℕ) → HasFaults (faults files input (K.faults output.old)) (faults files input (K.faults output.new)) result.answer }
    ensures differs { result.difference ≡ None }
    ensures status { result.status ≡ status_of result.answer }
    ensures counted_at_least { steps.old + result.steps ≤ steps.new }
{
    let answer = run_drill(alloc, drill.seed, drill.count, output, steps);
    End::without_session(alloc, answer)
}
