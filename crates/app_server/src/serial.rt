ghost use Rattle.std.specs.Prelude.{IfOk};
ghost use Rattle.app_server.specs.Headline.{turn, Answers};
ghost use Rattle.app_server.specs.declared.command.CommandWords.TheVariants.{Serial};
ghost use Rattle.be_machine.specs.Schedule.{IsScheduled};
ghost use Rattle.be_runs.specs.Runs.{Leaves};
ghost use Rattle.be_script.specs.Limits.{IsWithinLimits};
ghost use Rattle.be_script.specs.Script.{declared_by};

use crate::answer::answer;
use crate::script::script_from;
use crate::status::Status;
use be_geom::NoMemory;
use be_machine::laws::every_history_is_orderly;
use be_outside::{Sink, Source};
use be_report::a_report_tells_its_history;
use be_runs::{Finished, run_alone};
use be_script::Script;
use be_world::World;
use std::alloc::Global;

/// Reads a script, runs it on this thread by the schedule of a seed, and writes the report of the
/// run. Nothing is written before the run has ended.
pub fn serial<S: Source, K: Sink>(alloc: Global, seed: u32, source: &mut S, sink: &mut K) -> Status
    ensures { Answers (Serial seed) (turn S.left S.faults source.old source.new)
        (turn K.held K.faults sink.old sink.new) result }
{
    let script = match script_from(alloc, source) {
        Ok(script) => script,
        Err(status) => return status,
    };
    every_history_is_orderly();
    a_report_tells_its_history();
    match run(alloc, script, seed) {
        Ok(run) => answer(alloc, &run, sink),
        Err(NoMemory) => Status::NoMemory,
    }
}

/// Runs a script on this thread by the schedule of a seed.
pub(crate) fn run(alloc: Global, script: Script, seed: u32) -> Result<Finished, NoMemory>
    requires { IsWithinLimits (declared_by script) }
    ensures leaves { IfOk result (Leaves (declared_by script)) }
    ensures scheduled { IfOk result
        (λ run. IsScheduled (declared_by script) seed run.history.items) }
{
    run_alone(alloc, World::new(alloc, script)?, seed)
}
