//! A script on threads.
ghost use Rattle.std.specs.Prelude.{IfOk};
ghost use Rattle.app_server.specs.Headline.{turn, Answers};
ghost use Rattle.app_server.specs.declared.command.CommandWords.TheVariants.{Run};
ghost use Rattle.be_runs.specs.Runs.{Leaves};
ghost use Rattle.be_script.specs.Limits.{IsWithinLimits};
ghost use Rattle.be_script.specs.Script.{declared_by};

use crate::answer::answer;
use crate::script::script_from;
use crate::status::Status;
use be_geom::NoMemory;
use be_machine::laws::every_history_is_orderly;
use be_outside::{Gate, Sink, Source};
use be_report::a_report_tells_its_history;
use be_runs::Finished;
use be_script::Script;
use be_threads::run_on_threads;
use be_world::World;
use std::alloc::Global;
use std::sync::Wait;
use std::thread::Threads;

/// Reads a script, runs each of its activities on a thread of its own, and writes the report of the
/// run. The gate is asked before and after each turn. Nothing is written before the run has ended.
pub fn run<R: Threads + Wait + Sync, S: Source, K: Sink, G: Gate + Sync>(
    rt: &R,
    alloc: Global,
    source: &mut S,
    sink: &mut K,
    gate: &G,
) -> Status
    ensures { Answers Run (turn S.left S.faults source.old source.new)
        (turn K.held K.faults sink.old sink.new) result }
{
    let script = match script_from(alloc, source) {
        Ok(script) => script,
        Err(status) => return status,
    };
    every_history_is_orderly();
    a_report_tells_its_history();
    match run_script(rt, alloc, script, gate) {
        Ok(finished) => answer(alloc, &finished, sink),
        Err(NoMemory) => Status::NoMemory,
    }
}

fn run_script<R: Threads + Wait + Sync, G: Gate + Sync>(
    rt: &R,
    alloc: Global,
    script: Script,
    gate: &G,
) -> Result<Finished, NoMemory>
    requires { IsWithinLimits (declared_by script) }
    ensures { IfOk result (Leaves (declared_by script)) }
{
    run_on_threads(rt, alloc, World::new(alloc, script)?, gate)
}
