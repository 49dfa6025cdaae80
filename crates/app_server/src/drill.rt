//! A made script, run on one thread.
ghost use Rattle.std.specs.Prelude.{◌≡◌, IfOk, IfErr, Ok};
ghost use Rattle.app_server.specs.DrillText.{drill_text};
ghost use Rattle.app_server.specs.Headline.{turn, Answers};
ghost use Rattle.app_server.specs.Inputs.{script_in};
ghost use Rattle.app_server.specs.declared.command.CommandWords.TheVariants.{Drill};
ghost use Rattle.be_made.specs.Made.{made};
ghost use Rattle.be_runs.specs.Runs.{Leaves};
ghost use Rattle.be_script.specs.Limits.{IsWithinLimits};
ghost use Rattle.be_script.specs.Script.{declared_by};

use crate::answer::write;
use crate::serial::run;
use crate::status::Status;
use be_geom::NoMemory;
use be_machine::laws::every_history_is_orderly;
use be_made::{make, what_is_made_is_a_script};
use be_outside::{Sink, Source};
use be_reader::{ScriptFault, read};
use be_runs::Finished;
use be_script::Script;
use be_shown::{Shown, desktop_pixels};
use be_summary::summary;
use std::alloc::Global;

/// Makes the script of a number, runs it on this thread by the schedule of the same seed, and
/// writes what came of it in five numbers. The source isn't read.
pub fn drill<S: Source, K: Sink>(alloc: Global, number: u16, source: &mut S, sink: &mut K) -> Status
    ensures { Answers (Drill number) (turn S.left S.faults source.old source.new)
        (turn K.held K.faults sink.old sink.new) result }
{
    let Ok(script) = made_script(alloc, number) else {
        return Status::NoMemory;
    };
    let Ok(finished) = run(alloc, script, u32::from(number)) else {
        return Status::NoMemory;
    };
    every_history_is_orderly();
    match text(alloc, &finished) {
        Ok(text) => write(text.as_slice(), sink),
        Err(NoMemory) => Status::NoMemory,
    }
}

/// The script that is made of a number.
fn made_script(alloc: Global, number: u16) -> Result<Script, NoMemory>
    ensures script { IfOk result
        (λ script. script_in (made number) ≡ Ok (declared_by script)) }
    ensures limits { IfOk result (λ script. IsWithinLimits (declared_by script)) }
{
    what_is_made_is_a_script();
    let text = make(alloc, number)?;
    match read(alloc, text.as_slice()) {
        Ok(script) => Ok(script),
        Err(ScriptFault::At { .. }) => unreachable!(),
        Err(ScriptFault::NoMemory) => Err(NoMemory),
    }
}

fn text(alloc: Global, run: &Finished) -> Result<Vec<u8>, NoMemory>
    requires { Leaves run.now.world run.now }
    ensures { IfOk result
        (λ text. text.items ≡ drill_text run.now.world run.now.history.items) }
{
    let script = run.world.script();
    let parts = run.parts.as_slice();
    let screen = Shown::new(alloc, script, parts)?;
    let desktop = desktop_pixels(script, parts);
    summary(alloc, run.history.as_slice(), desktop, &screen)
}
