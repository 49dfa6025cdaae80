ghost use Rattle.app_server.specs.Headline.{turn, Answers};
ghost use Rattle.app_server.specs.declared.command.CommandWords.TheVariants.{Replay};

use crate::answer::answer;
use crate::status::Status;
use crate::told::told_from;
use be_check::{CheckFault, check};
use be_outside::{Sink, Source};
use be_world::World;
use std::alloc::Global;

/// Reads a script and a report of it, and judges the history that the report tells. Where it is
/// finished its report is written, else the first entry that isn't legal is told.
pub fn replay<S: Source, K: Sink>(alloc: Global, source: &mut S, sink: &mut K) -> Status
    ensures { Answers Replay (turn S.left S.faults source.old source.new)
        (turn K.held K.faults sink.old sink.new) result }
{
    let told = match told_from(alloc, source) {
        Ok(told) => told,
        Err(status) => return status,
    };
    let Ok(world) = World::new(alloc, told.script) else {
        return Status::NoMemory;
    };
    match check(world, told.history) {
        Ok(finished) => answer(alloc, &finished, sink),
        Err(CheckFault::Illegal(entry)) => Status::Illegal { entry },
        Err(CheckFault::NoMemory) => Status::NoMemory,
    }
}
