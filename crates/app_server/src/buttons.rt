ghost use Rattle.app_server.specs.Headline.{turn, Answers};
ghost use Rattle.app_server.specs.declared.command.CommandWords.TheVariants.{Buttons};

use crate::answer::write;
use crate::status::Status;
use crate::told::told_from;
use be_check::{CheckFault, taken};
use be_geom::NoMemory;
use be_outside::{Sink, Source};
use be_pressed::pressed;
use be_world::World;
use std::alloc::Global;

/// Reads a script and a report of it, and writes which letters of the history that the report tells
/// press the view that they are for: its window, the view, and the letter's number.
pub fn buttons<S: Source, K: Sink>(alloc: Global, source: &mut S, sink: &mut K) -> Status
    ensures { Answers Buttons (turn S.left S.faults source.old source.new)
        (turn K.held K.faults sink.old sink.new) result }
{
    let told = match told_from(alloc, source) {
        Ok(told) => told,
        Err(status) => return status,
    };
    let Ok(world) = World::new(alloc, told.script) else {
        return Status::NoMemory;
    };
    let letters = match taken(alloc, &world, told.history.as_slice()) {
        Ok(letters) => letters,
        Err(CheckFault::Illegal(entry)) => return Status::Illegal { entry },
        Err(CheckFault::NoMemory) => return Status::NoMemory,
    };
    match pressed(alloc, world.script(), letters.as_slice()) {
        Ok(text) => write(text.as_slice(), sink),
        Err(NoMemory) => Status::NoMemory,
    }
}
