ghost use Rattle.app_server.specs.Headline.{turn, Answers};
ghost use Rattle.app_server.specs.declared.command.CommandWords.TheVariants.{Make};

use crate::answer::write;
use crate::status::Status;
use be_geom::NoMemory;
use be_made::make as make_text;
use be_outside::{Sink, Source};
use std::alloc::Global;

/// Writes the script that is made of a number. The source isn't read.
pub fn make<S: Source, K: Sink>(alloc: Global, number: u16, source: &mut S, sink: &mut K) -> Status
    ensures { Answers (Make number) (turn S.left S.faults source.old source.new)
        (turn K.held K.faults sink.old sink.new) result }
{
    match make_text(alloc, number) {
        Ok(text) => write(text.as_slice(), sink),
        Err(NoMemory) => Status::NoMemory,
    }
}
