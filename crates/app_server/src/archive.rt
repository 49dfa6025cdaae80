ghost use Rattle.app_server.specs.Headline.{turn, Answers};
ghost use Rattle.app_server.specs.declared.command.CommandWords.TheVariants.{Archive};

use crate::answer::write;
use crate::script::script_from;
use crate::status::Status;
use be_geom::NoMemory;
use be_outside::{Sink, Source};
use be_trees::write_archive;
use std::alloc::Global;

/// Reads a script, and writes the archive of the view tree with which a window opens: the bytes of
/// its message, two digits for each.
pub fn archive<S: Source, K: Sink>(
    alloc: Global,
    window: u16,
    source: &mut S,
    sink: &mut K,
) -> Status
    ensures { Answers (Archive window) (turn S.left S.faults source.old source.new)
        (turn K.held K.faults sink.old sink.new) result }
{
    let script = match script_from(alloc, source) {
        Ok(script) => script,
        Err(status) => return status,
    };
    match write_archive(alloc, &script, window) {
        Ok(text) => write(text.as_slice(), sink),
        Err(NoMemory) => Status::NoMemory,
    }
}
