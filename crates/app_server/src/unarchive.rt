//! A view tree from its archive.
ghost use Rattle.std.specs.Prelude.{IfErr, IfOk};
ghost use Rattle.app_server.specs.Headline.{turn, Answers};
ghost use Rattle.app_server.specs.Scripts.{Reads, Refuses};
ghost use Rattle.app_server.specs.declared.command.CommandWords.TheVariants.{Unarchive};
ghost use Rattle.be_trees.specs.Reading.{tree_of_line};

use crate::answer::write;
use crate::input::{InputFault, read_all};
use crate::status::Status;
use be_geom::NoMemory;
use be_outside::{Sink, Source};
use be_reader::ScriptFault;
use be_trees::{read_archive, write_tree};
use be_views::ViewTree;
use std::alloc::Global;

/// How many bytes the line of an archive may have.
const MOST: usize = 1_048_576;

/// Reads the line of an archive, and writes the view tree that it is of.
pub fn unarchive<S: Source, K: Sink>(alloc: Global, source: &mut S, sink: &mut K) -> Status
    ensures { Answers Unarchive (turn S.left S.faults source.old source.new)
        (turn K.held K.faults sink.old sink.new) result }
{
    let tree = match tree_from(alloc, source) {
        Ok(tree) => tree,
        Err(status) => return status,
    };
    match write_tree(alloc, &tree) {
        Ok(text) => write(text.as_slice(), sink),
        Err(NoMemory) => Status::NoMemory,
    }
}

/// Reads a source as the line of an archive, or tells the status that says why it is none.
fn tree_from<S: Source>(alloc: Global, source: &mut S) -> Result<ViewTree, Status>
    ensures tree { IfOk result
        (Reads 1048576 tree_of_line (turn S.left S.faults source.old source.new)) }
    ensures refused { IfErr result
        (Refuses 1048576 tree_of_line (turn S.left S.faults source.old source.new)) }
{
    let bytes = match read_all(alloc, MOST, source) {
        Ok(bytes) => bytes,
        Err(InputFault::ReadFault) => return Err(Status::ReadFault),
        Err(InputFault::NoMemory) => return Err(Status::NoMemory),
    };
    match read_archive(alloc, bytes.as_slice()) {
        Ok(tree) => Ok(tree),
        Err(ScriptFault::At { line, reason }) => Err(Status::BadScript { line, reason }),
        Err(ScriptFault::NoMemory) => Err(Status::NoMemory),
    }
}
