ghost use Rattle.std.specs.Prelude.{IfOk};
ghost use Rattle.be_script.specs.Limits.{IsWithinLimits};
ghost use Rattle.be_script.specs.Script.{declared_by};
ghost use Rattle.be_trees.specs.ArchiveLine.{IsTreeLine, opening_tree};

use crate::opening::opening_tree;
use be_archive::archive;
use be_flat::flatten;
use be_geom::NoMemory;
use be_script::Script;
use std::alloc::Global;

/// The line of the archive of a window's views as they are at the opening, or `none` where there is
/// no such window. The first window that the script declares has the number 0.
pub fn write_archive(alloc: Global, script: &Script, window: u16) -> Result<Vec<u8>, NoMemory>
    requires { IsWithinLimits (declared_by script.now) }
    ensures { IfOk result
        (λ line. IsTreeLine (opening_tree (declared_by script.now) window) line.items) }
{
    let Some(tree) = opening_tree(alloc, script, window)? else {
        return Ok(Vec::from_slice(alloc, b"none\n")?);
    };
    let message = archive(alloc, &tree)?;
    let bytes = flatten(alloc, &message)?;
    let mut line = hex::encode(alloc, bytes)?.into_bytes();
    line.push(b'\n')?;
    Ok(line)
}
