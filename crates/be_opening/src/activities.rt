ghost use Rattle.std.specs.Prelude.{◌≡◌, map, length, OnOk};
ghost use Rattle.std.specs.List.{range_with_len};
ghost use Rattle.be_machine.specs.Touched as part;
ghost use Rattle.be_opening.specs.Opened.{HasMore};
ghost use Rattle.be_script.specs.Limits.{IsWithinLimits};
ghost use Rattle.be_script.specs.Script.{declared_by};

use be_geom::NoMemory;
use be_parts::{CellPart, LinkPart, LooperPart, Part};
use be_script::Script;
use std::alloc::Global;

/// Each application is at its first instruction, waiting for nothing.
pub(crate) fn push_cells(
    alloc: Global,
    script: &Script,
    parts: &mut Vec<Part>,
) -> Result<(), NoMemory>
    requires { IsWithinLimits (declared_by script.now) }
    ensures { OnOk result (HasMore (declared_by script.now)
        (map part.cell (range_with_len 0 (length script.now.apps.items)))
        parts.old.items parts.new.items) }
{
    for app in 0..script.apps.len() {
        parts.push(Part::Cell(CellPart::new(alloc, app as u16)))?;
    }
    Ok(())
}

/// Each looper is free, and its window made no command.
pub(crate) fn push_loopers(
    alloc: Global,
    script: &Script,
    parts: &mut Vec<Part>,
) -> Result<(), NoMemory>
    requires { IsWithinLimits (declared_by script.now) }
    ensures { OnOk result (HasMore (declared_by script.now)
        (map part.looper (range_with_len 0 (length script.now.windows.items)))
        parts.old.items parts.new.items) }
{
    for w in 0..script.windows.len() {
        parts.push(Part::Looper(LooperPart::new(alloc, w as u16)?))?;
    }
    Ok(())
}

/// No command is on its way.
pub(crate) fn push_links(
    alloc: Global,
    script: &Script,
    parts: &mut Vec<Part>,
) -> Result<(), NoMemory>
    requires { IsWithinLimits (declared_by script.now) }
    ensures { OnOk result (HasMore (declared_by script.now)
        (map part.link (range_with_len 0 (length script.now.windows.items)))
        parts.old.items parts.new.items) }
{
    for w in 0..script.windows.len() {
        parts.push(Part::Link(LinkPart::new(alloc, w as u16)?))?;
    }
    Ok(())
}
