ghost use Rattle.std.specs.Prelude.{◌≡◌, map, All, IfOk};
ghost use Rattle.be_machine.specs.State.{opening_state};
ghost use Rattle.be_parts.specs.Parts.{IsBlank, meaning_of};
ghost use Rattle.be_rules.specs.Slices.{slices};
ghost use Rattle.be_script.specs.Limits.{IsWithinLimits};
ghost use Rattle.be_script.specs.Script.{declared_by};

use crate::activities::{push_cells, push_links, push_loopers};
use crate::desk::desk_of;
use crate::panes::push_panes;
use crate::ports::push_ports;
use be_geom::NoMemory;
use be_parts::{DeskPart, InputPart, Part};
use be_script::Script;
use std::alloc::Global;

/// The parts with which a run of the script begins, in the order of their places.
pub fn opening(alloc: Global, script: &Script) -> Result<Vec<Part>, NoMemory>
    requires { IsWithinLimits (declared_by script.now) }
    ensures meant { IfOk result (λ parts. map meaning_of parts.items
        ≡ slices (declared_by script.now) (opening_state (declared_by script.now))) }
    ensures blank { IfOk result (λ parts. All IsBlank parts.items) }
{
    let places = 2 + script.apps.len() + 4 * script.windows.len();
    let mut parts = Vec::with_capacity(alloc, places)?;
    parts.push(Part::Desk(DeskPart::new(desk_of(alloc, script)?)))?;
    parts.push(Part::Input(InputPart::new(alloc)))?;
    push_cells(alloc, script, &mut parts)?;
    push_loopers(alloc, script, &mut parts)?;
    push_ports(alloc, script, &mut parts)?;
    push_links(alloc, script, &mut parts)?;
    push_panes(alloc, script, &mut parts)?;
    Ok(parts)
}
