ghost use Rattle.std.specs.Prelude.{◌≡◌, Some, map, length, OnOk};
ghost use Rattle.std.specs.List.{range_with_len};
ghost use Rattle.be_machine.specs.Touched as part;
ghost use Rattle.be_opening.specs.Opened.{HasMore};
ghost use Rattle.be_port.specs.Ports.{empty_port};
ghost use Rattle.be_rules.specs.Slices.{port};
ghost use Rattle.be_script.specs.Limits.{IsWithinLimits};
ghost use Rattle.be_script.specs.Script.{declared_by};

use be_geom::NoMemory;
use be_parts::{Meaning, Part, PortPart};
use be_script::Script;
use be_told::{Told, choose};
use std::alloc::Global;
use std::marker::Brand;

/// No letter arrived.
pub(crate) fn push_ports(
    alloc: Global,
    script: &Script,
    parts: &mut Vec<Part>,
) -> Result<(), NoMemory>
    requires { IsWithinLimits (declared_by script.now) }
    ensures { OnOk result (HasMore (declared_by script.now)
        (map part.port (range_with_len 0 (length script.now.windows.items)))
        parts.old.items parts.new.items) }
{
    for (w, line) in script.windows.iter().enumerate() {
        let means = told_port(w as u16, line.port);
        parts.push(Part::Port(PortPart::new(alloc, line.port, means)?))?;
    }
    Ok(())
}

/// A window, and how many letters its port holds.
#[derive(Drop)]
struct AskedPort {
    window: u16,
    capacity: u8,
}

/// The empty port of a window.
fn told_port(window: u16, capacity: u8) -> Told<Meaning>
    ensures { result.value ≡ port window (Some (empty_port capacity)) }
{
    choose::<Meaning, AskedPort, Brand>(&AskedPort { window, capacity })
}
