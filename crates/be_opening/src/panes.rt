ghost use Rattle.std.specs.Prelude.{◌≡◌, Some, map, length, slice_get, IfOk, OnOk};
ghost use Rattle.std.specs.List.{range_with_len};
ghost use Rattle.be_machine.specs.State.{opening_state};
ghost use Rattle.be_machine.specs.Touched as part;
ghost use Rattle.be_opening.specs.Opened.{HasMore};
ghost use Rattle.be_parts.specs.Stands.{PaneIs};
ghost use Rattle.be_rules.specs.Slices.{slice_of};
ghost use Rattle.be_script.specs.Limits.{IsWithinLimits};
ghost use Rattle.be_script.specs.Script.{declared_by};
ghost use Rattle.be_views.specs.Trees.{left_top};

use crate::views::{colors_of, tree_of};
use be_geom::{NoMemory, Point, Rect};
use be_pane::Pane;
use be_parts::{Meaning, PanePart, Part};
use be_script::{Script, WindowLine};
use be_told::{Told, choose};
use std::alloc::Global;
use std::marker::Brand;
use std::snapshot::Snapshot;

/// Each window owns no pixel, since it is hidden, and its views draw as every view does at first.
pub(crate) fn push_panes(
    alloc: Global,
    script: &Script,
    parts: &mut Vec<Part>,
) -> Result<(), NoMemory>
    requires { IsWithinLimits (declared_by script.now) }
    ensures { OnOk result (HasMore (declared_by script.now)
        (map part.pane (range_with_len 0 (length script.now.windows.items)))
        parts.old.items parts.new.items) }
{
    for (w, line) in script.windows.iter().enumerate() {
        let pane = pane_of(alloc, script, w as u16, line)?;
        let means = told_pane(script, w as u16);
        parts.push(Part::Pane(PanePart::new(alloc, pane, means)))?;
    }
    Ok(())
}

fn pane_of(alloc: Global, script: &Script, w: u16, line: &WindowLine) -> Result<Pane, NoMemory>
    requires limits { IsWithinLimits (declared_by script.now) }
    requires window { slice_get script.now.windows.items w ≡ Some line.now }
    ensures { IfOk result (PaneIs (slice_of (opening_state (declared_by script.now))
        (part.pane w))) }
{
    let tree = tree_of(alloc, script, w, line)?;
    let colors = colors_of(alloc, script, w, line)?;
    let mut pane = Pane::new(alloc, w, tree, colors)?;
    pane.place = left_top(line.frame);
    Ok(pane)
}

fn left_top(frame: Rect) -> Point
    ensures { result ≡ left_top frame }
{
    Point {
        x: frame.left,
        y: frame.top,
    }
}

/// A script, and a window of it.
#[derive(Drop)]
struct AskedPane {
    script: Snapshot<Script>,
    window: u16,
}

/// What a window shows at first.
fn told_pane(script: &Script, window: u16) -> Told<Meaning>
    ensures { result.value ≡ slice_of (opening_state (declared_by script.now)) (part.pane window) }
{
    let about = AskedPane {
        script: Snapshot::of(script),
        window,
    };
    choose::<Meaning, AskedPane, Brand>(&about)
}
