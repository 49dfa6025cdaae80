ghost use Rattle.std.specs.Prelude.{◌≡◌, ◌-ℤ◌, ◌≤ℤ◌, pos, true, IfOk};
ghost use Rattle.be_script.specs.Limits.{IsWithinLimits, is_frame};
ghost use Rattle.be_script.specs.Script.{declared_by};
ghost use Rattle.be_script.specs.Windows.{tree_of};
ghost use Rattle.be_trees.specs.ArchiveLine.{opening_tree};

use be_geom::{NoMemory, Rect};
use be_script::{Script, WindowLine};
use be_views::ViewTree;
use std::alloc::Global;

/// The views of a window as the script declares them. None where there is no such window.
pub(crate) fn opening_tree(
    alloc: Global,
    script: &Script,
    window: u16,
) -> Result<Option<ViewTree>, NoMemory>
    requires { IsWithinLimits (declared_by script.now) }
    ensures { IfOk result (λ tree. tree ≡ opening_tree (declared_by script.now) window) }
{
    match script.windows.get(usize::from(window)) {
        Some(line) => Ok(Some(tree_of(alloc, script, window, line)?)),
        None => Ok(None),
    }
}

/// The root, and the views that the script declares in the window.
fn tree_of(
    alloc: Global,
    script: &Script,
    window: u16,
    line: &WindowLine,
) -> Result<ViewTree, NoMemory>
    requires { is_frame line.now.frame ≡ true }
    ensures { IfOk result (λ tree. tree ≡ tree_of (declared_by script.now) window line.now) }
{
    let (width, height) = size_of(line.frame);
    let mut tree = ViewTree::new(alloc, width, height)?;
    for view in &script.views {
        if view.window == window {
            let Ok(_) = tree.add(view.parent, view.frame, view.mode) else {
                return Err(NoMemory);
            };
        }
    }
    Ok(tree)
}

/// How far a frame's last edges are from its first.
fn size_of(frame: Rect) -> (i16, i16)
    requires { is_frame frame ≡ true }
    ensures width { result.0 ≡ frame.right -ℤ frame.left }
    ensures height { result.1 ≡ frame.bottom -ℤ frame.top }
    ensures across { pos 0 ≤ℤ result.0 }
    ensures down { pos 0 ≤ℤ result.1 }
{
    (
        length_of(frame.left, frame.right),
        length_of(frame.top, frame.bottom),
    )
}

fn length_of(first: i16, last: i16) -> i16
    requires low { pos 0 ≤ℤ (last -ℤ first) }
    requires high { (last -ℤ first) ≤ℤ pos 32767 }
    ensures { result ≡ last -ℤ first }
{
    (i32::from(last) - i32::from(first)) as i16
}
