ghost use Rattle.std.specs.Prelude.{◌≡◌, ◌-ℤ◌, ◌≤ℤ◌, pos, true, IfOk};
ghost use Rattle.be_script.specs.Limits.{is_frame};
ghost use Rattle.be_script.specs.Script.{declared_by};
ghost use Rattle.be_script.specs.Windows.{colors_of, tree_of};

use be_color::Color;
use be_geom::{NoMemory, Rect};
use be_script::{Script, WindowLine};
use be_views::ViewTree;
use std::alloc::Global;

/// The views of a window: the root, and those that the script declares in it.
pub(crate) fn tree_of(
    alloc: Global,
    script: &Script,
    w: u16,
    line: &WindowLine,
) -> Result<ViewTree, NoMemory>
    requires { is_frame line.now.frame ≡ true }
    ensures { IfOk result (λ tree. tree ≡ tree_of (declared_by script.now) w line.now) }
{
    let (width, height) = size_of(line.frame);
    let mut tree = ViewTree::new(alloc, width, height)?;
    for view in &script.views {
        if view.window == w {
            let Ok(_) = tree.add(view.parent, view.frame, view.mode) else {
                return Err(NoMemory);
            };
        }
    }
    Ok(tree)
}

/// For each view of a window its colour.
pub(crate) fn colors_of(
    alloc: Global,
    script: &Script,
    w: u16,
    line: &WindowLine,
) -> Result<Vec<Color>, NoMemory>
    ensures { IfOk result (λ colors. colors.items ≡ colors_of (declared_by script.now) w line.now) }
{
    let mut colors = Vec::new(alloc);
    colors.push(line.color)?;
    for view in &script.views {
        if view.window == w {
            colors.push(view.color)?;
        }
    }
    Ok(colors)
}

/// How far a frame's last edges are from its first.
fn size_of(frame: Rect) -> (i16, i16)
    requires { is_frame frame ≡ true }
    ensures width { result.0 ≡ frame.right -ℤ frame.left }
    ensures height { result.1 ≡ frame.bottom -ℤ frame.top }
    ensures across { pos 0 ≤ℤ result.0 }
    ensures down { pos 0 ≤ℤ result.1 }
{
    (
        length_of(frame.left, frame.right),
        length_of(frame.top, frame.bottom),
    )
}

fn length_of(first: i16, last: i16) -> i16
    requires low { pos 0 ≤ℤ (last -ℤ first) }
    requires high { (last -ℤ first) ≤ℤ pos 32767 }
    ensures { result ≡ last -ℤ first }
{
    (i32::from(last) - i32::from(first)) as i16
}
