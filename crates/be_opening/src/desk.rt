ghost use Rattle.std.specs.Prelude.{◌≡◌, IfOk};
ghost use Rattle.be_desk.specs.Desks.{desk_of};
ghost use Rattle.be_machine.specs.State.{flags_of, opening_desk};
ghost use Rattle.be_script.specs.Limits.{IsWithinLimits};
ghost use Rattle.be_script.specs.Script.{declared_by};

use crate::views::tree_of;
use be_desk::Desk;
use be_geom::NoMemory;
use be_input::Pointing;
use be_script::{Script, WindowLine};
use be_stack::{Stack, WindowFlags};
use be_views::ViewTree;
use bitflags::Flags;
use std::alloc::Global;

/// Every window is hidden once, and one that is declared later is in front.
pub(crate) fn desk_of(alloc: Global, script: &Script) -> Result<Desk, NoMemory>
    requires { IsWithinLimits (declared_by script.now) }
    ensures { IfOk result (λ desk. desk_of desk ≡ opening_desk (declared_by script.now)) }
{
    Ok(Desk {
        stack: stack_of(alloc, script)?,
        pointing: Pointing::new(alloc, trees_of(alloc, script)?)?,
    })
}

fn stack_of(alloc: Global, script: &Script) -> Result<Stack, NoMemory>
    ensures { IfOk result (λ stack. stack ≡ (opening_desk (declared_by script.now)).windows) }
{
    let (width, height) = script.screen;
    let mut stack = Stack::new(alloc, width, height);
    for line in &script.windows {
        let Ok(_) = stack.add(line.frame, flags_of(line)) else {
            return Err(NoMemory);
        };
    }
    Ok(stack)
}

fn flags_of(line: &WindowLine) -> WindowFlags
    ensures { result ≡ flags_of line.now }
{
    let mut flags = WindowFlags::empty();
    flags.set(WindowFlags::FIRST_CLICK, line.first_click);
    flags.set(WindowFlags::AVOID_FOCUS, line.avoid_focus);
    flags
}

/// The views of each window.
fn trees_of(alloc: Global, script: &Script) -> Result<Vec<ViewTree>, NoMemory>
    requires { IsWithinLimits (declared_by script.now) }
    ensures { IfOk result (λ trees. trees.items
        ≡ (opening_desk (declared_by script.now)).pointing.trees) }
{
    let mut trees = Vec::with_capacity(alloc, script.windows.len())?;
    for (w, line) in script.windows.iter().enumerate() {
        trees.push(tree_of(alloc, script, w as u16, line)?)?;
    }
    Ok(trees)
}
