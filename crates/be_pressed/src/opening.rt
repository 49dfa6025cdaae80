//! The buttons of a script's windows before any letter.
ghost use Rattle.std.specs.Prelude.{◌≡◌, ◌-ℤ◌, [], IfOk};
ghost use Rattle.be_input.specs.Deliveries.{saturated};
ghost use Rattle.be_pressed.specs.ButtonText.{bounds_of};
ghost use Rattle.be_pressed.specs.Hearing.{AreWindows, IsWindow, at_rest};
ghost use Rattle.be_script.specs.Script.{declared_by};

use crate::hearing::Buttons;
use be_control::Button;
use be_geom::{NoMemory, Rect};
use be_script::{Script, WindowLine};
use std::alloc::Global;

/// The buttons of all windows.
pub(crate) fn opened(alloc: Global, script: &Script) -> Result<Vec<Buttons>, NoMemory>
    ensures { IfOk result (λ windows. AreWindows (declared_by script.now) [] windows.items) }
{
    let mut windows = Vec::new(alloc);
    for (w, line) in script.windows.iter().enumerate() {
        windows.push(opened_in(alloc, script, w, line)?)?;
    }
    Ok(windows)
}

/// The buttons of one window.
fn opened_in(
    alloc: Global,
    script: &Script,
    w: usize,
    line: &WindowLine,
) -> Result<Buttons, NoMemory>
    ensures { IfOk result (λ buttons. IsWindow (declared_by script.now) w line.now [] buttons) }
{
    let mut buttons = Buttons::new(alloc);
    buttons.add(at_rest(line.frame))?;
    for view in &script.views {
        if usize::from(view.window) == w {
            buttons.add(at_rest(view.frame))?;
        }
    }
    Ok(buttons)
}

/// The button of a view that has this frame.
fn at_rest(frame: Rect) -> Button
    ensures { result ≡ at_rest (bounds_of frame) }
{
    Button::new(bounds_of(frame))
}

/// The frame moved to (0, 0). Its last edges stop at the range's end.
fn bounds_of(frame: Rect) -> Rect
    ensures { result ≡ bounds_of frame }
{
    Rect {
        left: 0,
        top: 0,
        right: length_of(frame.left, frame.right),
        bottom: length_of(frame.top, frame.bottom),
    }
}

fn length_of(first: i16, last: i16) -> i16
    ensures { result ≡ saturated (last -ℤ first) }
{
    distance(first, last).clamp(-32_768, 32_767) as i16
}

fn distance(first: i16, last: i16) -> i32
    ensures { result ≡ last -ℤ first }
{
    i32::from(last) - i32::from(first)
}
