//! The colour of one pixel, with all parts in hand.
ghost use Rattle.std.specs.Prelude.{◌≡◌, ◌<◌, pos, length, option_map};
ghost use Rattle.be_check.specs.Stepping.{HasAll};
ghost use Rattle.be_desk.specs.Desks.{desk_of};
ghost use Rattle.be_machine.specs.Pixels.{color_at};
ghost use Rattle.be_machine.specs.Touched as part;
ghost use Rattle.be_check.specs.Following.{state_in};
ghost use Rattle.be_parts.specs.Stands.{PaneIs};
ghost use Rattle.be_rules.specs.Slices.{slice_of};
ghost use Rattle.be_script.specs.Script.{declared_by};
ghost use Rattle.be_span.specs.Spans.{cell_in};
ghost use Rattle.be_stack.specs.Owner.{owner_at};

use be_asking::{find_desk, find_pane};
use be_color::Rgb;
use be_desk::Desk;
use be_hall::Held;
use be_pane::Pane;
use be_parts::Part;
use be_script::Script;

/// The colour of a pixel of the screen. None off the screen.
pub(crate) fn color_of(script: &Script, held: &Held<Part>, x: u16, y: u16) -> Option<Rgb>
    requires { HasAll (declared_by script.now) held.now.parts }
    ensures { result ≡ color_at (state_in (declared_by script.now) held.now.parts)
        (pos x) (pos y) }
{
    let (width, height) = script.screen;
    if x >= width || y >= height {
        return None;
    }
    match owner_at(desk_in(script, held), x, y) {
        Some(w) => color_in(pane_in(script, held, w), x, y),
        None => Some(Rgb::DESKTOP),
    }
}

/// What is known of all windows.
fn desk_in<'a>(script: &Script, held: &'a Held<Part>) -> &'a Desk
    requires { HasAll (declared_by script.now) held.now.parts }
    ensures { desk_of result.now ≡ (state_in (declared_by script.now) held.now.parts).desk }
{
    let Ok(part) = find_desk(script, held) else {
        unreachable!()
    };
    part.desk()
}

/// What is kept of a window, and its pixels.
fn pane_in<'a>(script: &Script, held: &'a Held<Part>, w: u16) -> &'a Pane
    requires all { HasAll (declared_by script.now) held.now.parts }
    requires there { w < length (declared_by script.now).windows }
    ensures { PaneIs (slice_of (state_in (declared_by script.now) held.now.parts) (part.pane w))
        result.now }
{
    let Ok(part) = find_pane(script, held, w) else {
        unreachable!()
    };
    part.pane()
}

/// The window that owns a pixel of the screen.
fn owner_at(desk: &Desk, x: u16, y: u16) -> Option<u16>
    ensures { result ≡ owner_at desk.now.stack (pos x) (pos y) }
{
    desk.stack.owner_at(i32::from(x), i32::from(y))
}

/// The colour of a pixel that a pane has.
fn color_in(pane: &Pane, x: u16, y: u16) -> Option<Rgb>
    ensures { result ≡ option_map (λ cell. cell.rgb) (cell_in pane.now.spans (pos x) (pos y)) }
{
    let cell = pane.spans.get(i32::from(x), i32::from(y))?;
    Some(cell.rgb)
}
