ghost use Rattle.std.specs.Prelude.{◌≡◌, length, true, ◌<◌, ◌≤◌};
ghost use Rattle.be_desk.specs.Changes.{Desk};
ghost use Rattle.desk_screen.specs.Screens.{IsRecolored, IsScreen};

use be_pane::Pane;
use be_span::Cell;

/// Gives a pixel of a window another cell. False, and no change, where it isn't the window's.
pub(crate) fn set_in(panes: &mut [Pane], w: u16, x: i32, y: i32, cell: Cell) -> bool
    ensures { (desk : Desk) → IsScreen desk panes.old → IsScreen desk panes.new }
{
    let place = usize::from(w);
    if place >= panes.len() {
        return false;
    }
    set(&mut panes[place], x, y, cell)
}

fn set(pane: &mut Pane, x: i32, y: i32, cell: Cell) -> bool
    ensures { IsRecolored pane.old pane.new }
{
    pane.spans.set(x, y, cell)
}

/// Takes the marks of all pixels away.
pub(crate) fn clear_all(panes: &mut [Pane])
    ensures { (desk : Desk) → IsScreen desk panes.old → IsScreen desk panes.new }
{
    for place in 0..panes.len() {
        clear(&mut panes[place]);
    }
}

fn clear(pane: &mut Pane)
    ensures { IsRecolored pane.old pane.new }
{
    pane.spans.clear_marks();
}
