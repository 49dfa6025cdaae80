ghost use Rattle.std.specs.Prelude.{◌≡◌, true, negsuc, pos};
ghost use Rattle.be_geom.specs.Points.{between};
ghost use Rattle.be_stack.specs.Limits.{is_named_there, is_within_limits};
ghost use Rattle.be_stack.specs.Windows.{is_size};
ghost use Rattle.desk_screen.specs.Screens.{IsAskable};

use be_geom::Change;
use be_stack::Stack;

/// Whether a change may be asked of a screen's window.
pub(crate) fn is_askable(stack: &Stack, w: u16, change: Change) -> bool
    ensures { result ≡ true → IsAskable stack.now w change }
{
    usize::from(w) < stack.len() && is_named_there(stack, change) && is_within_limits(change)
}

/// Whether the window that one is to go behind is there, open or closed.
fn is_named_there(stack: &Stack, change: Change) -> bool
    ensures { result ≡ is_named_there stack.now change }
{
    match change {
        Change::Behind(front) => usize::from(front) < stack.len(),
        Change::Show
        | Change::Hide
        | Change::MoveTo(_)
        | Change::MoveBy(_, _)
        | Change::ResizeTo(_, _)
        | Change::Activate
        | Change::Focus(_)
        | Change::Close => true,
    }
}

/// Whether a change's numbers are within their limits.
fn is_within_limits(change: Change) -> bool
    ensures { result ≡ is_within_limits change }
{
    match change {
        Change::MoveBy(dx, dy) => is_way(dx) && is_way(dy),
        Change::ResizeTo(width, height) => is_size(width) && is_size(height),
        Change::Show
        | Change::Hide
        | Change::MoveTo(_)
        | Change::Activate
        | Change::Behind(_)
        | Change::Focus(_)
        | Change::Close => true,
    }
}

fn is_way(way: i32) -> bool
    ensures { result ≡ between (negsuc 65534) way (pos 65535) }
{
    -65535 <= way && way <= 65535
}

fn is_size(size: i16) -> bool
    ensures { result ≡ is_size size }
{
    0 <= size
}
