use crate::point::Point;

/// What may be changed of a window, by the call of The Be Book that it stands for. Coordinates and
/// sizes are in pixels of the screen.
#[derive(Clone, Copy, Debug, PartialEq, Eq)]
pub enum Change {
    /// `BWindow::Show`: one hide less is counted.
    Show,
    /// `BWindow::Hide`: one hide more is counted.
    Hide,
    /// `BWindow::MoveTo`: the left top corner goes to a pixel, and the size stays.
    MoveTo(Point),
    /// `BWindow::MoveBy`: so much further right and so much further down, each -65535 to 65535.
    MoveBy(i32, i32),
    /// `BWindow::ResizeTo`: the right edge less the left one and the bottom edge less the top one,
    /// each 0 to 32767. The left top corner stays.
    ResizeTo(i16, i16),
    /// `BWindow::Activate`: in front of the other windows.
    Activate,
    /// `BWindow::SendBehind`: directly behind the window of this number.
    Behind(u16),
    /// `BView::MakeFocus`: the view of this number has the focus, or none has.
    Focus(Option<u16>),
    /// `BWindow::Quit`: the window is gone for good.
    Close,
}
