ghost use Rattle.std.specs.Prelude.{◌≡◌};

use crate::flags::WindowFlags;
use crate::frame::has_pixel;
use be_geom::Rect;
use bitflags::Flags;

/// A window as its stack keeps it: what `BWindow::Frame`, `IsHidden` and `Flags` tell.
#[derive(Clone, Copy, Debug, PartialEq, Eq)]
pub struct Window {
    /// In screen coordinates.
    pub frame: Rect,
    /// How many calls of `Show` it still takes until the window is shown.
    pub hides: u32,
    /// The flags that it was made with.
    pub flags: WindowFlags,
    /// Whether it is gone for good.
    pub closed: bool,
}

impl Window {
    ghost use Rattle.be_stack.specs.Windows.{is_shown_window};
    ghost use Rattle.be_stack.specs.Owner.{covers_pixel};
    ghost use Rattle.be_stack.specs.Changes.{takes_focus};

    /// Whether the window is neither closed nor hidden.
    pub(crate) fn is_shown(self) -> bool
        ensures { result ≡ is_shown_window self }
    {
        !self.closed && self.hides == 0
    }

    /// Whether the window is shown and its frame holds the pixel.
    pub(crate) fn covers_pixel(self, x: i32, y: i32) -> bool
        ensures { result ≡ covers_pixel x y self }
    {
        self.is_shown() && has_pixel(self.frame, x, y)
    }

    pub(crate) fn with_hides(self, hides: u32) -> Window
        ensures { result ≡ record self { hides = hides } }
    {
        Window { hides, ..self }
    }

    pub(crate) fn with_frame(self, frame: Rect) -> Window
        ensures { result ≡ record self { frame = frame } }
    {
        Window { frame, ..self }
    }

    /// Whether the window becomes the active one where it is activated.
    pub(crate) fn takes_focus(self) -> bool
        ensures { result ≡ takes_focus self }
    {
        self.is_shown() && !self.flags.contains(WindowFlags::AVOID_FOCUS)
    }
}
