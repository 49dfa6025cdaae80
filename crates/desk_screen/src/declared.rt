use be_color::Color;
use be_follow::Follow;
use be_geom::Rect;
use be_stack::WindowFlags;

/// A window as it is made.
#[derive(Clone, Copy, Debug)]
pub struct Declared<'a> {
    /// In screen coordinates.
    pub frame: Rect,
    pub flags: WindowFlags,
    /// The root view's.
    pub color: Color,
    /// The views beside the root, of which the first has number 1.
    pub children: &'a [Child],
}

/// A view as it is made.
#[derive(Clone, Copy, Debug)]
pub struct Child {
    pub parent: u16,
    /// In the parent's coordinates.
    pub frame: Rect,
    pub follow: Follow,
    pub color: Color,
}
