use be_color::{Color, Rgb};
use be_geom::{NoMemory, Rect};
use be_pane::Pane;
use be_region::Region;
use be_span::SpanBuf;
use be_views::ViewTree;
use std::alloc::Global;

/// How many pixels are side by side, and one below the other.
pub const SIDE: u16 = 256;

const FRAME: Rect = Rect {
    left: 0,
    top: 0,
    right: 255,
    bottom: 255,
};

/// A window at (0, 0) with the root view alone, whose pixels are white.
pub fn window(alloc: Global) -> Result<Pane, NoMemory> {
    let mut colors = Vec::new(alloc);
    colors.push(Color::Solid(Rgb::WHITE))?;
    let tree = ViewTree::new(alloc, FRAME.right, FRAME.bottom)?;
    let mut pane = Pane::new(alloc, 0, tree, colors)?;
    pane.spans = SpanBuf::filled(alloc, Region::from_rect(alloc, FRAME)?, Rgb::WHITE)?;
    Ok(pane)
}
