use be_follow::Follow;
use be_geom::Rect;
use std::marker::Model;

/// A view as its tree keeps it: what `BView::Frame`, `Parent` and `ResizingMode` tell.
#[derive(Clone, Copy, Debug)]
pub(crate) struct View {
    /// The view in which it lies. None for the root.
    pub(crate) parent: Option<u16>,
    /// In the parent's coordinates; the root's begins at (0, 0).
    pub(crate) frame: Rect,
    /// How the frame goes with the parent's size.
    pub(crate) mode: Follow,
}

impl Model for View {
    ghost use Rattle.be_views.specs.Trees as trees;

    ghost Value = { trees.View };

    ghost view = { λ v. record { parent = v.parent; frame = v.frame; mode = v.mode } };

    ghost inverse = { λ v. record { parent = v.parent; frame = v.frame; mode = v.mode } };
}
