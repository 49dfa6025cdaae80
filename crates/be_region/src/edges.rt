ghost use Rattle.std.specs.Prelude.{◌≡◌, ◌↔◌, [], ◌∷◌, map, All, IsNone, IfSome};
ghost use Rattle.std.specs.List.{list_all, AllPass};
ghost use Rattle.be_geom.specs.Rects.{rect_fits, moved_rect};
ghost use Rattle.be_region.specs.Regions.{IsNotEmpty};
ghost use Rattle.be_region.specs.Frames.{IsFrame, outer_rect};

use be_geom::Rect;

/// Whether each rectangle, moved, stays in the range of coordinates.
pub(crate) fn are_movable(rects: &[Rect], dx: i32, dy: i32) -> bool
    ensures { result ≡ list_all (λ r. rect_fits (moved_rect r dx dy)) rects.now }
{
    rects.iter().all(|rect| rect.offset(dx, dy).is_ok())
}

pub(crate) fn move_all(rects: &mut [Rect], dx: i32, dy: i32)
    requires { AllPass (λ r. rect_fits (moved_rect r dx dy)) rects.old }
    ensures { rects.new ≡ map (λ r. moved_rect r dx dy) rects.old }
{
    for rect in rects.iter_mut() {
        *rect = rect.offset(dx, dy).unwrap();
    }
}

/// The smallest rectangle round rectangles of which none is empty.
pub(crate) fn frame_of(rects: &[Rect]) -> Option<Rect>
    requires { All IsNotEmpty rects.now }
    ensures none { IsNone result ↔ (rects.now ≡ []) }
    ensures some { IfSome result (λ frame. IsFrame frame rects.now) }
{
    let (first, others) = rects.split_first()?;
    Some(frame_round(*first, others))
}

fn frame_round(first: Rect, others: &[Rect]) -> Rect
    requires first { IsNotEmpty first }
    requires others { All IsNotEmpty others.now }
    ensures { IsFrame result (first ∷ others.now) }
{
    let mut frame = first;
    for rect in others {
        frame = around(frame, *rect);
    }
    frame
}

fn around(a: Rect, b: Rect) -> Rect
    ensures { result ≡ outer_rect a b }
{
    Rect {
        left: a.left.min(b.left),
        top: a.top.min(b.top),
        right: a.right.max(b.right),
        bottom: a.bottom.max(b.bottom),
    }
}
