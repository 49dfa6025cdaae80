ghost use Rattle.std.specs.Prelude.{◌≡◌, ℤ, ◌&&◌, false, IfNone, IfSome};
ghost use Rattle.be_geom.specs.Places.{IsNear};
ghost use Rattle.be_geom.specs.Rects.{rect_has};
ghost use Rattle.be_descent.specs.Inks.{shape_has, AreRowsIn};

use crate::way::Way;
use be_geom::Rect;
use be_shape::Raster;

/// The rows of an area that a shape has, which lies that way. None where the area has none of its
/// pixels.
pub(crate) fn rows_in(area: Rect, raster: &Raster, way: Way) -> Option<Rect>
    requires near { IsNear 64 way.right × IsNear 64 way.down }
    ensures none { IfNone result ((x y : ℤ)
        → (rect_has area x y && shape_has raster.now way x y) ≡ false) }
    ensures some { IfSome result (AreRowsIn raster.now way area) }
{
    let (first, last) = raster.rows()?;
    let top = i32::from(area.top).max(first + way.down);
    let bottom = i32::from(area.bottom).min(last + way.down);
    if bottom < top {
        return None;
    }
    Some(Rect {
        top: top as i16,
        bottom: bottom as i16,
        ..area
    })
}
