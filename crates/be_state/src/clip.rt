ghost use Rattle.std.specs.Prelude.{◌≡◌, pos, ◌+ℤ◌, ◌-ℤ◌, ◌≤ℤ◌, map};
ghost use Rattle.be_geom.specs.Rects.{moved_rect};
ghost use Rattle.be_region.specs.Regions.{region_has};
ghost use Rattle.be_state.specs.Clips.{shown_clip};
ghost use Rattle.be_geom.specs.Places.{IsNear};

use be_geom::Rect;
use be_region::Region;
use std::marker::Model;

/// The region of a clip as it was given, and how far right and how far down of the view's left top
/// its (0, 0) lies.
#[derive(Clone, Copy, Debug)]
pub struct Placed<'a> {
    pub region: &'a Region,
    pub right: i32,
    pub down: i32,
}

/// A region where it lies in the view. It is kept as it was given, since its pixels may lie where
/// no region reaches.
#[derive(Debug, Drop)]
pub(crate) struct Clip {
    region: Region,
    /// The smallest rectangle round the region as it was given; none where it is empty.
    frame: Option<Rect>,
    /// How far right and how far down the region lies from there.
    place: (i32, i32),
}

impl Model for Clip {
    ghost use Rattle.std.specs.Prelude.{List, map};
    ghost use Rattle.be_geom.specs.declared.rect.Rect.{Rect};
    ghost use Rattle.be_geom.specs.Rects.{moved_rect};
    ghost use Rattle.be_state.specs.Clips.{IsFramed};
    ghost use Rattle.be_geom.specs.Places.{IsNear};

    ghost Value = { List Rect };

    ghost view = { λ c. map (λ r. moved_rect r c.place.0 c.place.1) c.region };

    ghost invariant = { λ c. IsFramed c.region c.frame
        × IsNear 17 c.place.0 × IsNear 17 c.place.1 };
}

impl Clip {
    /// The region as it was given, and where it lies.
    pub(crate) fn placed(&self) -> Placed<'_>
        ensures shown { shown_clip result ≡ self.now }
        ensures near { IsNear 17 result.right × IsNear 17 result.down }
    {
        let (right, down) = self.place;
        Placed {
            region: &self.region,
            right,
            down,
        }
    }

    /// The region, so far right and so far down.
    pub(crate) fn new(region: Region, place: (i32, i32)) -> Clip
        requires across { IsNear 17 place.0 }
        requires down { IsNear 17 place.1 }
        ensures { result ≡ map (λ r. moved_rect r place.0 place.1) region }
    {
        let frame = region.frame();
        Clip {
            region,
            frame,
            place,
        }
    }

    /// Whether the clip holds the pixel.
    pub(crate) fn has(&self, x: i32, y: i32) -> bool
        ensures { result ≡ region_has self.now x y }
    {
        let Some(frame) = self.frame else {
            return false;
        };
        let (dx, dy) = self.place;
        if y < moved(frame.top, dy)
            || moved(frame.bottom, dy) < y
            || x < moved(frame.left, dx)
            || moved(frame.right, dx) < x
        {
            return false;
        }
        self.region.contains(moved_back(x, dx), moved_back(y, dy))
    }
}

/// A coordinate of the region as it was given, where it lies.
fn moved(edge: i16, by: i32) -> i32
    requires { IsNear 17 by }
    ensures moved { result ≡ edge +ℤ by }
    ensures low { (by -ℤ pos 32768) ≤ℤ result }
    ensures high { result ≤ℤ (by +ℤ pos 32767) }
{
    i32::from(edge) + by
}

/// A coordinate where the region lies, as it was given.
fn moved_back(z: i32, by: i32) -> i32
    requires near { IsNear 17 by }
    requires low { (by -ℤ pos 32768) ≤ℤ z }
    requires high { z ≤ℤ (by +ℤ pos 32767) }
    ensures { result ≡ z -ℤ by }
{
    z - by
}
