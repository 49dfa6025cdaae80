ghost use Rattle.std.specs.Prelude.{◌<◌};
ghost use Rattle.be_shown.specs.Stretches.{IsStretch};

use crate::looks::none_from;
use be_parts::Part;

/// What a row of the screen has from a pixel on.
#[derive(Clone, Copy)]
pub(crate) enum Stretch<'a> {
    /// The part that has the pixel.
    Owned(&'a Part),
    /// So many pixels that no part has.
    Desktop(u32),
}

/// What row `y` has from column `x` on.
pub(crate) fn stretch_from(parts: &[Part], width: u16, x: u16, y: u16) -> Stretch<'_>
    requires { x < width }
    ensures { IsStretch parts.now width x y result }
{
    let mut count = u32::from(width - x);
    for part in parts {
        let none = none_from(part, x, y);
        if none == 0 {
            return Stretch::Owned(part);
        }
        count = count.min(none);
    }
    Stretch::Desktop(count)
}
