ghost use Rattle.std.specs.Prelude.{◌≡◌};
ghost use Rattle.be_color.specs.Pixel.{picked, selected, blended};

use crate::colors::{Color, Rgb};
use crate::modes::Mode;

/// The colour that a drawing command has at a pixel where its pattern has this bit.
pub fn pick(mode: Mode, bit: bool, high: Color, low: Color) -> Color
    ensures { result ≡ picked mode bit high low }
{
    match (bit, mode) {
        (true, _) => high,
        (false, Mode::Copy) => low,
        (false, _) => Color::Clear,
    }
}

/// The colour of a pixel of colour `dst` once a command has drawn `src` on it. `high` and `low`
/// are those of the view that draws, which only `Mode::Erase` and `Mode::Select` paint.
pub fn blend(mode: Mode, src: Color, dst: Rgb, high: Color, low: Color) -> Rgb
    ensures { result ≡ blended mode src dst high low }
{
    let Color::Solid(src) = src else {
        return dst;
    };
    match mode {
        Mode::Copy | Mode::Over => src,
        Mode::Erase => low.laid_on(dst),
        Mode::Invert => dst.with_each(src, |old, _| 255 - old),
        Mode::Add => dst.with_each(src, u8::saturating_add),
        Mode::Subtract => dst.with_each(src, u8::saturating_sub),
        Mode::Blend => dst.with_each(src, u8::midpoint),
        Mode::Min => dst.with_each(src, u8::min),
        Mode::Max => dst.with_each(src, u8::max),
        Mode::Select => selected(dst, high, low).laid_on(dst),
    }
}

/// What `Mode::Select` paints: low on a pixel that is high, and high on one that is low.
fn selected(dst: Rgb, high: Color, low: Color) -> Color
    ensures { result ≡ selected dst high low }
{
    let old = Color::Solid(dst);
    if old == high {
        low
    } else if old == low {
        high
    } else {
        old
    }
}
