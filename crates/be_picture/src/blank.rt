ghost use Rattle.std.specs.Prelude.{◌≡◌, ◌≤ℤ◌, ℤ, pos, false, [], ◌∷◌, IfOk, None, Some};
ghost use Rattle.std.specs.Prelude.{if◌then◌else◌};
ghost use Rattle.be_color.specs.declared.colors.Color.TheVariants.{Solid};
ghost use Rattle.be_pane.specs.Panes.{first_pane};
ghost use Rattle.be_pane.specs.StandsFor.{IsWhole, PaneStandsFor};
ghost use Rattle.be_region.specs.Regions.{HasPixelsOf, region_has};
ghost use Rattle.be_span.specs.Spans.{black_cell, cell_in, clean_cell};
ghost use Rattle.be_state.specs.Stacks.{origin_point};
ghost use Rattle.be_views.specs.Whole.{root_view};
ghost use Rattle.be_picture.specs.OffScreens.{IsSized, Shows};
ghost use Rattle.be_picture.specs.Playing.{blank, white};

use be_color::{Color, Rgb};
use be_geom::{NoMemory, Rect};
use be_pane::Pane;
use be_region::Region;
use be_span::SpanBuf;
use be_views::ViewTree;
use std::alloc::Global;

/// The pane of a window of this size whose pixels are white. It owns all of them.
pub(crate) fn blank_pane(alloc: Global, width: u16, height: u16) -> Result<Pane, NoMemory>
    requires { IsSized width height }
    ensures whole { IfOk result IsWhole }
    ensures shows { IfOk result (λ pane. Shows pane (blank width height)) }
{
    let right = (width - 1) as i16;
    let bottom = (height - 1) as i16;
    let mut pane = pane_of(alloc, right, bottom)?;
    pane.spans = white_pixels(
        alloc,
        Rect {
            left: 0,
            top: 0,
            right,
            bottom,
        },
    )?;
    Ok(pane)
}

/// The pane of a window of a white view with these last edges. It owns no pixel.
fn pane_of(alloc: Global, right: i16, bottom: i16) -> Result<Pane, NoMemory>
    requires across { pos 0 ≤ℤ right }
    requires down { pos 0 ≤ℤ bottom }
    ensures whole { IfOk result IsWhole }
    ensures stands { IfOk result (λ pane. PaneStandsFor pane 0 origin_point
        (first_pane (Solid white ∷ [])) (root_view right bottom ∷ []) (λ x y. false)
        (λ x y. black_cell)) }
{
    let mut colors = Vec::new(alloc);
    colors.push(Color::Solid(Rgb::WHITE))?;
    Pane::new(alloc, 0, ViewTree::new(alloc, right, bottom)?, colors)
}

/// White pixels, those of a rectangle.
fn white_pixels(alloc: Global, rect: Rect) -> Result<SpanBuf, NoMemory>
    ensures pixels { IfOk result (λ spans. HasPixelsOf spans.rects rect) }
    ensures cells { IfOk result (λ spans. (x y : ℤ) → cell_in spans x y
        ≡ (if region_has spans.rects x y then Some (clean_cell white) else None)) }
{
    SpanBuf::filled(alloc, Region::from_rect(alloc, rect)?, Rgb::WHITE)
}
