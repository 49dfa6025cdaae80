ghost use Rattle.std.specs.Prelude.{◌≤ℤ◌, pos};

use crate::grid::{checkerboard, sixteen_squares, square};
use be_color::{Color, Mode, Rgb};
use be_follow::{Across, Down, Follow};
use be_geom::{NoMemory, Point, Rect};
use be_region::Region;
use be_span::SpanBuf;
use be_state::{State, StateStack};
use be_views::ViewTree;
use std::alloc::Global;

/// The left top of the window on a screen of 1,024 by 768.
pub const WINDOW: Point = Point { x: 12, y: 34 };

/// A view that stays where it is.
const LEFT_TOP: Follow = Follow {
    across: Across::Left,
    down: Down::Top,
};

/// What stands around a drawing of a side.
#[derive(Clone, Copy, Debug, PartialEq, Eq)]
pub enum Setting {
    /// A window of 1,000 by 700.
    Alone,
    /// One of 20 by 20.
    Small,
    /// A clip of sixteen rectangles over the drawing.
    Clip,
    /// 31 views over the drawing's upper half, beside the one that draws.
    Views,
    /// An open update of every other square of ten times ten over the drawing.
    Session,
}

/// Where the root view draws.
#[derive(Drop)]
pub struct Place {
    pub tree: ViewTree,
    pub states: StateStack,
    pub session: Option<Region>,
}

impl Place {
    /// The place of a setting, for shapes of this side.
    pub fn new(alloc: Global, setting: Setting, side: i16) -> Result<Place, NoMemory> {
        let (right, bottom) = corner_of(setting);
        let mut tree = ViewTree::new(alloc, right, bottom)?;
        let mut states = first_states(alloc)?;
        let mut session = None;
        match setting {
            Setting::Alone | Setting::Small => {}
            Setting::Clip => states.set_clip(Some(sixteen_squares(alloc, side)?)),
            Setting::Views => add_views(&mut tree, side),
            Setting::Session => session = Some(checkerboard(alloc, side)?),
        }
        Ok(Place {
            tree,
            states,
            session,
        })
    }
}

/// The white pixels of the window.
pub fn window_of(alloc: Global, setting: Setting) -> Result<SpanBuf, NoMemory> {
    let (right, bottom) = corner_of(setting);
    let rect = Rect {
        left: WINDOW.x,
        top: WINDOW.y,
        right: WINDOW.x + right,
        bottom: WINDOW.y + bottom,
    };
    SpanBuf::filled(alloc, Region::from_rect(alloc, rect)?, Rgb::WHITE)
}

/// The window's last column and row.
fn corner_of(setting: Setting) -> (i16, i16)
    ensures across { pos 0 ≤ℤ result.0 }
    ensures narrow { result.0 ≤ℤ pos 999 }
    ensures down { pos 0 ≤ℤ result.1 }
    ensures low { result.1 ≤ℤ pos 999 }
{
    match setting {
        Setting::Small => (19, 19),
        Setting::Alone | Setting::Clip | Setting::Views | Setting::Session => (999, 699),
    }
}

/// Red and blue, the pen at the first glyph's row.
fn first_states(alloc: Global) -> Result<StateStack, NoMemory> {
    let mut states = StateStack::new(alloc)?;
    states.set(State {
        high: Color::Solid(Rgb {
            red: 200,
            green: 40,
            blue: 30,
        }),
        low: Color::Solid(Rgb {
            red: 30,
            green: 40,
            blue: 200,
        }),
        mode: Mode::Copy,
        pen_size: 1,
        pen: Point { x: 0, y: 6 },
        origin: Point { x: 0, y: 0 },
    });
    Ok(states)
}

/// Adds as many views as there may be, eight in a row.
fn add_views(tree: &mut ViewTree, side: i16) {
    let step = (side / 8).max(1);
    for number in 0..31u8 {
        let frame = square(number % 8, number / 8, step, (step / 2).max(1));
        let _added = tree.add(0, frame, LEFT_TOP);
    }
}
