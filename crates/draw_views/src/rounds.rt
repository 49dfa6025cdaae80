ghost use Rattle.std.specs.Prelude.{◌≡◌};

use crate::place::{Place, Setting, WINDOW, window_of};
use crate::subject::{Kind, Subject, TILE, subject_of};
use be_bitmap::Bitmap;
use be_color::{Color, Rgb};
use be_geom::{NoMemory, Point, Rect};
use be_paint::{Ink, Reach, copy_bits, invalidate, paint};
use be_span::{Cell, SpanBuf};
use be_state::StateStack;
use cell_sums::sum_of_spans;
use std::alloc::Global;

/// How the root looks where nothing is drawn.
const ROOT: Color = Color::Solid(Rgb::DESKTOP);

/// What drawing left of a white window.
pub struct Outcome {
    /// How many cells aren't white, or wait to be drawn.
    pub changed: usize,
    /// The sum over all cells.
    pub sum: u64,
}

/// Draws so many rounds, one at least, on a white window.
pub fn drawn(
    alloc: Global,
    kind: Kind,
    side: i16,
    setting: Setting,
    rounds: u32,
) -> Result<Outcome, NoMemory> {
    let mut spans = window_of(alloc, setting)?;
    let mut place = Place::new(alloc, setting, side)?;
    if let Some(subject) = subject_of(alloc, kind, side)? {
        draw_rounds(&mut spans, &mut place, &subject, side, rounds.max(1));
    }
    Ok(Outcome {
        changed: cells_drawn(&spans),
        sum: sum_of_spans(&spans),
    })
}

/// How each view looks where nothing is drawn, the root first.
fn view_colors() -> [Color; 32] {
    let mut colors = [ROOT; 32];
    let mut red = 0u8;
    for color in colors.iter_mut().skip(1) {
        red = red.wrapping_add(8);
        *color = Color::Solid(Rgb {
            red,
            green: 100,
            blue: 50,
        });
    }
    colors
}

fn draw_rounds(spans: &mut SpanBuf, place: &mut Place, subject: &Subject, side: i16, rounds: u32) {
    match subject {
        Subject::Shape(raster, pattern) => {
            let ink = Ink::Shape(*raster, *pattern);
            for _round in 0..rounds {
                draw(spans, place, &ink);
            }
        }
        Subject::Letters(codes) => {
            let ink = Ink::Text(codes);
            for _round in 0..rounds {
                text_round(spans, place, &ink, side);
            }
        }
        Subject::Picture(bitmap) => {
            for _round in 0..rounds {
                picture_round(spans, place, bitmap, side);
            }
        }
        Subject::Moving(bitmap, square) => {
            picture_round(spans, place, bitmap, side);
            for _round in 0..rounds {
                scroll_round(spans, place, *square);
            }
        }
        Subject::Waiting(square) => {
            let colors = view_colors();
            for _round in 0..rounds {
                waiting_round(spans, place, *square, &colors);
            }
        }
    }
}

/// Draws the lines of text, one below the other.
fn text_round(spans: &mut SpanBuf, place: &mut Place, ink: &Ink<'_>, side: i16) {
    for line in 0..side / 8 {
        let y = line.saturating_mul(8).saturating_add(6);
        move_pen(&mut place.states, Point { x: 0, y });
        draw(spans, place, ink);
    }
}

/// Moves the pen, unless it is there.
fn move_pen(states: &mut StateStack, pen: Point) {
    if states.top().pen != pen {
        let mut state = *states.top();
        state.pen = pen;
        states.set(state);
    }
}

/// Draws the picture as often as the square has room for it.
fn picture_round(spans: &mut SpanBuf, place: &Place, bitmap: &Bitmap, side: i16) {
    let across = (side / TILE).clamp(1, 4) as u8;
    for row in 0..across {
        for column in 0..across {
            let corner = Point {
                x: i16::from(column).saturating_mul(TILE),
                y: i16::from(row).saturating_mul(TILE),
            };
            let ink = Ink::Image(bitmap, corner);
            draw(spans, place, &ink);
        }
    }
}

/// Copies all rows of a square but the first a row up, and then all but the last a row down.
fn scroll_round(spans: &mut SpanBuf, place: &Place, square: Rect) {
    let below = Rect {
        top: square.top.saturating_add(1),
        ..square
    };
    let above = Rect {
        bottom: square.bottom.saturating_sub(1),
        ..square
    };
    copy(spans, place, below, square.top);
    copy(spans, place, above, square.top.saturating_add(1));
}

/// Copies a rectangle up or down, to where its first row comes to this one.
fn copy(spans: &mut SpanBuf, place: &Place, from: Rect, top: i16) {
    if 0 < place.tree.len() {
        let to = Point {
            x: from.left,
            y: top,
        };
        copy_bits(spans, &reach_of(place), from, to, ROOT);
    }
}

fn waiting_round(spans: &mut SpanBuf, place: &Place, square: Rect, colors: &[Color]) {
    if 0 < place.tree.len() {
        invalidate(spans, &reach_of(place), square, colors);
    }
}

fn draw(spans: &mut SpanBuf, place: &Place, ink: &Ink<'_>) {
    if 0 < place.tree.len() {
        paint(spans, &reach_of(place), ink);
    }
}

/// Where the root view draws.
fn reach_of(place: &Place) -> Reach<'_>
    ensures tree { result.tree.now ≡ place.now.tree }
    ensures root { result.view ≡ 0 }
{
    Reach {
        window: WINDOW,
        tree: &place.tree,
        view: 0,
        states: &place.states,
        session: place.session.as_ref(),
    }
}

/// How many cells aren't white, or wait to be drawn.
fn cells_drawn(spans: &SpanBuf) -> usize {
    let mut count = 0usize;
    for y in 0..768 {
        let row = spans.row_from(i32::from(WINDOW.x), y);
        count = count.saturating_add(row.iter().filter(|cell| is_drawn(cell)).count());
    }
    count
}

fn is_drawn(cell: &Cell) -> bool {
    cell.dirty || cell.rgb != Rgb::WHITE
}
