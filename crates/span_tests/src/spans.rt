ghost use Rattle.std.specs.Prelude.{◌≡◌, ◌<◌, ◌≤ℤ◌, true, IfSome, length};
ghost use Rattle.be_span.specs.Runs.{IsSpanOf};

use be_color::{Color, Mode, Pattern, Rgb};
use be_descent::{Coat, Letters, Way};
use be_geom::{NoMemory, Point, Rect};
use be_region::Region;
use be_span::{Brush, Cell, Fill, Paint, Span, SpanBuf};
use std::alloc::Global;
use std::process::Abort;
use std::test::Fail;

const HIGH: Rgb = Rgb {
    red: 1,
    green: 2,
    blue: 3,
};

const LOW: Rgb = Rgb {
    red: 4,
    green: 5,
    blue: 6,
};

const RED: Rgb = Rgb {
    red: 255,
    green: 0,
    blue: 0,
};

const BLUE: Rgb = Rgb {
    red: 0,
    green: 0,
    blue: 255,
};

fn rect(left: i16, top: i16, right: i16, bottom: i16) -> Rect {
    Rect {
        left,
        top,
        right,
        bottom,
    }
}

fn brush_of(mode: Mode) -> Brush {
    Brush {
        mode,
        high: Color::Solid(HIGH),
        low: Color::Solid(LOW),
    }
}

/// Black pixels in three rows, the columns 0 to 5 and the columns 8 and 9. One is dirty, (2, 1).
fn two_rects(alloc: Global) -> Result<SpanBuf, NoMemory> {
    let mut region = Region::from_rect(alloc, rect(0, 0, 5, 2))?;
    region.include(&Region::from_rect(alloc, rect(8, 0, 9, 2))?)?;
    let mut spans = SpanBuf::prepare(alloc, region)?;
    let rgb = Rgb::BLACK;
    let _ = spans.set(2, 1, Cell { rgb, dirty: true });
    Ok(spans)
}

/// The colour that a picture has for a letter. None where there is no pixel.
fn color_of(letter: u8) -> Option<Rgb> {
    match letter {
        b'.' => Some(Rgb::BLACK),
        b'h' => Some(HIGH),
        b'l' => Some(LOW),
        b'r' => Some(RED),
        b'b' => Some(BLUE),
        _ => None,
    }
}

/// Compares all cells with a picture, whose rows end at slashes. Only (2, 1) is dirty.
fn check(rt: &impl Abort, spans: &SpanBuf, picture: &str) {
    let mut x = 0i32;
    let mut y = 0i32;
    for letter in picture.as_bytes() {
        if *letter == b'/' {
            x = 0;
            y = y.wrapping_add(1);
        } else {
            let due = match color_of(*letter) {
                Some(rgb) => Some(Cell {
                    rgb,
                    dirty: x == 2 && y == 1,
                }),
                None => None,
            };
            same!(rt; spans.get(x, y), due, (picture, x, y));
            x = x.wrapping_add(1);
        }
    }
    same!(rt; spans.dirty_count(), 1, picture);
}

/// The rectangle of the span at a place.
fn rect_at(spans: &SpanBuf, place: usize) -> Option<Rect> {
    if place < spans.region().count() {
        Some(spans.span(place).rect())
    } else {
        None
    }
}

#[test]
fn spans_of_pixels(rt: HostRuntime) -> Result<(), Fail> {
    let spans = two_rects(rt.alloc())?;
    check(
        &rt,
        &spans,
        "......--..-/......--..-/......--..-/-----------",
    );
    same!(rt; rect_at(&spans, 0), Some(rect(0, 0, 5, 2)));
    same!(rt; rect_at(&spans, 1), Some(rect(8, 0, 9, 2)));
    same!(rt; rect_at(&spans, 2), None);
    Ok(())
}

/// Paints the pixels of a rectangle that is in a span.
fn paint_within<P: Paint>(spans: &mut SpanBuf, span: Span, rect: Rect, paint: &P)
    requires span { IsSpanOf spans.old.rects span }
    requires left { span.rect.left ≤ℤ rect.left }
    requires across { rect.left ≤ℤ rect.right }
    requires right { rect.right ≤ℤ span.rect.right }
    requires top { span.rect.top ≤ℤ rect.top }
    requires down { rect.top ≤ℤ rect.bottom }
    requires bottom { rect.bottom ≤ℤ span.rect.bottom }
{
    spans.paint(span, rect, paint);
}

/// Whether a rectangle has pixels.
fn has_pixels(rect: Rect) -> bool
    ensures across { result ≡ true → rect.left ≤ℤ rect.right }
    ensures down { result ≡ true → rect.top ≤ℤ rect.bottom }
{
    rect.left <= rect.right && rect.top <= rect.bottom
}

/// Whether a rectangle has pixels, all of them in another.
fn is_inside(inner: Rect, outer: Rect) -> bool
    ensures left { result ≡ true → outer.left ≤ℤ inner.left }
    ensures across { result ≡ true → inner.left ≤ℤ inner.right }
    ensures right { result ≡ true → inner.right ≤ℤ outer.right }
    ensures top { result ≡ true → outer.top ≤ℤ inner.top }
    ensures down { result ≡ true → inner.top ≤ℤ inner.bottom }
    ensures bottom { result ≡ true → inner.bottom ≤ℤ outer.bottom }
{
    if inner.left < outer.left || outer.right < inner.right {
        return false;
    }
    if inner.top < outer.top || outer.bottom < inner.bottom {
        return false;
    }
    has_pixels(inner)
}

/// The place of the span that has all pixels of a rectangle.
fn place_of(spans: &SpanBuf, rect: Rect) -> Option<usize>
    ensures { IfSome result (λ place. place < length spans.now.rects) }
{
    let count = spans.region().count();
    for place in 0..count {
        if is_inside(rect, spans.span(place).rect()) {
            return Some(place);
        }
    }
    None
}

/// Paints the pixels of a rectangle, where they are in one span.
fn paint<P: Paint>(spans: &mut SpanBuf, rect: Rect, paint: &P) -> bool {
    let Some(place) = place_of(spans, rect) else {
        return false;
    };
    let span = spans.span(place);
    if !is_inside(rect, span.rect()) {
        return false;
    }
    paint_within(spans, span, rect, paint);
    true
}

#[test]
fn blocks_are_painted_in_a_span(rt: HostRuntime) -> Result<(), Fail> {
    // Its only bit of 1 is the left top one.
    let corner = Pattern {
        rows: [0x80, 0, 0, 0, 0, 0, 0, 0],
    };
    let five_up = Point { x: 5, y: -3 };
    // The left top bit falls on (2, 1), eight columns and eight rows further.
    let far = Point { x: -6, y: -7 };
    for (mode, pattern, origin, picture) in [
        (
            Mode::Copy,
            &Pattern::HIGH,
            five_up,
            ".hhh..--../.hhh..--../......--..",
        ),
        (
            Mode::Over,
            &Pattern::HIGH,
            five_up,
            ".hhh..--../.hhh..--../......--..",
        ),
        (
            Mode::Copy,
            &Pattern::LOW,
            five_up,
            ".lll..--../.lll..--../......--..",
        ),
        (
            Mode::Over,
            &Pattern::LOW,
            five_up,
            "......--../......--../......--..",
        ),
        (
            Mode::Copy,
            &Pattern::MIXED,
            five_up,
            ".lhl..--../.hlh..--../......--..",
        ),
        (
            Mode::Over,
            &Pattern::MIXED,
            five_up,
            "..h...--../.h.h..--../......--..",
        ),
        (Mode::Copy, &corner, far, ".lll..--../.lhl..--../......--.."),
        (Mode::Over, &corner, far, "......--../..h...--../......--.."),
    ] {
        let mut spans = two_rects(rt.alloc())?;
        let coat = Coat {
            brush: brush_of(mode),
            pattern: *pattern,
            window: origin,
        };
        assert!(rt; paint(&mut spans, rect(1, 0, 3, 1), &coat));
        check(&rt, &spans, picture);
    }
    Ok(())
}

#[test]
fn blocks_get_a_color_in_a_span(rt: HostRuntime) -> Result<(), Fail> {
    let mut spans = two_rects(rt.alloc())?;
    assert!(rt; paint(&mut spans, rect(1, 0, 3, 1), &Fill { rgb: RED }));
    check(&rt, &spans, ".rrr..--../.rrr..--../......--..");
    assert!(rt; paint(&mut spans, rect(9, 1, 9, 2), &Fill { rgb: BLUE }));
    check(&rt, &spans, ".rrr..--../.rrr..--.b/......--.b");
    Ok(())
}

#[test]
fn masks_are_painted_in_a_span(rt: HostRuntime) -> Result<(), Fail> {
    let blue = Color::Solid(BLUE);
    // From the left the bits are 1 0 0 1 and 0 1 0 0; no column has the lowest one.
    let masks = [0x9000000000000000u64, 0x4000000000000001, 0, 0, 0, 0, 0];
    for (mode, color, picture) in [
        (Mode::Copy, blue, ".b..b.--../..b...--../......--.."),
        (Mode::Erase, blue, ".l..l.--../..l...--../......--.."),
        (Mode::Copy, Color::Clear, "......--../......--../......--.."),
    ] {
        let mut spans = two_rects(rt.alloc())?;
        let letters = Letters {
            brush: brush_of(mode),
            color,
            masks: &masks,
            way: Way { right: 1, down: 0 },
        };
        assert!(rt; paint(&mut spans, rect(0, 0, 5, 2), &letters));
        check(&rt, &spans, picture);
    }
    Ok(())
}
