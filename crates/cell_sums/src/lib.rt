//! A number that tells the cells of two windows or slices apart, for programs whose pixels are held
//! against those of another program.
#![tactic(auto)]

use be_span::{Cell, SpanBuf};

/// A sum over all cells of a window, in screen coordinates, which another cell at a pixel changes.
/// It goes down the rectangles, and looks at each cell once.
pub fn sum_of_spans(spans: &SpanBuf) -> u64 {
    let mut sum = 0u64;
    for place in 0..spans.region().count() {
        if let Some(rect) = spans.region().rect_at(place) {
            for y in rect.top..=rect.bottom {
                sum = sum.wrapping_add(sum_of_row(spans, rect.left, y));
            }
        }
    }
    sum
}

/// The sum from a column on to the end of its span.
fn sum_of_row(spans: &SpanBuf, left: i16, y: i16) -> u64 {
    let mut sum = 0u64;
    let mut x = left;
    for cell in spans.row_from(i32::from(left), i32::from(y)) {
        sum = sum.wrapping_add(weight_of(x, y, *cell));
        x = x.wrapping_add(1);
    }
    sum
}

/// A sum over the cells of a slice, as if they were rows of 1,000.
pub fn sum_of_rows(cells: &[Cell]) -> u64 {
    let mut sum = 0u64;
    let mut x = 0i16;
    let mut y = 0i16;
    for cell in cells {
        sum = sum.wrapping_add(weight_of(x, y, *cell));
        if x == 999 {
            x = 0;
            y = y.wrapping_add(1);
        } else {
            x = x.wrapping_add(1);
        }
    }
    sum
}

/// What a cell at a pixel adds: its column, row, colour and mark side by side, stirred.
fn weight_of(x: i16, y: i16, cell: Cell) -> u64 {
    let [left, right] = x.to_be_bytes();
    let [upper, lower] = y.to_be_bytes();
    let mark = u8::from(cell.dirty);
    let all = [
        left,
        right,
        upper,
        lower,
        cell.rgb.red,
        cell.rgb.green,
        cell.rgb.blue,
        mark,
    ];
    let once = u64::from_be_bytes(all).wrapping_mul(0x9e37_79b9_7f4a_7c15);
    (once ^ (once >> 32)).wrapping_mul(0xbf58_476d_1ce4_e5b9)
}
