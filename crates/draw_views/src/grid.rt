use be_geom::{NoMemory, Rect};
use be_region::Region;
use std::alloc::Global;

/// The square of a grid in a column and a row, at whose left top it lies. Where `step` is more than
/// `size` the squares stand apart.
pub fn square(column: u8, row: u8, step: i16, size: i16) -> Rect {
    let left = i16::from(column).saturating_mul(step);
    let top = i16::from(row).saturating_mul(step);
    Rect {
        left,
        top,
        right: left.saturating_add(size.saturating_sub(1)),
        bottom: top.saturating_add(size.saturating_sub(1)),
    }
}

/// Four rows of four squares, over a square of this side.
pub fn sixteen_squares(alloc: Global, side: i16) -> Result<Region, NoMemory> {
    let step = side / 4;
    let mut squares = Region::empty(alloc);
    for number in 0..16u8 {
        let rect = square(number % 4, number / 4, step, (step / 2).max(1));
        squares.include(&Region::from_rect(alloc, rect)?)?;
    }
    Ok(squares)
}

/// Every other one of ten rows of ten squares, over a square of this side.
pub fn checkerboard(alloc: Global, side: i16) -> Result<Region, NoMemory> {
    let step = (side / 10).max(1);
    let mut squares = Region::empty(alloc);
    for number in 0..100u8 {
        let column = number % 10;
        let row = number / 10;
        if column % 2 == row % 2 {
            let rect = square(column, row, step, step);
            squares.include(&Region::from_rect(alloc, rect)?)?;
        }
    }
    Ok(squares)
}
