//! Copies of a script's bitmaps.
ghost use Rattle.std.specs.Prelude.{◌≡◌, map, IfOk};

use be_bitmap::Bitmap;
use be_geom::NoMemory;
use be_script::BitmapLine;
use std::alloc::Global;

/// The bitmaps, in order of declaration.
pub(crate) fn bitmaps_of(alloc: Global, lines: &[BitmapLine]) -> Result<Vec<Bitmap>, NoMemory>
    ensures { IfOk result (λ copies. copies.items ≡ map (λ line. line.bitmap) lines.now) }
{
    let mut copies = Vec::with_capacity(alloc, lines.len())?;
    for line in lines {
        copies.push(copy_of(alloc, &line.bitmap)?)?;
    }
    Ok(copies)
}

// Row by row.
fn copy_of(alloc: Global, bitmap: &Bitmap) -> Result<Bitmap, NoMemory>
    ensures { IfOk result (λ copy. copy ≡ bitmap.now) }
{
    let width = bitmap.width();
    let height = bitmap.height();
    let mut pixels = Vec::new(alloc);
    for row in 0..height {
        pixels.extend_from_slice(bitmap.row_from(usize::from(row), 0))?;
    }
    match Bitmap::new(width, height, pixels) {
        Ok(copy) => Ok(copy),
        Err(_) => unreachable!(),
    }
}
