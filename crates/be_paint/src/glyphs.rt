ghost use Rattle.std.specs.Prelude.{◌≡◌, ℕ, ℤ, pos, ◌<◌, ◌+ℤ◌, ◌-ℤ◌, ◌*ℤ◌, ◌≤ℤ◌, ◌<ℤ◌, ◌||◌};
ghost use Rattle.std.specs.Prelude.{false, length, slice_index};
ghost use Rattle.be_font.specs.Runs.{row_bit};
ghost use Rattle.be_span.specs.Slices.{mask_bit};
ghost use Rattle.be_geom.specs.Places.{IsNear};
ghost use Rattle.be_paint.specs.Inks.{glyph_covers, text_has};
ghost use Rattle.be_paint.specs.Laying.{AreMasksOf};

use be_geom::Point;

/// The rows of a glyph above the pen's.
pub(crate) const ASCENT: i32 = 6;

/// From one glyph's pen to the next one's.
const ADVANCE: i32 = 6;

/// Where the pen stops.
const LAST_PEN: i32 = 32767;

/// More columns than there are from any pen to the end of a glyph where it stops.
const MOST_COLUMNS: usize = 65544;

/// How many columns a mask has a bit for.
pub(crate) const COLUMNS: i32 = 64;

/// The last of them.
const LAST_BIT: i32 = 63;

/// Which of 64 pixels of each row of the glyphs, from a column of drawing on, they cover, the first
/// one by the highest bit. It takes a few steps for each glyph among them, and for each one where
/// the pen stopped.
#[inline(always)]
pub(crate) fn masks_at(codes: &[u8], pen: Point, x: i32) -> [u64; 7]
    requires { IsNear 62 x }
    ensures { AreMasksOf codes.now pen.x pen.y x result }
{
    let (count, pen) = glyphs_before(pen.x, x);
    if codes.len() < count {
        return [0; 7];
    }
    masks_of(&codes[count..], pen, x)
}

/// A column behind the last one that a glyph has. It stays near where the pen stops, however long
/// the text is.
pub(crate) fn end_of(codes: &[u8], pen: Point) -> i32
    ensures end { (x y : ℤ) → result <ℤ x → text_has codes.now pen.x pen.y x y ≡ false }
    ensures near { IsNear 4 result }
{
    let columns = codes.len().saturating_mul(6).min(MOST_COLUMNS) as i32;
    i32::from(pen.x) + columns
}

/// How many glyphs from the pen on end before a column, and the pen behind them.
fn glyphs_before(pen: i16, x: i32) -> (usize, i16)
    requires { IsNear 62 x }
    ensures pen { result.1 ≡ pen +ℤ pos 6 *ℤ pos result.0 }
    ensures before { 0 < result.0 → result.1 ≤ℤ x }
{
    let count = columns_before(pen, x) / 6;
    let pen = i32::from(pen) + i32::from(6 * count);
    (usize::from(count), pen as i16)
}

/// How many columns there are from the pen to another one, and at most to where the pen stops.
fn columns_before(pen: i16, x: i32) -> u16
    requires { IsNear 62 x }
    ensures stops { (pen +ℤ pos result) ≤ℤ pos 32767 }
    ensures before { 0 < result → (pen +ℤ pos result) ≤ℤ x }
{
    let pen = i32::from(pen);
    let last = x.min(LAST_PEN);
    if last < pen { 0 } else { (last - pen) as u16 }
}

/// Which of 64 pixels of each row the glyphs from a pen on cover. It goes through them in turn up
/// to the first one that begins behind the pixels.
#[inline(always)]
fn masks_of(codes: &[u8], pen: i16, x: i32) -> [u64; 7]
    requires { IsNear 62 x }
    ensures { (pen_y : ℤ) → AreMasksOf codes.now pen pen_y x result }
{
    let mut left = i32::from(pen);
    let mut masks = [0; 7];
    for code in codes {
        if x + LAST_BIT < left {
            return masks;
        }
        add_glyph(&mut masks, *code, left - x);
        left = (left + ADVANCE).min(LAST_PEN);
    }
    masks
}

/// Adds the pixels of a glyph that begins at a place.
fn add_glyph(masks: &mut [u64; 7], code: u8, left: i32)
    ensures len { length masks.new ≡ length masks.old }
    ensures each { (k row : ℕ) → k < 64 → row < 7 → mask_bit (slice_index masks.new row) k
        ≡ (mask_bit (slice_index masks.old row) k || glyph_covers code (pos k -ℤ left) (pos row)) }
{
    for row in 0..7u8 {
        masks[usize::from(row)] |= placed(be_font::row(code, row), left);
    }
}

/// The eight pixels of a byte among 64, the first one at a place: those outside are cut off.
fn placed(byte: u8, left: i32) -> u64
    ensures inside { (k column : ℕ) → k < 64 → pos k ≡ left +ℤ pos column
        → mask_bit result k ≡ row_bit byte column }
    ensures before { (k : ℕ) → pos k <ℤ left → mask_bit result k ≡ false }
{
    let bits = u64::from(byte) << 56;
    if left < -7 {
        0
    } else if left < 0 {
        bits << -left
    } else if left <= LAST_BIT {
        bits >> left
    } else {
        0
    }
}
