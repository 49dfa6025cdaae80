ghost use Rattle.std.specs.Prelude.{◌≡◌, ℕ, ◌<◌, ◌%◌, MatchOption};
ghost use Rattle.be_font.specs.Glyphs.{glyph_bit};
ghost use Rattle.be_font.specs.Runs.{row_bit, IsFirstRun, HasNoBit};

use crate::rows::ROWS;

/// The codes of the first and the last glyph, those of a space and of a tilde.
const FIRST_CODE: u8 = 32;

const LAST_CODE: u8 = 126;

/// The lowest row.
const LAST_ROW: u8 = 6;

/// Whether a glyph has a bit at a column from the left and a row from the top. False outside the
/// table.
#[tactic(auto, unfolding(crate::specs::Runs::row_bit))]
pub fn bit(code: u8, column: u8, row: u8) -> bool
    ensures { result ≡ glyph_bit code column row }
{
    column < 8 && self::row(code, row) >> (7 - column) & 1 == 1
}

/// The first run of a glyph's bits in a row, from a column on: its first and its last column. What
/// lies left of that column doesn't count, so the run may begin in the middle of a longer one. None
/// where no bit is left.
pub fn next_run(code: u8, row: u8, from: u8) -> Option<(u8, u8)>
    ensures run { MatchOption result (HasNoBit (λ column. glyph_bit code column row) from)
        (λ run. IsFirstRun (λ column. glyph_bit code column row) from run.0 run.1) }

    // Every run lies in the glyph's columns.
    ensures within { MatchOption result (Unit {0}) (λ run. run.1 < 5) }
{
    if from < 8 {
        run_in(self::row(code, row), from)
    } else {
        None
    }
}

/// The bits of a glyph's row, the leftmost column the highest bit. 0 outside the table.
pub fn row(code: u8, line: u8) -> u8
    ensures bits { (column : ℕ) → glyph_bit code column line ≡ row_bit result column }

    // Every bit lies in the glyph's columns.
    ensures narrow { result % 8 ≡ 0 }
{
    if code < FIRST_CODE || LAST_CODE < code || LAST_ROW < line {
        return 0;
    }
    ROWS[usize::from(code - FIRST_CODE)][usize::from(line)] << 3
}

/// The first run of ones from a place on, of the eight places from the highest bit to the lowest.
fn run_in(bits: u8, from: u8) -> Option<(u8, u8)>
    requires { from < 8 }
    ensures { MatchOption result (HasNoBit (row_bit bits) from)
        (λ run. IsFirstRun (row_bit bits) from run.0 run.1) }
{
    let rest = bits & (0xff >> from);
    if rest == 0 {
        return None;
    }
    let first = rest.leading_zeros() as u8;
    let length = (rest << first).leading_ones() as u8;
    Some((first, first + length - 1))
}
