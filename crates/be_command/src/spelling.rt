ghost use Rattle.std.specs.Prelude.{◌≡◌, ◌++◌, ◌∷◌, OnOk, IfOk};
ghost use Rattle.be_lex.specs.Colors.{color_text};
ghost use Rattle.be_lex.specs.Patterns.{pattern_text};
ghost use Rattle.be_lex.specs.Modes.{mode_text};
ghost use Rattle.be_command.specs.Spelling.{spaced, number_word, pair_words, point_words};
ghost use Rattle.be_command.specs.Spelling.{rect_words, rects_words};

// The words of a line as they are written, each behind a space. Without memory some may be missing.

use be_color::{Color, Mode, Pattern};
use be_geom::{NoMemory, Point, Rect};
use be_lex::{write_color, write_mode, write_number, write_pattern};

pub(crate) fn push_word(line: &mut Vec<u8>, word: &[u8]) -> Result<(), NoMemory>
    ensures { OnOk result (line.new.items ≡ line.old.items ++ spaced word.now) }
{
    line.push(b' ')?;
    line.extend_from_slice(word)?;
    Ok(())
}

pub(crate) fn push_number(line: &mut Vec<u8>, number: i32) -> Result<(), NoMemory>
    ensures { OnOk result (line.new.items ≡ line.old.items ++ number_word number) }
{
    line.push(b' ')?;
    write_number(line, i64::from(number))
}

pub(crate) fn push_pair(line: &mut Vec<u8>, x: i32, y: i32) -> Result<(), NoMemory>
    ensures { OnOk result (line.new.items ≡ line.old.items ++ pair_words x y) }
{
    push_number(line, x)?;
    push_number(line, y)
}

pub(crate) fn push_point(line: &mut Vec<u8>, point: Point) -> Result<(), NoMemory>
    ensures { OnOk result (line.new.items ≡ line.old.items ++ point_words point) }
{
    push_pair(line, i32::from(point.x), i32::from(point.y))
}

pub(crate) fn push_rect(line: &mut Vec<u8>, rect: Rect) -> Result<(), NoMemory>
    ensures { OnOk result (line.new.items ≡ line.old.items ++ rect_words rect) }
{
    push_pair(line, i32::from(rect.left), i32::from(rect.top))?;
    push_pair(line, i32::from(rect.right), i32::from(rect.bottom))
}

pub(crate) fn push_rects(line: &mut Vec<u8>, rects: &[Rect]) -> Result<(), NoMemory>
    ensures { OnOk result (line.new.items ≡ line.old.items ++ rects_words rects.now) }
{
    for rect in rects {
        push_rect(line, *rect)?;
    }
    Ok(())
}

pub(crate) fn push_pattern(line: &mut Vec<u8>, pattern: Pattern) -> Result<(), NoMemory>
    ensures { OnOk result (line.new.items ≡ line.old.items ++ spaced (pattern_text pattern)) }
{
    line.push(b' ')?;
    write_pattern(line, pattern)
}

pub(crate) fn push_color(line: &mut Vec<u8>, color: Color) -> Result<(), NoMemory>
    ensures { OnOk result (line.new.items ≡ line.old.items ++ spaced (color_text color)) }
{
    line.push(b' ')?;
    write_color(line, color)
}

pub(crate) fn push_mode(line: &mut Vec<u8>, mode: Mode) -> Result<(), NoMemory>
    ensures { OnOk result (line.new.items ≡ line.old.items ++ spaced (mode_text mode)) }
{
    line.push(b' ')?;
    write_mode(line, mode)
}
