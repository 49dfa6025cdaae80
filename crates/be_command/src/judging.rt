ghost use Rattle.std.specs.Prelude.{◌≡◌, ◌≤◌, ◌≤ℤ◌, pos, negsuc, unsigned_abs, if◌then◌else◌, Ok};
ghost use Rattle.std.specs.Prelude.{Err};
ghost use Rattle.std.specs.Option.{option_map, ok_or};
ghost use Rattle.std.specs.Result.{result_map_both};
ghost use Rattle.be_lex.specs.Colors.{color_of};
ghost use Rattle.be_lex.specs.Patterns.{pattern_of};
ghost use Rattle.be_lex.specs.Modes.{mode_of};
ghost use Rattle.be_command.specs.Kinds.{numbered_name, named, focus_named, numbered, coordinate};
ghost use Rattle.be_command.specs.Kinds.{formed, rest_said};
ghost use Rattle.be_command.specs.Places.{judged};
ghost use Rattle.be_command.specs.Limits.{is_written_text};

// What a word of each kind says, or what is wrong with it. None stands for a missing word.

use crate::fault::Reason;
use crate::names::Names;
use be_color::{Color, Mode, Pattern};
use be_lex::{Number, is_name, is_printable, read_color, read_mode, read_pattern};

pub(crate) fn view(word: Option<&[u8]>, names: &Names) -> Result<u16, Reason>
    ensures { result ≡ judged (named names.now.views) (option_map (λ w. w.now) word.entry) }
{
    let word = word.ok_or(Reason::Shape)?;
    numbered_name(word, names.view(word))
}

pub(crate) fn window(word: Option<&[u8]>, names: &Names) -> Result<u16, Reason>
    ensures { result ≡ judged (named names.now.windows) (option_map (λ w. w.now) word.entry) }
{
    let word = word.ok_or(Reason::Shape)?;
    numbered_name(word, names.window(word))
}

pub(crate) fn bitmap(word: Option<&[u8]>, names: &Names) -> Result<u16, Reason>
    ensures { result ≡ judged (named names.now.bitmaps) (option_map (λ w. w.now) word.entry) }
{
    let word = word.ok_or(Reason::Shape)?;
    numbered_name(word, names.bitmap(word))
}

pub(crate) fn focus(word: Option<&[u8]>, names: &Names) -> Result<Option<u16>, Reason>
    ensures { result ≡ judged (focus_named names.now.views) (option_map (λ w. w.now) word.entry) }
{
    let word = word.ok_or(Reason::Shape)?;
    if word == b"none".as_slice() {
        return Ok(None);
    }
    Ok(Some(numbered_name(word, names.view(word))?))
}

// A number that is neither below `low` nor above `high`.
pub(crate) fn number(word: Option<&[u8]>, low: i32, high: i32) -> Result<i32, Reason>
    ensures { result ≡ judged (numbered low high) (option_map (λ w. w.now) word.entry) }
{
    let word = word.ok_or(Reason::Shape)?;
    let number = Number::of(word).ok_or(Reason::Shape)?;
    number.between(low, high).ok_or(Reason::Range)
}

pub(crate) fn coordinate(word: Option<&[u8]>) -> Result<i16, Reason>
    ensures { result ≡ judged coordinate (option_map (λ w. w.now) word.entry) }
{
    let word = word.ok_or(Reason::Shape)?;
    let number = Number::of(word).ok_or(Reason::Shape)?;
    number.coordinate().ok_or(Reason::Range)
}

// A width or a height.
pub(crate) fn extent(word: Option<&[u8]>) -> Result<i16, Reason>
    ensures { result
        ≡ judged (numbered (pos 0) (pos 32767)) (option_map (λ w. w.now) word.entry) }
{
    Ok(number(word, 0, 32767)? as i16)
}

pub(crate) fn pen_size(word: Option<&[u8]>) -> Result<u8, Reason>
    ensures { result ≡ result_map_both unsigned_abs (λ reason. reason)
        (judged (numbered (pos 1) (pos 32)) (option_map (λ w. w.now) word.entry)) }
{
    Ok(number(word, 1, 32)? as u8)
}

pub(crate) fn pattern(word: Option<&[u8]>) -> Result<Pattern, Reason>
    ensures { result
        ≡ judged (λ word. formed (pattern_of word)) (option_map (λ w. w.now) word.entry) }
{
    let word = word.ok_or(Reason::Shape)?;
    read_pattern(word).ok_or(Reason::Shape)
}

pub(crate) fn color(word: Option<&[u8]>) -> Result<Color, Reason>
    ensures { result
        ≡ judged (λ word. formed (color_of word)) (option_map (λ w. w.now) word.entry) }
{
    let word = word.ok_or(Reason::Shape)?;
    read_color(word).ok_or(Reason::Shape)
}

pub(crate) fn mode(word: Option<&[u8]>) -> Result<Mode, Reason>
    ensures { result
        ≡ judged (λ word. formed (mode_of word)) (option_map (λ w. w.now) word.entry) }
{
    let word = word.ok_or(Reason::Shape)?;
    read_mode(word).ok_or(Reason::Shape)
}

// The number that a name has.
fn numbered_name(word: &[u8], number: Option<u16>) -> Result<u16, Reason>
    ensures { result ≡ numbered_name number word.now }
{
    if is_name(word) {
        number.ok_or(Reason::UnknownName)
    } else {
        Err(Reason::Shape)
    }
}

// What is left of a line as a text: behind its first byte, which is a space.
pub(crate) fn text(rest: &[u8]) -> Result<&[u8], Reason>
    ensures { result_map_both (λ text. text.now) (λ reason. reason) result ≡ rest_said rest.now }
{
    match rest {
        [_, text @ ..] if is_written_text(text) => Ok(text),
        _ => Err(Reason::Shape),
    }
}

// Whether a text may be drawn: at most 256 bytes, each 32 to 126.
fn is_written_text(text: &[u8]) -> bool
    ensures { result ≡ is_written_text text.now }
{
    text.len() <= 256 && is_printable(text)
}
