ghost use Rattle.std.specs.Prelude.{◌≡◌, ◌||◌, ◌≤◌, pos, Ok, Err, Some, None, if◌then◌else◌};
ghost use Rattle.std.specs.Prelude.{nat_le, length, codes, unsigned_abs};
ghost use Rattle.std.specs.Map.{lookup};
ghost use Rattle.std.specs.Option.{option_map};
ghost use Rattle.std.specs.Result.{result_map_both};
ghost use Rattle.std.specs.Str.{bytes_eq};
ghost use Rattle.be_lex.specs.Colors.{color_of};
ghost use Rattle.be_command.specs.Kinds.{numbered_name, numbered, coordinate, formed};
ghost use Rattle.be_command.specs.Places.{judged};
ghost use Rattle.be_line.specs.Kinds.{first_of, across_words, down_words, what_said};
ghost use Rattle.be_line.specs.Kinds.{filter_what_said, note_said, color_or_white, new_named};
ghost use Rattle.be_line.specs.Kinds.{said_as};

// What a word of each kind says, or what is wrong with it. None stands for a missing word.

use be_color::{Color, Rgb};
use be_command::Reason;
use be_follow::{Across, Down};
use be_lex::{Number, is_name, is_reserved_code, is_reserved_name, read_code, read_color};

/// The number that a name has.
pub fn named(word: &[u8], number: Option<u16>) -> Result<u16, Reason>
    ensures { result ≡ numbered_name number word.now }
{
    if is_name(word) {
        number.ok_or(Reason::UnknownName)
    } else {
        Err(Reason::Shape)
    }
}

/// A name that is declared, where it may be told whether it is there already.
pub fn new_name(word: &[u8], is_there: bool) -> Result<&[u8], Reason>
    ensures { result_map_both (λ name. name.now) (λ reason. reason) result
        ≡ new_named is_there word.now }
{
    if !is_name(word) {
        Err(Reason::Shape)
    } else if is_reserved_name(word) || is_there {
        Err(Reason::NameTaken)
    } else {
        Ok(word)
    }
}

/// A number that is neither below `low` nor above `high`.
pub fn number(word: Option<&[u8]>, low: i32, high: i32) -> Result<i32, Reason>
    ensures { result ≡ judged (numbered low high) (option_map (λ w. w.now) word.entry) }
{
    let word = word.ok_or(Reason::Shape)?;
    let number = Number::of(word).ok_or(Reason::Shape)?;
    number.between(low, high).ok_or(Reason::Range)
}

/// A number of 16 bits with a sign.
pub fn coordinate(word: Option<&[u8]>) -> Result<i16, Reason>
    ensures { result ≡ judged coordinate (option_map (λ w. w.now) word.entry) }
{
    let word = word.ok_or(Reason::Shape)?;
    let number = Number::of(word).ok_or(Reason::Shape)?;
    number.coordinate().ok_or(Reason::Range)
}

/// How a view follows the left and right edges of its parent: `B_FOLLOW_LEFT` and its kin.
pub fn across(word: Option<&[u8]>) -> Result<Across, Reason>
    ensures { result ≡ judged (λ word. formed (lookup (bytes_eq word) across_words))
        (option_map (λ w. w.now) word.entry) }
{
    let word = word.ok_or(Reason::Shape)?;
    across_of(word).ok_or(Reason::Shape)
}

fn across_of(word: &[u8]) -> Option<Across>
    ensures { result ≡ lookup (bytes_eq word.now) across_words }
{
    if word == b"left".as_slice() {
        Some(Across::Left)
    } else if word == b"right".as_slice() {
        Some(Across::Right)
    } else if word == b"leftright".as_slice() {
        Some(Across::LeftRight)
    } else if word == b"hcenter".as_slice() {
        Some(Across::Center)
    } else if word == b"none".as_slice() {
        Some(Across::Left)
    } else {
        None
    }
}

/// How a view follows the top and bottom edges of its parent: `B_FOLLOW_TOP` and its kin.
pub fn down(word: Option<&[u8]>) -> Result<Down, Reason>
    ensures { result ≡ judged (λ word. formed (lookup (bytes_eq word) down_words))
        (option_map (λ w. w.now) word.entry) }
{
    let word = word.ok_or(Reason::Shape)?;
    down_of(word).ok_or(Reason::Shape)
}

fn down_of(word: &[u8]) -> Option<Down>
    ensures { result ≡ lookup (bytes_eq word.now) down_words }
{
    if word == b"top".as_slice() {
        Some(Down::Top)
    } else if word == b"bottom".as_slice() {
        Some(Down::Bottom)
    } else if word == b"topbottom".as_slice() {
        Some(Down::TopBottom)
    } else if word == b"vcenter".as_slice() {
        Some(Down::Center)
    } else if word == b"none".as_slice() {
        Some(Down::Top)
    } else {
        None
    }
}

/// A colour, or white where no word is left.
pub fn last_color(word: Option<&[u8]>) -> Result<Color, Reason>
    ensures { result ≡ color_or_white (option_map (λ w. w.now) word.entry) }
{
    match word {
        Some(word) => read_color(word).ok_or(Reason::Shape),
        None => Ok(Color::Solid(Rgb::WHITE)),
    }
}

/// Four letters, and none of the words that the server alone sends.
pub fn what(word: Option<&[u8]>) -> Result<u32, Reason>
    ensures { result ≡ judged what_said (option_map (λ w. w.now) word.entry) }
{
    let word = word.ok_or(Reason::Shape)?;
    match read_code(word) {
        Some(code) if !is_reserved_code(code) => Ok(code),
        _ => Err(Reason::Shape),
    }
}

/// Every word, or one.
pub fn filter_what(word: Option<&[u8]>) -> Result<Option<u32>, Reason>
    ensures { result ≡ judged filter_what_said (option_map (λ w. w.now) word.entry) }
{
    let word = word.ok_or(Reason::Shape)?;
    if word == b"*".as_slice() {
        return Ok(None);
    }
    match read_code(word) {
        Some(code) => Ok(Some(code)),
        None => Err(Reason::Shape),
    }
}

/// At most 32 bytes.
pub fn note(word: Option<&[u8]>) -> Result<&[u8], Reason>
    ensures { result_map_both (λ note. note.now) (λ reason. reason) result
        ≡ judged note_said (option_map (λ w. w.now) word.entry) }
{
    let word = word.ok_or(Reason::Shape)?;
    if word.len() <= 32 {
        Ok(word)
    } else {
        Err(Reason::Shape)
    }
}

/// A number from `low` to `high`, without a sign.
pub fn natural(word: Option<&[u8]>, low: u16, high: u16) -> Result<u16, Reason>
    ensures { result ≡ said_as unsigned_abs
        (judged (numbered (pos low) (pos high)) (option_map (λ w. w.now) word.entry)) }
{
    Ok(number(word, i32::from(low), i32::from(high))? as u16)
}

/// Of two reasons the one that is looked for first.
pub fn first_of(one: Reason, other: Reason) -> Reason
    ensures { result ≡ first_of one other }
{
    if other.rank() < one.rank() {
        other
    } else {
        one
    }
}
