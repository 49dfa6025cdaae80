ghost use Rattle.std.specs.Prelude.{◌≡◌, ◌&&◌, ◌++◌, ◌∷◌, [], nat_le, nat_lt, ◌≤◌, IfOk};
ghost use Rattle.be_message.specs.Limits.{most_name_bytes, most_values};
ghost use Rattle.be_message.specs.Names.{is_text_byte};
ghost use Rattle.be_message.specs.Views.{seen_value};
ghost use Rattle.be_flat.specs.Codes.{begin_code};
ghost use Rattle.be_flat.specs.Reading.{Gives, byte_that, bytes_that, bool_at, int_at};
ghost use Rattle.be_flat.specs.Reading.{text_length_at, text_at, point_at, rect_at, kind_at};
ghost use Rattle.be_flat.specs.Reading.{goes_on_name, unless_taken, name_at};

use crate::code::{begin_code, kind_spelt};
use crate::cursor::Cursor;
use crate::fault::FlatError;
use be_geom::{Point, Rect};
use be_message::{Kind, Message, Text, Value};
use std::alloc::Global;

const MOST_NAME_BYTES: u8 = 32;

const MOST_TEXT_BYTES: usize = 1024;

#[tactic(auto, unfolding(crate::specs::Reading::bool_at, crate::specs::Reading::byte_that))]
pub(crate) fn bool_at(cursor: &mut Cursor<'_>) -> Result<Value, FlatError>
    ensures { Gives (λ value. (seen_value value, cursor.new)) result (bool_at cursor.old) }
{
    let at = cursor.at();
    let byte = cursor.byte()?;
    if byte > 1 {
        return Err(FlatError::BadByte { at });
    }
    Ok(Value::Bool(byte == 1))
}

#[tactic(auto, unfolding(crate::specs::Reading::int_at))]
pub(crate) fn int_at(cursor: &mut Cursor<'_>) -> Result<Value, FlatError>
    ensures { Gives (λ value. (seen_value value, cursor.new)) result (int_at cursor.old) }
{
    Ok(Value::Int(cursor.u32()?.cast_signed()))
}

#[tactic(auto, unfolding(crate::specs::Reading::point_at))]
pub(crate) fn point_at(cursor: &mut Cursor<'_>) -> Result<Value, FlatError>
    ensures { Gives (λ value. (seen_value value, cursor.new)) result (point_at cursor.old) }
{
    Ok(Value::Point(Point {
        x: cursor.coordinate()?,
        y: cursor.coordinate()?,
    }))
}

#[tactic(auto, unfolding(crate::specs::Reading::rect_at))]
pub(crate) fn rect_at(cursor: &mut Cursor<'_>) -> Result<Value, FlatError>
    ensures { Gives (λ value. (seen_value value, cursor.new)) result (rect_at cursor.old) }
{
    Ok(Value::Rect(Rect {
        left: cursor.coordinate()?,
        top: cursor.coordinate()?,
        right: cursor.coordinate()?,
        bottom: cursor.coordinate()?,
    }))
}

#[tactic(auto, unfolding(crate::specs::Reading::text_at))]
pub(crate) fn text_at(alloc: Global, cursor: &mut Cursor<'_>) -> Result<Value, FlatError>
    ensures { Gives (λ value. (seen_value value, cursor.new)) result (text_at cursor.old) }
{
    let length = text_length_at(cursor)?;
    let bytes = text_bytes_at(cursor, length)?;
    Ok(Value::Text(Text::new(alloc, bytes)?))
}

#[tactic(auto, unfolding(crate::specs::Reading::text_length_at, crate::specs::Reading::byte_that))]
fn text_length_at(cursor: &mut Cursor<'_>) -> Result<usize, FlatError>
    ensures { Gives (λ n. (n, cursor.new)) result (text_length_at cursor.old) }
{
    let low = cursor.byte()?;
    let at = cursor.at();
    let high = cursor.byte()?;
    let length = usize::from(low) + 256 * usize::from(high);
    if length > MOST_TEXT_BYTES {
        return Err(FlatError::BadByte { at });
    }
    Ok(length)
}

fn text_bytes_at<'a>(cursor: &mut Cursor<'a>, length: usize) -> Result<&'a [u8], FlatError>
    ensures { Gives (λ bytes. (bytes.now, cursor.new)) result
        (bytes_that (λ read b. is_text_byte b) length [] cursor.old) }
{
    let start = cursor.rest();
    for _ in 0..length {
        let at = cursor.at();
        let byte = cursor.byte()?;
        if !is_text_byte(byte) {
            return Err(FlatError::BadByte { at });
        }
    }
    Ok(&start[..length])
}

fn is_text_byte(byte: u8) -> bool
    ensures { result ≡ is_text_byte byte }
{
    (32..=126).contains(&byte)
}

/// The type of a field. A message is one only where messages may lie within the message.
#[tactic(auto, unfolding(crate::specs::Reading::kind_at))]
pub(crate) fn kind_at(cursor: &mut Cursor<'_>, nested: bool) -> Result<Kind, FlatError>
    ensures { Gives (λ kind. (kind, cursor.new)) result (kind_at nested cursor.old) }
{
    let letters = letters_at(cursor, nested)?;
    Ok(kind_spelt(letters))
}

fn letters_at<'a>(cursor: &mut Cursor<'a>, nested: bool) -> Result<&'a [u8], FlatError>
    ensures { Gives (λ letters. (letters.now, cursor.new)) result
        (bytes_that (λ read b. begin_code nested (read ++ b ∷ [])) 4 [] cursor.old) }
{
    let start = cursor.rest();
    for place in 0..4 {
        let at = cursor.at();
        let _letter = cursor.byte()?;
        if !begin_code(nested, &start[..place + 1]) {
            return Err(FlatError::BadByte { at });
        }
    }
    Ok(&start[..4])
}

#[tactic(auto, unfolding(crate::specs::Reading::byte_that))]
pub(crate) fn value_count_at(cursor: &mut Cursor<'_>) -> Result<u8, FlatError>
    ensures read { Gives (λ n. (n, cursor.new)) result (byte_that (λ n. nat_lt 0 n) cursor.old) }
    ensures few { IfOk result (λ n. n ≤ most_values) }
{
    let at = cursor.at();
    let count = cursor.byte()?;
    if count == 0 {
        return Err(FlatError::BadByte { at });
    }
    Ok(count)
}

#[tactic(auto, unfolding(crate::specs::Reading::byte_that))]
fn name_length_at(cursor: &mut Cursor<'_>) -> Result<u8, FlatError>
    ensures { Gives (λ n. (n, cursor.new)) result
        (byte_that (λ n. nat_lt 0 n && nat_le n most_name_bytes) cursor.old) }
{
    let at = cursor.at();
    let length = cursor.byte()?;
    if length == 0 || length > MOST_NAME_BYTES {
        return Err(FlatError::BadByte { at });
    }
    Ok(length)
}

fn name_bytes_at<'a>(cursor: &mut Cursor<'a>, length: usize) -> Result<&'a [u8], FlatError>
    ensures { Gives (λ bytes. (bytes.now, cursor.new)) result
        (bytes_that goes_on_name length [] cursor.old) }
{
    let start = cursor.rest();
    for place in 0..length {
        let at = cursor.at();
        let byte = cursor.byte()?;
        if !goes_on_name(&start[..place], byte) {
            return Err(FlatError::BadByte { at });
        }
    }
    Ok(&start[..length])
}

fn goes_on_name(read: &[u8], byte: u8) -> bool
    ensures { result ≡ goes_on_name read.now byte }
{
    match read {
        [] => byte.is_ascii_lowercase(),
        _ => byte.is_ascii_lowercase() || byte.is_ascii_digit() || byte == b'_',
    }
}

/// The name of a field that the message doesn't have yet.
#[tactic(auto, unfolding(crate::specs::Reading::name_at, crate::specs::Reading::unless_taken))]
pub(crate) fn name_at<'a>(cursor: &mut Cursor<'a>, message: &Message) -> Result<&'a str, FlatError>
    ensures { Gives (λ name. (name.now, cursor.new)) result (name_at message.now cursor.old) }
{
    let length = name_length_at(cursor)?;
    let bytes = name_bytes_at(cursor, usize::from(length))?;
    let end = cursor.at();
    let name = str::from_utf8(bytes).unwrap();
    if message.has(name) {
        return Err(FlatError::BadByte {
            at: end.saturating_sub(1),
        });
    }
    Ok(name)
}
