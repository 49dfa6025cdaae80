ghost use Rattle.std.specs.Prelude.{◌≡◌, ◌+◌, ◌<◌, ◌≤◌, nat_lt, length, None, Ok, IfOk, IfErr};
ghost use Rattle.std.specs.Prelude.{OnOk};
ghost use Rattle.be_message.specs.Fields.{add_refusal, with_value};
ghost use Rattle.be_message.specs.Limits.{most_fields, most_depth};
ghost use Rattle.be_message.specs.Messages as messages;
ghost use Rattle.be_message.specs.Views.{seen_value};
ghost use Rattle.be_flat.specs.declared.fault.FlatError.TheVariants.{NoMemory};
ghost use Rattle.be_flat.specs.Grammar.{Spells};
ghost use Rattle.be_flat.specs.Reading.{Gives, value_at, value_into, so_many, field_into};
ghost use Rattle.be_flat.specs.Reading.{message_at, reading};
ghost use Rattle.be_flat.specs.Room.{HasRoom};

use crate::cursor::Cursor;
use crate::fault::FlatError;
use crate::part::{bool_at, int_at, kind_at, name_at, point_at, rect_at, text_at, value_count_at};
use be_message::{AddFault, Kind, Message, Value};
use std::alloc::Global;

const MOST_DEPTH: u8 = 16;

/// The message that the bytes spell, or the first failure, from the first byte on:
/// `BMessage::Unflatten`.
pub fn unflatten(alloc: Global, bytes: &[u8]) -> Result<Message, FlatError>
    // What is read is spelt so.
    ensures found { IfOk result (λ message. Spells bytes.now message) }
    // What is spelt so is read, unless memory runs out.
    ensures only { (m : messages.Message) → Spells bytes.now m
        → Gives (λ message. message) result (Ok m) }
    // Which failure it is, and where.
    ensures exact { Gives (λ message. message) result (reading bytes.now) }
{
    read_all(alloc, bytes)
}

#[tactic(auto, unfolding(crate::specs::Reading::reading))]
fn read_all(alloc: Global, bytes: &[u8]) -> Result<Message, FlatError>
    ensures { Gives (λ message. message) result (reading bytes.now) }
{
    let mut cursor = Cursor::over(bytes);
    let message = message_at(alloc, &mut cursor, MOST_DEPTH)?;
    if cursor.rest().is_empty() {
        Ok(message)
    } else {
        Err(FlatError::Extra { at: cursor.at() })
    }
}

/// A message of which `levels` may lie within one another, itself counted.
#[cycle(reading)]
#[tactic(auto, unfolding(crate::specs::Reading::message_at))]
fn message_at(alloc: Global, cursor: &mut Cursor<'_>, levels: u8) -> Result<Message, FlatError>
    requires { levels ≤ most_depth }
    ensures { Gives (λ message. (message, cursor.new)) result (message_at levels cursor.old) }
{
    if levels == 0 {
        return Err(FlatError::BadByte { at: cursor.at() });
    }
    let what = cursor.u32()?;
    let count = cursor.byte()?;
    let mut message = Message::new(alloc, what);
    fields_into(alloc, cursor, levels - 1, count, &mut message)?;
    Ok(message)
}

/// So many fields, added to the message.
#[cycle(reading)]
fn fields_into(
    alloc: Global,
    cursor: &mut Cursor<'_>,
    levels: u8,
    count: u8,
    message: &mut Message,
) -> Result<(), FlatError>
    requires levels { levels < most_depth }
    requires fields { length message.old.fields + count ≤ most_fields }
    ensures { Gives (λ _. (message.new, cursor.new)) result
        (so_many (field_into (message_at levels) (nat_lt 0 levels)) count message.old cursor.old) }
{
    for _ in 0..count {
        field_into(alloc, cursor, levels, message)?;
    }
    Ok(())
}

/// A field, added to the message value by value.
#[cycle(reading)]
#[tactic(auto, unfolding(crate::specs::Reading::field_into))]
fn field_into(
    alloc: Global,
    cursor: &mut Cursor<'_>,
    levels: u8,
    message: &mut Message,
) -> Result<(), FlatError>
    requires levels { levels < most_depth }
    requires fields { length message.old.fields < most_fields }
    ensures { Gives (λ _. (message.new, cursor.new)) result
        (field_into (message_at levels) (nat_lt 0 levels) message.old cursor.old) }
{
    let kind = kind_at(cursor, levels > 0)?;
    let name = name_at(cursor, message)?;
    let count = value_count_at(cursor)?;
    values_into(alloc, cursor, levels, kind, name, count, message)
}

/// So many values, added to the message under the name.
#[cycle(reading)]
fn values_into(
    alloc: Global,
    cursor: &mut Cursor<'_>,
    levels: u8,
    kind: Kind,
    name: &str,
    count: u8,
    message: &mut Message,
) -> Result<(), FlatError>
    requires levels { levels < most_depth }
    requires room { HasRoom message.old name.now kind count }
    ensures { Gives (λ _. (message.new, cursor.new)) result
        (so_many (value_into (message_at levels) kind name.now) count message.old cursor.old) }
{
    for _ in 0..count {
        value_into(alloc, cursor, levels, kind, name, message)?;
    }
    Ok(())
}

/// A value, added to the message under the name.
#[cycle(reading)]
#[tactic(auto, unfolding(crate::specs::Reading::value_into))]
fn value_into(
    alloc: Global,
    cursor: &mut Cursor<'_>,
    levels: u8,
    kind: Kind,
    name: &str,
    message: &mut Message,
) -> Result<(), FlatError>
    requires levels { levels < most_depth }
    requires room { HasRoom message.old name.now kind 1 }
    ensures { Gives (λ _. (message.new, cursor.new)) result
        (value_into (message_at levels) kind name.now message.old cursor.old) }
{
    let value = value_at(alloc, cursor, levels, kind)?;
    add(message, name, value)
}

/// Adds a value that the message doesn't refuse, so that nothing but memory can be missing.
fn add(message: &mut Message, name: &str, value: Value) -> Result<(), FlatError>
    requires { add_refusal message.old name.now (seen_value value) ≡ None }
    ensures added { OnOk result (message.new ≡ with_value message.old name.now (seen_value value)) }
    ensures err { IfErr result (λ error. error ≡ NoMemory) }
{
    match message.add(name, value) {
        Err(AddFault::NoMemory(_)) => Err(FlatError::NoMemory),
        added => Ok(added.unwrap()),
    }
}

/// A value of this type; a message is read with `levels` for itself.
#[cycle(reading)]
#[tactic(auto, unfolding(crate::specs::Reading::value_at))]
fn value_at(
    alloc: Global,
    cursor: &mut Cursor<'_>,
    levels: u8,
    kind: Kind,
) -> Result<Value, FlatError>
    requires { levels < most_depth }
    ensures { Gives (λ value. (seen_value value, cursor.new)) result
        (value_at (message_at levels) kind cursor.old) }
{
    match kind {
        Kind::Bool => bool_at(cursor),
        Kind::Int => int_at(cursor),
        Kind::Text => text_at(alloc, cursor),
        Kind::Point => point_at(cursor),
        Kind::Rect => rect_at(cursor),
        Kind::Message => Ok(Value::Message(Box::new(alloc, message_at(alloc, cursor, levels)?)?)),
    }
}
