ghost use Rattle.std.specs.Prelude.{◌≡◌, ◌++◌, ◌∷◌, [], true, length, IfOk, OnOk};
ghost use Rattle.std.specs.Int.{w32, to_le_bytes};
ghost use Rattle.be_message.specs.Messages as messages;
ghost use Rattle.be_message.specs.Messages.{all_values, all_fields};
ghost use Rattle.be_message.specs.Names.{is_name, is_text};
ghost use Rattle.be_message.specs.Sound.{IsSound, AreSoundFields, AreSoundValues};
ghost use Rattle.be_message.specs.Views.{seen_value, seen_field, seen_fields};
ghost use Rattle.be_flat.specs.Grammar.{Spells, SpellsDatum, SpellsFields, SpellsValues};
ghost use Rattle.be_flat.specs.Grammar.{SpellsText, SpellsInt, SpellsCoordinate, SpellsPoint};
ghost use Rattle.be_flat.specs.Writing.{Appends};

use crate::code::code_of;
use be_geom::{NoMemory, Rect};
use be_message::{Field, Message, Value};
use byteorder::{ByteOrder, LittleEndian};
use std::alloc::Global;

/// The one spelling of the message: `BMessage::Flatten`.
pub fn flatten(alloc: Global, message: &Message) -> Result<Vec<u8>, NoMemory>
    ensures { IfOk result (λ bytes. Spells bytes.items message.now) }
{
    let mut out = Vec::new(alloc);
    append_message(&mut out, message)?;
    Ok(out)
}

/// The what, the number of fields, and the fields.
#[cycle(writing)]
fn append_message(out: &mut Vec<u8>, message: &Message) -> Result<(), NoMemory>
    ensures { OnOk result
        (Appends (λ bytes. Spells bytes message.now) out.old.items out.new.items) }
{
    append_what(out, message.what())?;
    out.push(message.field_count() as u8)?;
    append_fields(out, message.fields())
}

#[cycle(writing)]
fn append_fields(out: &mut Vec<u8>, fields: &[Field]) -> Result<(), NoMemory>
    requires { AreSoundFields (all_fields (seen_fields fields.now)) }
    ensures { OnOk result
        (Appends (λ bytes. SpellsFields bytes (all_fields (seen_fields fields.now))) out.old.items
        out.new.items) }
{
    for field in fields {
        append_field(out, field)?;
    }
    Ok(())
}

/// The type's letters, the name, the number of values, and the values.
#[cycle(writing)]
fn append_field(out: &mut Vec<u8>, field: &Field) -> Result<(), NoMemory>
    requires { AreSoundFields (all_fields (seen_field field.now ∷ [])) }
    ensures { OnOk result
        (Appends (λ bytes. SpellsFields bytes (all_fields (seen_field field.now ∷ [])))
        out.old.items out.new.items) }
{
    out.extend_from_slice(code_of(field.kind()))?;
    append_name(out, field.name())?;
    out.push(field.values().len() as u8)?;
    append_values(out, field)
}

#[cycle(writing)]
fn append_values(out: &mut Vec<u8>, field: &Field) -> Result<(), NoMemory>
    requires { AreSoundValues (seen_field field.now).kind
        (all_values (seen_field field.now).values) }
    ensures { OnOk result
        (Appends (λ bytes. SpellsValues (seen_field field.now).kind bytes
        (all_values (seen_field field.now).values)) out.old.items out.new.items) }
{
    for value in field.values() {
        append_value(out, value)?;
    }
    Ok(())
}

#[cycle(writing)]
fn append_value(out: &mut Vec<u8>, value: &Value) -> Result<(), NoMemory>
    requires { IsSound (seen_value value.now) }
    ensures { OnOk result
        (Appends (λ bytes. SpellsDatum bytes (seen_value value.now)) out.old.items out.new.items) }
{
    match value {
        Value::Bool(is_set) => append_bool(out, *is_set),
        Value::Int(number) => append_int(out, *number),
        Value::Text(text) => append_text(out, text.as_slice()),
        Value::Point(point) => append_point(out, point.x, point.y),
        Value::Rect(rect) => append_rect(out, *rect),
        Value::Message(message) => append_message(out, message),
    }
}

/// The length, and then the name.
fn append_name(out: &mut Vec<u8>, name: &str) -> Result<(), NoMemory>
    requires { is_name name.now ≡ true }
    ensures { OnOk result (out.new.items ≡ out.old.items ++ length name.now ∷ name.now) }
{
    out.push(name.len() as u8)?;
    out.extend_from_slice(name.as_bytes())?;
    Ok(())
}

/// The length, and then the text.
fn append_text(out: &mut Vec<u8>, text: &[u8]) -> Result<(), NoMemory>
    requires { is_text text.now ≡ true }
    ensures { OnOk result
        (Appends (λ bytes. SpellsText bytes text.now) out.old.items out.new.items) }
{
    let mut length = [0; 2];
    LittleEndian::write_u16(&mut length, text.len() as u16);
    out.extend_from_slice(&length)?;
    out.extend_from_slice(text)?;
    Ok(())
}

fn append_what(out: &mut Vec<u8>, what: u32) -> Result<(), NoMemory>
    ensures { OnOk result (out.new.items ≡ out.old.items ++ to_le_bytes w32 what) }
{
    let mut bytes = [0; 4];
    LittleEndian::write_u32(&mut bytes, what);
    out.extend_from_slice(&bytes)?;
    Ok(())
}

fn append_bool(out: &mut Vec<u8>, is_set: bool) -> Result<(), NoMemory>
    ensures { OnOk result
        (Appends (λ bytes. SpellsDatum bytes (messages.bool is_set)) out.old.items out.new.items) }
{
    out.push(u8::from(is_set))?;
    Ok(())
}

fn append_int(out: &mut Vec<u8>, number: i32) -> Result<(), NoMemory>
    ensures { OnOk result (Appends (λ bytes. SpellsInt bytes number) out.old.items out.new.items) }
{
    let mut bytes = [0; 4];
    LittleEndian::write_i32(&mut bytes, number);
    out.extend_from_slice(&bytes)?;
    Ok(())
}

fn append_coordinate(out: &mut Vec<u8>, coordinate: i16) -> Result<(), NoMemory>
    ensures { OnOk result
        (Appends (λ bytes. SpellsCoordinate bytes coordinate) out.old.items out.new.items) }
{
    let mut bytes = [0; 2];
    LittleEndian::write_i16(&mut bytes, coordinate);
    out.extend_from_slice(&bytes)?;
    Ok(())
}

fn append_point(out: &mut Vec<u8>, x: i16, y: i16) -> Result<(), NoMemory>
    ensures { OnOk result (Appends (λ bytes. SpellsPoint bytes x y) out.old.items out.new.items) }
{
    append_coordinate(out, x)?;
    append_coordinate(out, y)
}

/// The corner at the left and the top, and the one at the right and the bottom.
fn append_rect(out: &mut Vec<u8>, rect: Rect) -> Result<(), NoMemory>
    ensures { OnOk result
        (Appends (λ bytes. SpellsDatum bytes (messages.rect rect)) out.old.items out.new.items) }
{
    append_point(out, rect.left, rect.top)?;
    append_point(out, rect.right, rect.bottom)
}
