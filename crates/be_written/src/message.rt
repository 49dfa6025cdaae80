ghost use Rattle.std.specs.Prelude.{◌≡◌, ◌++◌, ◌∷◌, [], flat_map, OnOk};
ghost use Rattle.be_flat.specs.Codes.{code_of};
ghost use Rattle.be_message.specs.Messages as messages;
ghost use Rattle.be_message.specs.Messages.{all_values, all_fields};
ghost use Rattle.be_message.specs.Views.{seen_value, seen_values, seen_field, seen_fields};
ghost use Rattle.be_written.specs.MessageText.{bool_text, escaped, stroked, datum_text};
ghost use Rattle.be_written.specs.MessageText.{fields_text, values_text, more_text, message_text};

use crate::page::Page;
use be_geom::{NoMemory, Rect};
use be_message::{Field, Kind, Message, Value};

/// Writes the word of a message and its fields, each behind a space. It takes a time that is linear
/// in the bytes that are written, and no memory beside the page.
#[cycle(message)]
pub fn write_message(page: &mut Page, message: &Message) -> Result<(), NoMemory>
    ensures { OnOk result (page.new ≡ page.old ++ message_text message.now) }
{
    page.code(message.what())?;
    write_fields(page, message.fields())
}

#[cycle(message)]
pub(crate) fn write_fields(page: &mut Page, fields: &[Field]) -> Result<(), NoMemory>
    ensures { OnOk result (page.new
        ≡ page.old ++ fields_text (all_fields (seen_fields fields.now))) }
{
    for field in fields {
        write_field(page, field)?;
    }
    Ok(())
}

/// The name, the type's letters, and the values.
#[cycle(message)]
fn write_field(page: &mut Page, field: &Field) -> Result<(), NoMemory>
    ensures { OnOk result (page.new
        ≡ page.old ++ fields_text (all_fields (seen_field field.now ∷ []))) }
{
    page.word(field.name().as_bytes())?;
    page.text(b"=")?;
    page.text(type_letters(field.kind()))?;
    page.text(b":")?;
    write_values(page, field.values())
}

#[cycle(message)]
#[tactic(auto, unfolding(crate::specs::MessageText::values_text))]
fn write_values(page: &mut Page, values: &[Value]) -> Result<(), NoMemory>
    ensures { OnOk result (page.new
        ≡ page.old ++ values_text (all_values (seen_values values.now))) }
{
    match values {
        [] => Ok(()),
        [first, others @ ..] => {
            write_value(page, first)?;
            write_more(page, others)
        }
    }
}

/// Values behind others.
#[cycle(message)]
fn write_more(page: &mut Page, values: &[Value]) -> Result<(), NoMemory>
    ensures { OnOk result (page.new
        ≡ page.old ++ more_text (all_values (seen_values values.now))) }
{
    for value in values {
        page.text(b",")?;
        write_value(page, value)?;
    }
    Ok(())
}

#[cycle(message)]
#[tactic(auto, unfolding(crate::specs::MessageText::datum_text))]
fn write_value(page: &mut Page, value: &Value) -> Result<(), NoMemory>
    ensures { OnOk result (page.new ≡ page.old ++ datum_text (seen_value value.now)) }
{
    match value {
        Value::Bool(is_set) => page.text(bool_text(*is_set)),
        Value::Int(number) => page.signed(i64::from(*number)),
        Value::Text(text) => write_text(page, text.as_slice()),
        Value::Point(point) => write_stroked(page, point.x, point.y),
        Value::Rect(rect) => write_rect(page, *rect),
        Value::Message(message) => {
            page.text(b"(")?;
            write_message(page, message)?;
            page.text(b")")
        }
    }
}

/// The bytes of a text, those that part words and values by their codes.
pub(crate) fn write_text(page: &mut Page, text: &[u8]) -> Result<(), NoMemory>
    ensures { OnOk result (page.new ≡ page.old ++ flat_map escaped text.now) }
{
    for byte in text {
        write_byte(page, *byte)?;
    }
    Ok(())
}

fn write_byte(page: &mut Page, byte: u8) -> Result<(), NoMemory>
    ensures { OnOk result (page.new ≡ page.old ++ escaped byte) }
{
    match byte {
        b' ' => page.text(b"%20"),
        b',' => page.text(b"%2C"),
        b'%' => page.text(b"%25"),
        _ => page.text(&[byte]),
    }
}

/// The corner at the left and the top, and the one at the right and the bottom.
fn write_rect(page: &mut Page, rect: Rect) -> Result<(), NoMemory>
    ensures { OnOk result (page.new ≡ page.old ++ datum_text (messages.rect rect)) }
{
    write_stroked(page, rect.left, rect.top)?;
    page.text(b"/")?;
    write_stroked(page, rect.right, rect.bottom)
}

/// Two numbers with a stroke between them.
pub(crate) fn write_stroked(page: &mut Page, x: i16, y: i16) -> Result<(), NoMemory>
    ensures { OnOk result (page.new ≡ page.old ++ stroked x y) }
{
    page.signed(i64::from(x))?;
    page.text(b"/")?;
    page.signed(i64::from(y))
}

pub(crate) fn bool_text(is_set: bool) -> &'static [u8]
    ensures { result.now ≡ bool_text is_set }
{
    if is_set { b"true" } else { b"false" }
}

/// The four letters of a field's type.
fn type_letters(kind: Kind) -> &'static [u8]
    ensures { result.now ≡ code_of kind }
{
    match kind {
        Kind::Bool => b"BOOL",
        Kind::Int => b"LONG",
        Kind::Text => b"CSTR",
        Kind::Point => b"BPNT",
        Kind::Rect => b"RECT",
        Kind::Message => b"MSGG",
    }
}
