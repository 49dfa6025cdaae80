ghost use Rattle.std.specs.Prelude.{◌≡◌, ℕ, ℤ, ◌≤◌, Bool, List, ◌∷◌, ◌++◌, flat_map, codes, OnOk};
ghost use Rattle.std.specs.Prelude.{IfOk, if◌then◌else◌};
ghost use Rattle.std.specs.Fmt.{signed_decimal};
ghost use Rattle.be_flat.specs.Grammar.{Spells, SpellsDatum, SpellsInt, SpellsPoint, SpellsText};
ghost use Rattle.be_geom.specs.declared.rect.Rect.{Rect};
ghost use Rattle.be_lex.specs.Codes.{code_text};
ghost use Rattle.be_message.specs.declared.kind.Kind.{Kind};
ghost use Rattle.be_message.specs.Depths.{datum_depth};
ghost use Rattle.be_message.specs.Messages as messages;
ghost use Rattle.be_message.specs.Messages.{Datum, Fields, Values, all_fields};
ghost use Rattle.be_written.specs.MessageText.{bool_text, escaped, stroked, datum_text};
ghost use Rattle.be_written.specs.MessageText.{fields_text, values_text, more_text};
ghost use Rattle.be_written.specs.Spelt.{Leaves, StartsDatum, StartsField, StartsFields};
ghost use Rattle.be_written.specs.Spelt.{StartsValues};

use crate::cut::{byte_of, coordinate_of, cut, int_of, kind_of, length_of, word_of};
use crate::message::{bool_text, write_stroked, write_text};
use crate::page::Page;
use be_geom::NoMemory;
use be_message::Kind;

/// How deep messages may lie within the fields of one.
const MOST_INNER: u8 = 15;

/// The word of the message that the bytes spell.
pub(crate) fn spelt_word(bytes: &[u8]) -> u32
    ensures { (m : messages.Message) → Spells bytes.now m → result ≡ m.what }
{
    let (word, _rest) = cut(bytes, 4);
    word_of(word)
}

/// Writes the fields of the message that the bytes spell.
pub(crate) fn write_spelt(page: &mut Page, bytes: &[u8]) -> Result<(), NoMemory>
    ensures { OnOk result ((m : messages.Message) → Spells bytes.now m
        → page.new ≡ page.old ++ fields_text (all_fields m.fields)) }
{
    let (_word, rest) = cut(bytes, 4);
    let (count, rest) = cut(rest, 1);
    write_spelt_fields(page, rest, byte_of(count), MOST_INNER)?;
    Ok(())
}

// Each of these gives the bytes that are left.

/// So many fields, in which messages lie at most so many deep.
#[cycle(spelt)]
fn write_spelt_fields<'a>(
    page: &mut Page,
    bytes: &'a [u8],
    count: u8,
    levels: u8,
) -> Result<&'a [u8], NoMemory>
    ensures { (fs : Fields) (behind : List ℕ) → StartsFields bytes.now levels count fs behind
        → IfOk result (λ rest. Leaves page.old (fields_text fs) behind page.new rest.now) }
{
    let mut rest = bytes;
    for _field in 0..count {
        rest = write_spelt_field(page, rest, levels)?;
    }
    Ok(rest)
}

/// A field: its name, its type's letters and its values.
#[cycle(spelt)]
fn write_spelt_field<'a>(page: &mut Page, bytes: &'a [u8], levels: u8) -> Result<&'a [u8], NoMemory>
    ensures { (name : List ℕ) (kind : Kind) (vs : Values) (behind : List ℕ)
        → StartsField bytes.now levels name kind vs behind
        → IfOk result (λ rest. Leaves page.old
        (fields_text (messages.field name kind vs messages.no_fields))
        behind page.new rest.now) }
{
    let (letters, rest) = cut(bytes, 4);
    let (length, rest) = cut(rest, 1);
    let (name, rest) = cut(rest, usize::from(byte_of(length)));
    let (count, rest) = cut(rest, 1);
    page.word(name)?;
    page.text(b"=")?;
    page.text(letters)?;
    page.text(b":")?;
    write_spelt_values(page, kind_of(letters), rest, byte_of(count), levels)
}

/// So many values of a type, with commas between them.
#[cycle(spelt)]
fn write_spelt_values<'a>(
    page: &mut Page,
    kind: Kind,
    bytes: &'a [u8],
    count: u8,
    levels: u8,
) -> Result<&'a [u8], NoMemory>
    ensures { (vs : Values) (behind : List ℕ) → StartsValues bytes.now levels kind count vs behind
        → IfOk result (λ rest. Leaves page.old (values_text vs) behind page.new rest.now) }
{
    if count == 0 {
        return Ok(bytes);
    }
    let rest = write_spelt_value(page, kind, bytes, levels)?;
    write_spelt_more(page, kind, rest, count - 1, levels)
}

/// Values behind others.
#[cycle(spelt)]
fn write_spelt_more<'a>(
    page: &mut Page,
    kind: Kind,
    bytes: &'a [u8],
    count: u8,
    levels: u8,
) -> Result<&'a [u8], NoMemory>
    ensures { (vs : Values) (behind : List ℕ) → StartsValues bytes.now levels kind count vs behind
        → IfOk result (λ rest. Leaves page.old (more_text vs) behind page.new rest.now) }
{
    let mut rest = bytes;
    for _value in 0..count {
        page.text(b",")?;
        rest = write_spelt_value(page, kind, rest, levels)?;
    }
    Ok(rest)
}

#[cycle(spelt)]
fn write_spelt_value<'a>(
    page: &mut Page,
    kind: Kind,
    bytes: &'a [u8],
    levels: u8,
) -> Result<&'a [u8], NoMemory>
    ensures { (d : Datum) (behind : List ℕ) → StartsDatum bytes.now levels kind d behind
        → IfOk result (λ rest. Leaves page.old (datum_text d) behind page.new rest.now) }
{
    match kind {
        Kind::Bool => write_spelt_bool(page, bytes),
        Kind::Int => write_spelt_int(page, bytes),
        Kind::Text => write_spelt_text(page, bytes),
        Kind::Point => write_spelt_point(page, bytes),
        Kind::Rect => write_spelt_rect(page, bytes),
        Kind::Message => write_spelt_inner(page, bytes, levels),
    }
}

/// A message in brackets.
#[cycle(spelt)]
fn write_spelt_inner<'a>(page: &mut Page, bytes: &'a [u8], levels: u8) -> Result<&'a [u8], NoMemory>
    ensures { (what : ℕ) (fs : Fields) (front behind : List ℕ) → bytes.now ≡ front ++ behind
        → SpellsDatum front (messages.message what fs)
        → datum_depth (messages.message what fs) ≤ levels
        → IfOk result (λ rest. Leaves page.old
        (datum_text (messages.message what fs)) behind page.new rest.now) }
{
    if levels == 0 {
        return Ok(bytes);
    }
    let (word, rest) = cut(bytes, 4);
    let (count, rest) = cut(rest, 1);
    page.text(b"(")?;
    page.code(word_of(word))?;
    let rest = write_spelt_fields(page, rest, byte_of(count), levels - 1)?;
    page.text(b")")?;
    Ok(rest)
}

fn write_spelt_bool<'a>(page: &mut Page, bytes: &'a [u8]) -> Result<&'a [u8], NoMemory>
    ensures { (b : Bool) (behind : List ℕ) → bytes.now ≡ (if b then 1 else 0) ∷ behind
        → IfOk result (λ rest. Leaves page.old (bool_text b) behind page.new rest.now) }
{
    let (byte, rest) = cut(bytes, 1);
    page.text(bool_text(byte_of(byte) == 1))?;
    Ok(rest)
}

fn write_spelt_int<'a>(page: &mut Page, bytes: &'a [u8]) -> Result<&'a [u8], NoMemory>
    ensures { (z : ℤ) (front behind : List ℕ) → bytes.now ≡ front ++ behind → SpellsInt front z
        → IfOk result (λ rest. Leaves page.old (signed_decimal z) behind page.new rest.now) }
{
    let (number, rest) = cut(bytes, 4);
    page.signed(i64::from(int_of(number)))?;
    Ok(rest)
}

fn write_spelt_text<'a>(page: &mut Page, bytes: &'a [u8]) -> Result<&'a [u8], NoMemory>
    ensures { (t front behind : List ℕ) → bytes.now ≡ front ++ behind → SpellsText front t
        → IfOk result (λ rest. Leaves page.old (flat_map escaped t) behind page.new rest.now) }
{
    let (length, rest) = cut(bytes, 2);
    let (text, rest) = cut(rest, usize::from(length_of(length)));
    write_text(page, text)?;
    Ok(rest)
}

fn write_spelt_point<'a>(page: &mut Page, bytes: &'a [u8]) -> Result<&'a [u8], NoMemory>
    ensures { (x y : ℤ) (front behind : List ℕ) → bytes.now ≡ front ++ behind
        → SpellsPoint front x y
        → IfOk result (λ rest. Leaves page.old (stroked x y) behind page.new rest.now) }
{
    let (x, rest) = cut(bytes, 2);
    let (y, rest) = cut(rest, 2);
    write_stroked(page, coordinate_of(x), coordinate_of(y))?;
    Ok(rest)
}

fn write_spelt_rect<'a>(page: &mut Page, bytes: &'a [u8]) -> Result<&'a [u8], NoMemory>
    ensures { (r : Rect) (front behind : List ℕ) → bytes.now ≡ front ++ behind
        → SpellsDatum front (messages.rect r)
        → IfOk result (λ rest. Leaves page.old
        (datum_text (messages.rect r)) behind page.new rest.now) }
{
    let rest = write_spelt_point(page, bytes)?;
    page.text(b"/")?;
    write_spelt_point(page, rest)
}
