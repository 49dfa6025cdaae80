ghost use Rattle.std.specs.Prelude.{◌≡◌, length, option_map, slice_get};
ghost use Rattle.be_archive.specs.Reading.{is_field_at, mode_at, row_at, value_count, value_of};
ghost use Rattle.be_archive.specs.Reading.{values_at};
ghost use Rattle.be_archive.specs.Rows.{seen_row};
ghost use Rattle.be_archive.specs.Values.{across_of, down_of, number_in, point_in, rect_in};
ghost use Rattle.be_message.specs.Views.{seen_fields, seen_value};

use be_follow::{Across, Down, Follow};
use be_geom::{Point, Rect};
use be_message::{Field, Kind, Value};

/// What an archive says of a further view.
#[derive(Clone, Copy)]
pub(crate) struct Row {
    pub parent: u32,
    pub frame: Rect,
    pub mode: Follow,
}

/// Whether the field of this number has this name and type.
pub(crate) fn is_field_at(fields: &[Field], place: usize, name: &str, kind: Kind) -> bool
    ensures { result ≡ is_field_at place name.now kind (seen_fields fields.now) }
{
    match fields.get(place) {
        Some(field) => field.name() == name && field.kind() == kind,
        None => false,
    }
}

/// How many values the field of this number has.
pub(crate) fn value_count(fields: &[Field], place: usize) -> usize
    ensures { result ≡ value_count place (seen_fields fields.now) }
{
    match fields.get(place) {
        Some(field) => field.values().len(),
        None => 0,
    }
}

// The value of this number in a field.
fn value_at(fields: &[Field], place: usize, number: usize) -> Option<&Value>
    ensures { option_map (λ value. seen_value value.now) result
        ≡ slice_get (values_at place (seen_fields fields.now)) number }
{
    match fields.get(place) {
        Some(field) => field.values().get(number),
        None => None,
    }
}

/// What the fields say of a further view, where the first has the number 0.
pub(crate) fn row_at(fields: &[Field], number: usize) -> Option<Row>
    ensures { option_map (λ row. seen_row row) result ≡ row_at number (seen_fields fields.now) }
{
    let parent = number_at(fields, 1, number)?;
    let frame = rect_at(fields, 2, number)?;
    let mode = mode_at(fields, number)?;
    Some(Row {
        parent,
        frame,
        mode,
    })
}

/// The size of the root.
pub(crate) fn size_at(fields: &[Field]) -> Option<Point>
    ensures { result ≡ value_of point_in 0 0 (seen_fields fields.now) }
{
    match value_at(fields, 0, 0) {
        Some(Value::Point(size)) => Some(*size),
        Some(_) => None,
        None => None,
    }
}

fn mode_at(fields: &[Field], number: usize) -> Option<Follow>
    ensures { result ≡ mode_at number (seen_fields fields.now) }
{
    let across = across_of(number_at(fields, 3, number)?)?;
    let down = down_of(number_at(fields, 4, number)?)?;
    Some(Follow { across, down })
}

fn rect_at(fields: &[Field], place: usize, number: usize) -> Option<Rect>
    ensures { result ≡ value_of rect_in place number (seen_fields fields.now) }
{
    match value_at(fields, place, number) {
        Some(Value::Rect(rect)) => Some(*rect),
        Some(_) => None,
        None => None,
    }
}

// A number that isn't below 0.
fn number_at(fields: &[Field], place: usize, number: usize) -> Option<u32>
    ensures { result ≡ value_of number_in place number (seen_fields fields.now) }
{
    match value_at(fields, place, number) {
        Some(Value::Int(value)) => u32::try_from(*value).ok(),
        Some(_) => None,
        None => None,
    }
}

fn across_of(number: u32) -> Option<Across>
    ensures { result ≡ across_of number }
{
    match number {
        0 => Some(Across::Left),
        1 => Some(Across::Right),
        2 => Some(Across::LeftRight),
        3 => Some(Across::Center),
        _ => None,
    }
}

fn down_of(number: u32) -> Option<Down>
    ensures { result ≡ down_of number }
{
    match number {
        0 => Some(Down::Top),
        1 => Some(Down::Bottom),
        2 => Some(Down::TopBottom),
        3 => Some(Down::Center),
        _ => None,
    }
}
