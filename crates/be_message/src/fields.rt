ghost use Rattle.std.specs.Prelude.{◌≡◌, ◌≤◌, ◌++◌, ◌∷◌, [], None, Ok, IfOk, IfErr, OnOk, OnErr};
ghost use Rattle.std.specs.Prelude.{length};
ghost use Rattle.be_message.specs.Depths.{fields_depth, values_depth};
ghost use Rattle.be_message.specs.Fields.{field_named, found_in, refused_by, unless_found};
ghost use Rattle.be_message.specs.Fields.{new_field, with_value_in, changed_at, with_other};
ghost use Rattle.be_message.specs.Faults.{IsAddFault, IsReplaceFault};
ghost use Rattle.be_message.specs.Limits.{most_depth};
ghost use Rattle.be_message.specs.Messages.{all_fields, all_values};
ghost use Rattle.be_message.specs.Places.{IsPlaceOf};
ghost use Rattle.be_message.specs.Sound.{kind_of, IsSound, AreSoundFields};
ghost use Rattle.be_message.specs.Views.{seen_value, seen_values, seen_fields};

use crate::fault::{AddFault, ReplaceFault};
use crate::field::Field;
use crate::value::Value;

const MOST_FIELDS: usize = 255;

/// Where the field of the name is. The one that was added last is looked at first.
pub(crate) fn place_of(fields: &[Field], name: &str) -> Option<usize>
    ensures { IsPlaceOf name.now (seen_fields fields.now) result }
{
    let mut place = fields.len();
    while place > 0 {
        place -= 1;
        if fields[place].name() == name {
            return Some(place);
        }
    }
    None
}

/// Adds a value under a name, which may be new.
pub(crate) fn add_value(fields: &mut Vec<Field>, name: &str, value: Value) -> Result<(), AddFault>
    requires { AreSoundFields (all_fields (seen_fields fields.old.items)) }
    ensures ok { OnOk result
        (refused_by (length fields.old.items) (field_named name.now (seen_fields fields.old.items))
        (seen_value value) ≡ None) }
    ensures added { OnOk result
        (seen_fields fields.new.items
        ≡ with_value_in (seen_fields fields.old.items) name.now (seen_value value)) }
    ensures err { IfErr result
        (λ fault. IsAddFault fault value
        (refused_by (length fields.old.items) (field_named name.now (seen_fields fields.old.items))
        (seen_value value))) }
    ensures stays { OnErr result (seen_fields fields.new.items ≡ seen_fields fields.old.items) }
{
    match place_of(fields, name) {
        Some(place) => fields[place].add(value),
        None => add_field(fields, name, value),
    }
}

/// Adds a field with one value, the last.
fn add_field(fields: &mut Vec<Field>, name: &str, value: Value) -> Result<(), AddFault>
    ensures ok { OnOk result (refused_by (length fields.old.items) None (seen_value value) ≡ None) }
    ensures added { OnOk result
        (seen_fields fields.new.items
        ≡ seen_fields fields.old.items ++ new_field name.now (seen_value value) ∷ []) }
    ensures err { IfErr result
        (λ fault. IsAddFault fault value
        (refused_by (length fields.old.items) None (seen_value value))) }
    ensures stays { OnErr result (fields.new.items ≡ fields.old.items) }
{
    if fields.len() >= MOST_FIELDS {
        return Err(AddFault::TooMany(value));
    }
    let Ok(field) = Field::without_values(*fields.allocator(), name, value.kind()) else {
        return Err(AddFault::NoMemory(value));
    };
    if fields.push(field).is_err() {
        return Err(AddFault::NoMemory(value));
    }
    let last = fields.len() - 1;
    match fields[last].add(value) {
        Ok(()) => Ok(()),
        Err(fault) => {
            fields.pop();
            Err(fault)
        }
    }
}

/// Puts a value in the place of one of the same type, and gives that one.
pub(crate) fn replace_value(
    fields: &mut Vec<Field>,
    name: &str,
    index: usize,
    value: Value,
) -> Result<Value, ReplaceFault>
    requires { AreSoundFields (all_fields (seen_fields fields.old.items)) }
    ensures ok { OnOk result
        (unless_found (found_in (field_named name.now (seen_fields fields.old.items))
        (kind_of (seen_value value)) index) (seen_value value) ≡ None) }
    ensures sound { OnOk result (IsSound (seen_value value)) }
    ensures old { IfOk result
        (λ old. found_in (field_named name.now (seen_fields fields.old.items))
        (kind_of (seen_value value)) index ≡ Ok (seen_value old)) }
    ensures replaced { OnOk result
        (seen_fields fields.new.items
        ≡ changed_at name.now (with_other index (seen_value value))
        (seen_fields fields.old.items)) }
    ensures err { IfErr result
        (λ fault. IsReplaceFault fault value
        (unless_found (found_in (field_named name.now (seen_fields fields.old.items))
        (kind_of (seen_value value)) index) (seen_value value))) }
    ensures stays { OnErr result (seen_fields fields.new.items ≡ seen_fields fields.old.items) }
{
    match place_of(fields, name) {
        Some(place) => fields[place].replace(index, value),
        None => Err(ReplaceFault::NameNotFound(value)),
    }
}

/// How many messages lie within one another in the fields.
pub(crate) fn depth_within(fields: &[Field]) -> u8
    ensures depth { result ≡ fields_depth (all_fields (seen_fields fields.now)) }
    ensures most { result ≤ most_depth }
{
    let mut depth = 0;
    for field in fields {
        depth = depth.max(depth_of_values(field.values()));
    }
    depth
}

/// How many messages lie within one another in the values.
pub(crate) fn depth_of_values(values: &[Value]) -> u8
    ensures depth { result ≡ values_depth (all_values (seen_values values.now)) }
    ensures most { result ≤ most_depth }
{
    let mut depth = 0;
    for value in values {
        depth = depth.max(value.depth());
    }
    depth
}
