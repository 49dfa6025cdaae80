ghost use Rattle.std.specs.Prelude.{◌≡◌, [], true, None, Some, Ok, IfOk, OnOk, IfErr, OnErr};
ghost use Rattle.be_message.specs.Faults.{IsAddFault, IsReplaceFault};
ghost use Rattle.be_message.specs.Fields.{refused_by, with_one_more, found_in, is_allowed};
ghost use Rattle.be_message.specs.Fields.{unless_found, with_other};
ghost use Rattle.be_message.specs.Sound.{kind_of, IsSound};
ghost use Rattle.be_message.specs.Views.{seen_value, seen_values, seen_field, Gives};

use crate::fault::{AddFault, FindFault, ReplaceFault};
use crate::kind::Kind;
use crate::value::Value;
use be_geom::NoMemory;
use std::alloc::Global;
use std::mem;

/// A field of a message: values of one type under a name.
#[cycle(message)]
#[derive(Debug, Drop)]
pub struct Field {
    name: String,
    kind: Kind,
    values: Vec<Value>,
}

const MOST_VALUES: usize = 255;

impl Field {
    /// The name.
    pub fn name(&self) -> &str
        ensures { result.now ≡ (seen_field self.now).name }
    {
        self.name.as_str()
    }

    /// The type of its values.
    pub fn kind(&self) -> Kind
        ensures { result ≡ (seen_field self.now).kind }
    {
        self.kind
    }

    /// The values in the order in which they were added.
    pub fn values(&self) -> &[Value]
        ensures { seen_values result.now ≡ (seen_field self.now).values }
    {
        self.values.as_slice()
    }

    /// Adds a value, the last.
    pub(crate) fn add(&mut self, value: Value) -> Result<(), AddFault>
        ensures ok { OnOk result
            (refused_by 0 (Some (seen_field self.old)) (seen_value value) ≡ None) }
        ensures added { OnOk result
            (seen_field self.new ≡ with_one_more (seen_value value) (seen_field self.old)) }
        ensures err { IfErr result
            (λ fault. IsAddFault fault value
            (refused_by 0 (Some (seen_field self.old)) (seen_value value))) }
        ensures stays { OnErr result (seen_field self.new ≡ seen_field self.old) }
    {
        if !self.kind.is(value.kind()) {
            return Err(AddFault::BadType(value));
        }
        if self.values.len() >= MOST_VALUES {
            return Err(AddFault::TooMany(value));
        }
        match self.values.push(value) {
            Ok(()) => Ok(()),
            Err(failed) => Err(AddFault::NoMemory(failed.value)),
        }
    }

    /// A field that waits for its first value.
    pub(crate) fn without_values(alloc: Global, name: &str, kind: Kind) -> Result<Field, NoMemory>
        ensures { IfOk result
            (λ field. seen_field field ≡ record { name = name.now; kind = kind; values = [] }) }
    {
        Ok(Field {
            name: String::from_str(alloc, name)?,
            kind,
            values: Vec::with_capacity(alloc, 1)?,
        })
    }

    /// The value of this number.
    pub(crate) fn value(&self, kind: Kind, index: usize) -> Result<&Value, FindFault>
        ensures { Gives (λ value. seen_value value.now) result
            (found_in (Some (seen_field self.now)) kind index) }
    {
        if !self.kind.is(kind) {
            return Err(FindFault::BadType);
        }
        self.values.get(index).ok_or(FindFault::BadIndex)
    }

    /// Puts a value in the place of the one of this number, and gives that one.
    pub(crate) fn replace(&mut self, index: usize, value: Value) -> Result<Value, ReplaceFault>
        ensures old { IfOk result
            (λ old. found_in (Some (seen_field self.old)) (kind_of (seen_value value)) index
            ≡ Ok (seen_value old)) }
        ensures ok { OnOk result
            (unless_found (found_in (Some (seen_field self.old)) (kind_of (seen_value value)) index)
            (seen_value value) ≡ None) }
        ensures sound { OnOk result (IsSound (seen_value value)) }
        ensures replaced { OnOk result
            (seen_field self.new ≡ with_other index (seen_value value) (seen_field self.old)) }
        ensures err { IfErr result
            (λ fault. IsReplaceFault fault value
            (unless_found (found_in (Some (seen_field self.old)) (kind_of (seen_value value)) index)
            (seen_value value))) }
        ensures stays { OnErr result (self.new ≡ self.old) }
    {
        if !self.kind.is(value.kind()) {
            return Err(ReplaceFault::BadType(value));
        }
        if index >= self.values.len() {
            return Err(ReplaceFault::BadIndex(value));
        }
        if !value.is_allowed() {
            return Err(ReplaceFault::BadValue(value));
        }
        Ok(mem::replace(&mut self.values[index], value))
    }

    /// A field with this name, type and values, in memory of its own.
    #[cycle(copy)]
    pub(crate) fn copy(&self) -> Result<Field, NoMemory>
        ensures { IfOk result (λ field. seen_field field ≡ seen_field self.now) }
    {
        let alloc = *self.values.allocator();
        let mut values = Vec::with_capacity(alloc, self.values.len())?;
        for value in &self.values {
            values.push(value.copy(alloc)?)?;
        }
        Ok(Field {
            name: String::from_str(alloc, &self.name)?,
            kind: self.kind,
            values,
        })
    }
}
