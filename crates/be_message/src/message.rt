ghost use Rattle.std.specs.Prelude.{◌≡◌, ◌<◌, ◌↔◌, [], ◌++◌, true, false, length, slice_get, None};
ghost use Rattle.std.specs.Prelude.{Ok, IsOk, IfOk, OnOk, IfErr, OnErr, option_to_list};
ghost use Rattle.std.specs.List.{list_any};
ghost use Rattle.std.specs.Option.{option_map};
ghost use Rattle.be_message.specs.Depths.{depth_of};
ghost use Rattle.be_message.specs.Faults.{IsAddFault, IsReplaceFault};
ghost use Rattle.be_message.specs.Fields.{count_of, field_named, has_name, found, add_refusal};
ghost use Rattle.be_message.specs.Fields.{with_value, replace_refusal, with_replaced, without};
ghost use Rattle.be_message.specs.Sound.{kind_of, IsMessage};
ghost use Rattle.be_message.specs.Views.{seen_value, seen_field, seen_fields, Gives};

use crate::fault::{AddFault, FindFault, NameNotFound, ReplaceFault};
use crate::field::Field;
use crate::fields::{add_value, depth_of_values, depth_within, place_of, replace_value};
use crate::kind::Kind;
use crate::names::is_name;
use crate::value::Value;
use be_geom::NoMemory;
use std::alloc::Global;
use std::marker::Model;

/// What one looper tells another, or itself: `BMessage`.
#[cycle(message)]
#[derive(Debug, Drop)]
pub struct Message {
    what: u32,
    /// How many messages lie within one another, itself counted.
    depth: u8,
    fields: Vec<Field>,
}

impl Model for Message {
    ghost use Rattle.std.specs.Prelude.{◌≡◌};
    ghost use Rattle.be_message.specs.Messages as messages;
    ghost use Rattle.be_message.specs.Codes.{message_code};

    ghost Value = { messages.Message };

    ghost coded = { message_code };

    ghost use Rattle.be_message.specs.Depths.{depth_of};
    ghost use Rattle.be_message.specs.Sound.{IsMessage};
    ghost use Rattle.be_message.specs.Views.{seen};

    ghost view = { seen };

    ghost invariant = { λ a. (a.depth ≡ depth_of (seen a)) × IsMessage (seen a) };

    ghost size = { depth_of };

    ghost use Rattle.std.proofs.Common.{arith};
    ghost use Rattle.be_message.specs.Sizes.{fields_fall};

    ghost size_decreases = { λ a h. omega (arith, fields_fall a.fields.items) };
}

impl Message {
    /// A message without fields.
    pub fn new(alloc: Global, what: u32) -> Message
        ensures { result ≡ record { what = what; fields = [] } }
    {
        Message {
            what,
            depth: 1,
            fields: Vec::new(alloc),
        }
    }

    /// What it is about: the four characters of a word as a big-endian number.
    pub fn what(&self) -> u32
        ensures what { result ≡ self.now.what }
        ensures limits { IsMessage self.now }
    {
        self.what
    }

    /// The fields in the order in which their names were first added.
    pub fn fields(&self) -> &[Field]
        ensures { seen_fields result.now ≡ self.now.fields }
    {
        self.fields.as_slice()
    }

    /// How many messages lie within one another, itself counted.
    pub(crate) fn depth(&self) -> u8
        ensures depth { result ≡ depth_of self.now }
        ensures limits { IsMessage self.now }
    {
        self.depth
    }

    /// The field of a name.
    fn field(&self, name: &str) -> Option<&Field>
        ensures field { option_map (λ f. seen_field f.now) result
            ≡ field_named name.now self.now.fields }
        ensures limits { IsMessage self.now }
    {
        match place_of(&self.fields, name) {
            Some(place) => Some(&self.fields[place]),
            None => None,
        }
    }

    /// How many fields there are.
    pub fn field_count(&self) -> usize
        ensures { result ≡ length self.now.fields }
    {
        self.fields.len()
    }

    /// The name of a field by its place in the order of first adding: `BMessage::GetInfo`.
    pub fn name_at(&self, place: usize) -> Option<&str>
        ensures { option_map (λ name. name.now) result
            ≡ option_map (λ f. f.name) (slice_get self.now.fields place) }
    {
        match self.fields.get(place) {
            Some(field) => Some(field.name()),
            None => None,
        }
    }

    /// How many values stand under a name, 0 where it is missing.
    pub fn count(&self, name: &str) -> usize
        ensures { result ≡ count_of (field_named name.now self.now.fields) }
    {
        match place_of(&self.fields, name) {
            Some(place) => self.fields[place].values().len(),
            None => 0,
        }
    }

    /// Whether a field has the name, whatever its type: `BMessage::HasInt32` and its kin.
    pub fn has(&self, name: &str) -> bool
        ensures { result ≡ list_any (has_name name.now) self.now.fields }
    {
        match place_of(&self.fields, name) {
            Some(_) => true,
            None => false,
        }
    }

    /// Adds a value under a name, behind those that stand there: `BMessage::AddInt32` and its kin.
    /// A new name comes behind all others. It looks at the names that there are, the newest first.
    pub fn add(&mut self, name: &str, value: Value) -> Result<(), AddFault>
        ensures ok { OnOk result (add_refusal self.old name.now (seen_value value) ≡ None) }
        ensures added { OnOk result (self.new ≡ with_value self.old name.now (seen_value value)) }
        ensures err { IfErr result
            (λ fault. IsAddFault fault value (add_refusal self.old name.now (seen_value value))) }
        ensures stays { OnErr result (self.new ≡ self.old) }
    {
        if !is_name(name.as_bytes()) {
            return Err(AddFault::BadName(value));
        }
        if !value.is_allowed() {
            return Err(AddFault::BadValue(value));
        }
        let depth = self.depth.max(value.depth() + 1);
        add_value(&mut self.fields, name, value)?;
        self.depth = depth;
        Ok(())
    }

    /// The value of this type and number, counted from 0, under a name: `BMessage::FindInt32` and
    /// its kin.
    pub fn find(&self, name: &str, kind: Kind, index: usize) -> Result<&Value, FindFault>
        ensures { Gives (λ value. seen_value value.now) result
            (found self.now name.now kind index) }
    {
        match place_of(&self.fields, name) {
            Some(place) => self.fields[place].value(kind, index),
            None => Err(FindFault::NameNotFound),
        }
    }

    /// Puts a value in the place of the one of this number and gives that one:
    /// `BMessage::ReplaceInt32` and its kin. In a message that holds messages it looks at all
    /// values.
    pub fn replace(&mut self, name: &str, index: usize, value: Value) -> Result<Value, ReplaceFault>
        ensures ok { OnOk result
            (replace_refusal self.old name.now index (seen_value value) ≡ None) }
        ensures old { IfOk result
            (λ old. found self.old name.now (kind_of (seen_value value)) index
            ≡ Ok (seen_value old)) }
        ensures replaced { OnOk result
            (self.new ≡ with_replaced self.old name.now index (seen_value value)) }
        ensures err { IfErr result
            (λ fault. IsReplaceFault fault value
            (replace_refusal self.old name.now index (seen_value value))) }
        ensures stays { OnErr result (self.new ≡ self.old) }
    {
        let deepest = self.depth.max(value.depth() + 1);
        let old = replace_value(&mut self.fields, name, index, value)?;
        if deepest > 1 {
            self.depth = depth_within(&self.fields) + 1;
        }
        Ok(old)
    }

    /// Takes a field with all its values out: `BMessage::RemoveName`.
    /// In a message that holds messages it looks at all values.
    pub fn remove(&mut self, name: &str) -> Result<(), NameNotFound>
        ensures ok { IsOk result ↔ (list_any (has_name name.now) self.old.fields ≡ true) }
        ensures removed { OnOk result (self.new ≡ without self.old name.now) }
        ensures stays { OnErr result (self.new ≡ self.old) }
    {
        let Some(place) = place_of(&self.fields, name) else {
            return Err(NameNotFound);
        };
        drop(self.fields.remove(place));
        if self.depth > 1 {
            self.depth = depth_within(&self.fields) + 1;
        }
        Ok(())
    }

    /// Adds a copy of another message's field of this name, with all its values, behind the fields
    /// that there are. Nothing is added where that one has none of the name.
    pub fn copy_field(&mut self, from: &Message, name: &str) -> Result<(), NoMemory>
        requires new { list_any (has_name name.now) self.old.fields ≡ false }
        requires room { length self.old.fields < 255 }
        ensures copied { OnOk result
            (self.new ≡ record self.old {
              fields = self.old.fields
                  ++ option_to_list (field_named name.now from.now.fields);
            }) }
        ensures stays { OnErr result (self.new ≡ self.old) }
    {
        let Some(found) = from.field(name) else {
            return Ok(());
        };
        let field = found.copy()?;
        let depth = self.depth.max(depth_of_values(field.values()) + 1);
        self.fields.push(field)?;
        self.depth = depth;
        Ok(())
    }

    /// A message of its own with the same fields.
    #[cycle(copy)]
    pub fn copy(&self) -> Result<Message, NoMemory>
        ensures { IfOk result (λ message. message ≡ self.now) }
    {
        let mut fields = Vec::with_capacity(*self.fields.allocator(), self.fields.len())?;
        for field in &self.fields {
            fields.push(field.copy()?)?;
        }
        Ok(Message {
            what: self.what,
            depth: self.depth,
            fields,
        })
    }
}
