ghost use Rattle.std.specs.Prelude.{◌≡◌, true, None, IfOk, OnOk};
ghost use Rattle.std.specs.Option.{option_copied};
ghost use Rattle.be_message.specs.Fields.{add_refusal, with_value};
ghost use Rattle.be_message.specs.Names.{is_name};
ghost use Rattle.be_message.specs.Views.{seen_value};
ghost use Rattle.be_actor.specs.Conditions.{keeps_fields, HasCurrent};
ghost use Rattle.be_actor.specs.Drafts.{filled, with_word};
ghost use Rattle.be_actor.specs.DraftViews.{seen_word};
ghost use Rattle.be_actor.specs.Filling.{FitsInto};

use crate::{Draft, FieldWord};
use be_geom::NoMemory;
use be_message::{AddFault, Message, Text, Value};
use std::alloc::Global;
use std::str;

impl Draft {
    /// The message that it stands for, beside the current one. It takes memory for each word, and
    /// for the current message where that is copied.
    pub fn filled(&self, alloc: Global, current: Option<&Message>) -> Result<Message, NoMemory>
        requires fields { keeps_fields self.now ≡ true }
        requires current { HasCurrent self.now.words (option_copied current) }
        ensures { IfOk result (λ message. message ≡ filled self.now (option_copied current.entry)) }
    {
        let mut message = Message::new(alloc, self.what);
        for word in &self.words {
            put_word(alloc, &mut message, word, current)?;
        }
        Ok(message)
    }
}

fn put_word(
    alloc: Global,
    message: &mut Message,
    word: &FieldWord,
    current: Option<&Message>,
) -> Result<(), NoMemory>
    requires { FitsInto (option_copied current) message.old (seen_word word.now) }
    ensures { OnOk result (message.new
        ≡ with_word (option_copied current.entry) message.old (seen_word word.now)) }
{
    match (word, current) {
        (FieldWord::Value(name, value), _) => put_value(message, name, value.copy(alloc)?),
        (FieldWord::Current(name), Some(current)) => {
            let value = Value::Message(Box::new(alloc, current.copy()?)?);
            put_value(message, name, value)
        }
        (FieldWord::Copied(name), Some(current)) => message.copy_field(current, name_of(name)),
        (FieldWord::Current(_) | FieldWord::Copied(_), None) => unreachable!(),
    }
}

fn put_value(message: &mut Message, name: &Text, value: Value) -> Result<(), NoMemory>
    requires name { is_name name.now ≡ true }
    requires taken { add_refusal message.old name.now (seen_value value) ≡ None }
    ensures { OnOk result (message.new ≡ with_value message.old name.now (seen_value value)) }
{
    match message.add(name_of(name), value) {
        Ok(()) => Ok(()),
        Err(AddFault::NoMemory(_)) => Err(NoMemory),
        Err(_) => unreachable!(),
    }
}

// A field's name as text.
fn name_of(name: &Text) -> &str
    requires { is_name name.now ≡ true }
    ensures { result.now ≡ name.now }
{
    str::from_utf8(name.as_slice()).unwrap()
}
