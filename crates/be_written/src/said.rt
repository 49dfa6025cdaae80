ghost use Rattle.std.specs.Prelude.{◌≡◌, ◌++◌, OnOk};
ghost use Rattle.be_message.specs.Messages as messages;
ghost use Rattle.be_message.specs.Messages.{all_fields};
ghost use Rattle.be_written.specs.MessageText.{fields_text, message_text};
ghost use Rattle.be_written.specs.Spelt.{IsSaid};

use crate::message::write_fields;
use crate::page::Page;
use crate::spelt::{spelt_word, write_spelt};
use be_geom::NoMemory;
use be_message::Message;

/// A message, or the bytes that spell it. Its text is written in a time that is linear in that text
/// either way, and no message is made.
#[derive(Clone, Copy)]
pub enum Said<'a> {
    Whole(&'a Message),
    /// As `be_flat` flattens it.
    Spelt(&'a [u8]),
}

/// The word of a message.
pub(crate) fn said_word(said: Said<'_>) -> u32
    ensures { (m : messages.Message) → IsSaid said.entry m → result ≡ m.what }
{
    match said {
        Said::Whole(message) => message.what(),
        Said::Spelt(bytes) => spelt_word(bytes),
    }
}

/// Writes the fields of a message, each behind a space.
pub(crate) fn write_said_fields(page: &mut Page, said: Said<'_>) -> Result<(), NoMemory>
    ensures { OnOk result ((m : messages.Message) → IsSaid said.entry m
        → page.new ≡ page.old ++ fields_text (all_fields m.fields)) }
{
    match said {
        Said::Whole(message) => write_fields(page, message.fields()),
        Said::Spelt(bytes) => write_spelt(page, bytes),
    }
}

/// Writes the word of a message and its fields.
pub(crate) fn write_said(page: &mut Page, said: Said<'_>) -> Result<(), NoMemory>
    ensures { OnOk result ((m : messages.Message) → IsSaid said.entry m
        → page.new ≡ page.old ++ message_text m) }
{
    page.code(said_word(said))?;
    write_said_fields(page, said)
}
