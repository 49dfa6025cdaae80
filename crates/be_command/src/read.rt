ghost use Rattle.std.specs.Prelude.{◌≡◌, ◌<◌, length, OnSome};
ghost use Rattle.std.specs.Option.{option_and_then};
ghost use Rattle.be_command.specs.Forms.{first_word_of};
ghost use Rattle.be_command.specs.Places.{word_at, after_word};
ghost use Rattle.be_command.specs.Reading.{line_start, command_of, IsRead};

use crate::Command;
use crate::fault::{CommandFault, Fault, Reason};
use crate::first_word::FirstWord;
use crate::names::Names;
use crate::reading::Reading;
use be_lex::Words;
use std::alloc::Global;

/// The command that a line is, by the names that were added; the line stands without its line feed.
///
/// A line is refused for the first of UnknownWord, Shape, Range and UnknownName that holds anywhere
/// in it. It costs a few steps for each byte, and `text` and `clip` alone take memory.
pub fn read_command(alloc: Global, line: &[u8], names: &Names) -> Result<Command, CommandFault>
    ensures { IsRead result line.now (command_of names.now line.now) }
{
    let mut words = Words::of(line);
    let Some(word) = first_word(&mut words) else {
        return Err(CommandFault::BadCommand {
            at: 0,
            reason: Reason::UnknownWord,
        });
    };
    let mut reading = Reading::behind_first(words);
    let command = reading.command(alloc, word, names)?;
    match reading.finish() {
        None => Ok(command),
        Some(Fault { at, reason }) => Err(CommandFault::BadCommand { at, reason }),
    }
}

// What a line begins with, where that is the first word of a command.
fn first_word(line: &mut Words<'_>) -> Option<FirstWord>
    ensures word { result ≡ option_and_then first_word_of (word_at (line_start line.old)) }
    ensures after { OnSome result
        (record { text = line.new; place = 1 } ≡ after_word (line_start line.old)) }
    ensures shorter { OnSome result (length line.new < length line.old) }
{
    let word = line.next()?;
    FirstWord::of(word)
}
