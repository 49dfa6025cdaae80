ghost use Rattle.std.specs.Prelude.{◌≡◌, true, slice_get, IfOk};
ghost use Rattle.std.specs.Option.{option_copied, IfSome};
ghost use Rattle.be_actor.specs.Conditions.{are_kept, draft_of, is_kept, is_place, HasCurrent};
ghost use Rattle.be_actor.specs.Conditions.{HasCurrentAt};
ghost use Rattle.be_actor.specs.Wishes.{wish_at, wish_of};

use crate::{Instruction, Place, Program, Wish};
use be_geom::NoMemory;
use be_message::{Message, Text};
use std::alloc::Global;

// A buffer holds so many commands.
const MOST_BUFFERED: u32 = 32;

/// What an actor at a place of its program asks for next, or None at the program's end. The message
/// is the one that its body handles, if it is a body's, and `buffered` the length of the buffer of
/// the looper that the actor owns, 0 where it owns none.
///
/// It looks at one instruction, and takes memory for what the wish has alone: a copy of a note's
/// text, of a command's text or rectangles, or the message, in steps for each byte of it and for
/// each pair of its names.
#[tactic(auto, unfolding(crate::specs::Wishes::wish_of))]
pub fn next(
    alloc: Global,
    program: &Program,
    place: Place,
    message: Option<&Message>,
    buffered: u32,
) -> Result<Option<Wish>, NoMemory>
    requires place { is_place program.now place ≡ true }
    requires drafts { are_kept program.now ≡ true }
    requires message { HasCurrentAt (slice_get program.now place.step)
        (option_copied message) }
    ensures { IfOk result (λ wish. wish
        ≡ wish_of program.now place (option_copied message.entry) buffered) }
{
    match program.steps.get(place.step as usize) {
        Some(at) => Ok(Some(wish_at(alloc, at, place.part, message, buffered)?)),
        None => Ok(None),
    }
}

fn wish_at(
    alloc: Global,
    at: &Instruction,
    part: u8,
    message: Option<&Message>,
    buffered: u32,
) -> Result<Wish, NoMemory>
    requires draft { is_kept (draft_of at.now) ≡ true }
    requires message { IfSome (draft_of at.now)
        (λ draft. HasCurrent draft.words (option_copied message)) }
    ensures { IfOk result (λ wish. wish
        ≡ wish_at part (option_copied message.entry) buffered at.now) }
{
    Ok(match at {
        Instruction::Note(text) => Wish::Note(Text::new(alloc, text.as_slice())?),
        Instruction::Post(window, target, draft) => {
            Wish::Post(*window, *target, draft.filled(alloc, message)?)
        }
        Instruction::Send(window, target, draft) if part == 0 => {
            Wish::Send(*window, *target, draft.filled(alloc, message)?)
        }
        Instruction::Send(..) => Wish::Claim,
        Instruction::Reply(draft) => Wish::Reply(draft.filled(alloc, message)?),
        Instruction::Forward(window, target) => Wish::Forward(*window, *target),
        Instruction::Lock(window) => Wish::Lock(*window),
        Instruction::Unlock if buffered == 0 => Wish::Unlock,
        Instruction::Unlock => Wish::Flush,
        Instruction::Flush => Wish::Flush,
        Instruction::Sync if part == 0 => Wish::Flush,
        Instruction::Sync => Wish::SyncDone,
        Instruction::Draw(_) if buffered >= MOST_BUFFERED => Wish::Flush,
        Instruction::Draw(command) => Wish::Draw(command.copy(alloc)?),
    })
}
