ghost use Rattle.std.specs.Prelude.{◌≡◌, Option, Some};
ghost use Rattle.be_actor.specs.Wishes.{wish_at};
ghost use Rattle.be_asking.specs.Wants.{wish_in};
ghost use Rattle.be_message.specs.Messages as messages;
ghost use Rattle.be_rules.specs.Own as own;

use crate::want::Request;
use be_actor::Instruction;

// A buffer holds so many commands.
pub(crate) const MOST_BUFFERED: u32 = 32;

/// What an instruction asks for at this part of it, with so many commands in the buffer of the
/// looper that its actor owns.
pub fn request(instruction: &Instruction, part: u8, buffered: u32) -> Request
    ensures { (now : Option messages.Message)
        → wish_in now result ≡ wish_at part now buffered instruction.now }
{
    match instruction {
        Instruction::Note(text) => Request::Note(text),
        Instruction::Post(window, target, draft) => Request::Post(*window, *target, draft),
        Instruction::Send(window, target, draft) if part == 0 => {
            Request::Send(*window, *target, draft)
        }
        Instruction::Send(..) => Request::Claim,
        Instruction::Reply(draft) => Request::Reply(draft),
        Instruction::Forward(window, target) => Request::Forward(*window, *target),
        Instruction::Lock(window) => Request::Lock(*window),
        Instruction::Unlock if buffered == 0 => Request::Unlock,
        Instruction::Unlock => Request::Flush,
        Instruction::Flush => Request::Flush,
        Instruction::Sync if part == 0 => Request::Flush,
        Instruction::Sync => Request::SyncDone,
        Instruction::Draw(_) if buffered >= MOST_BUFFERED => Request::Flush,
        Instruction::Draw(command) => Request::Draw(command),
    }
}

/// How full the buffer is decides what the instruction asks for.
pub(crate) fn reads_buffer(instruction: &Instruction) -> bool
    ensures { result ≡ own.reads_buffer (Some instruction.now) }
{
    matches!(instruction, Instruction::Unlock | Instruction::Draw(_))
}
