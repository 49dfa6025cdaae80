ghost use Rattle.std.specs.Prelude.{◌≡◌, length, nat_lt, OnOk};
ghost use Rattle.be_said.specs.Begun.{seen_begun};
ghost use Rattle.be_said.specs.Fits.{HasSteps};
ghost use Rattle.be_said.specs.Judging.{is_long_draft, is_long_step, with_step};
ghost use Rattle.be_said.specs.SoFar.{steps_begun};
ghost use Rattle.be_script.specs.Programs.{lock_behind};

use crate::begun::Begun;
use be_actor::{Draft, Instruction};
use be_geom::NoMemory;

/// How many words a message may be made by.
const DRAFT_WORDS: usize = 255;

impl Begun {
    /// How many instructions were begun.
    pub(super) fn step_count(&self) -> usize
        ensures { result ≡ length (steps_begun (seen_begun self.now)) }
    {
        match self {
            Begun::HandlerBody { steps, .. }
            | Begun::DrawBody { steps, .. }
            | Begun::Program { steps, .. } => steps.len(),
            Begun::Nothing | Begun::Bitmap { .. } => 0,
        }
    }

    /// Puts an instruction behind the others.
    pub(super) fn add_step(&mut self, step: Instruction) -> Result<(), NoMemory>
        requires { HasSteps (seen_begun self.old) }
        ensures { OnOk result (seen_begun self.new ≡ with_step step (seen_begun self.old)) }
    {
        match self {
            Begun::HandlerBody { steps, .. } => steps.push(step)?,
            Begun::DrawBody { steps, .. } => steps.push(step)?,
            Begun::Program { lock, steps, .. } => {
                *lock = lock_behind(*lock, &step);
                steps.push(step)?;
            }
            Begun::Nothing | Begun::Bitmap { .. } => unreachable!(),
        }
        Ok(())
    }
}

/// The window that is locked behind an instruction.
fn lock_behind(lock: Option<u16>, step: &Instruction) -> Option<u16>
    ensures { result ≡ lock_behind lock step.now }
{
    match step {
        Instruction::Lock(window) => Some(*window),
        Instruction::Unlock => None,
        Instruction::Note(_)
        | Instruction::Post(_, _, _)
        | Instruction::Send(_, _, _)
        | Instruction::Reply(_)
        | Instruction::Forward(_, _)
        | Instruction::Flush
        | Instruction::Sync
        | Instruction::Draw(_) => lock,
    }
}

/// Whether an instruction makes a message by too many words.
pub(super) fn is_long(step: &Instruction) -> bool
    ensures { result ≡ is_long_step step.now }
{
    match step {
        Instruction::Post(_, _, draft)
        | Instruction::Send(_, _, draft)
        | Instruction::Reply(draft) => is_long_draft(draft),
        Instruction::Note(_)
        | Instruction::Forward(_, _)
        | Instruction::Lock(_)
        | Instruction::Unlock
        | Instruction::Flush
        | Instruction::Sync
        | Instruction::Draw(_) => false,
    }
}

fn is_long_draft(draft: &Draft) -> bool
    ensures { result ≡ is_long_draft draft.now }
{
    draft.words.len() > DRAFT_WORDS
}
