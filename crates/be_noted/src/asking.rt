//! What is noted of an instruction's requests.
ghost use Rattle.std.specs.Prelude.{IfOk};
ghost use Rattle.be_asking.specs.declared.activity.Activity.TheVariants as who;
ghost use Rattle.be_asking.specs.declared.activity.Runner.TheVariants as by;
ghost use Rattle.be_asking.specs.declared.want.Request.TheVariants as request;
ghost use Rattle.be_asking.specs.declared.want.Want.TheVariants as want;
ghost use Rattle.be_noted.specs.Noted.{IsNoted};
ghost use Rattle.be_parts.specs.Kept.{note_in};
ghost use Rattle.be_script.specs.Script.{declared_by};
ghost use Rattle.be_steps.specs.Steps.{IsAllowed};
ghost use Rattle.be_world.specs.Suits.{IsSuited};

use crate::claiming::note_claim;
use crate::replying::note_reply;
use crate::text::text_of;
use be_actor::Draft;
use be_asking::{Request, Runner};
use be_geom::NoMemory;
use be_hall::Held;
use be_parts::Part;
use be_script::Script;
use be_world::Work;
use be_written::Note;
use std::alloc::Global;

/// What a runner notes of what an instruction asks for.
pub(crate) fn note_request(
    alloc: Global,
    script: &Script,
    held: &Held<Part>,
    runner: Runner,
    request: Request,
    made: &Work,
) -> Result<Option<Vec<u8>>, NoMemory>
    requires allowed { IsAllowed (declared_by script.now) held.now.parts (who.Runner runner)
        (want.Asks runner request) }
    requires suits { IsSuited (declared_by script.now) held.now.parts (who.Runner runner)
        (want.Asks runner request) made.now }
    ensures { IfOk result (λ note. IsNoted (declared_by script.now) held.now.parts
        (who.Runner runner) (note_in note)) }
{
    match request {
        Request::Note(word) => {
            let note = Note::Word(word.as_slice());
            Ok(Some(text_of(alloc, script, runner, &note)?))
        }
        Request::Claim => match runner {
            Runner::App(m) => note_claim(alloc, script, held, m),
            Runner::Looper(_) => unreachable!(),
        },
        Request::Reply(draft) => match runner {
            Runner::Looper(w) => note_made_reply(alloc, script, held, w, draft, made),
            Runner::App(_) => unreachable!(),
        },
        _ => Ok(None),
    }
}

fn note_made_reply(
    alloc: Global,
    script: &Script,
    held: &Held<Part>,
    w: u16,
    draft: &Draft,
    made: &Work,
) -> Result<Option<Vec<u8>>, NoMemory>
    requires allowed { IsAllowed (declared_by script.now) held.now.parts
        (who.Runner (by.Looper w)) (want.Asks (by.Looper w) (request.Reply draft)) }
    requires suits { IsSuited (declared_by script.now) held.now.parts
        (who.Runner (by.Looper w)) (want.Asks (by.Looper w) (request.Reply draft)) made.now }
    ensures { IfOk result (λ note. IsNoted (declared_by script.now) held.now.parts
        (who.Runner (by.Looper w)) (note_in note)) }
{
    match made {
        Work::Reply(message) => note_reply(alloc, script, held, w, draft, message),
        _ => unreachable!(),
    }
}
