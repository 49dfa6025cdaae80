//! The reply that an application claims.
ghost use Rattle.std.specs.Prelude.{IfOk};
ghost use Rattle.be_asking.specs.declared.activity.Activity.TheVariants as who;
ghost use Rattle.be_asking.specs.declared.activity.Runner.TheVariants as by;
ghost use Rattle.be_asking.specs.declared.want.Request.TheVariants as request;
ghost use Rattle.be_asking.specs.declared.want.Want.TheVariants as want;
ghost use Rattle.be_noted.specs.Noted.{IsNoted};
ghost use Rattle.be_parts.specs.Kept.{note_in};
ghost use Rattle.be_script.specs.Script.{declared_by};
ghost use Rattle.be_steps.specs.Steps.{IsAllowed};

use crate::text::text_of;
use be_asking::{Runner, find_cell};
use be_geom::NoMemory;
use be_hall::Held;
use be_parts::Part;
use be_script::Script;
use be_written::{Note, Said};
use std::alloc::Global;

/// What application `m` notes of the reply that it claims.
pub(crate) fn note_claim(
    alloc: Global,
    script: &Script,
    held: &Held<Part>,
    m: u16,
) -> Result<Option<Vec<u8>>, NoMemory>
    requires { IsAllowed (declared_by script.now) held.now.parts (who.Runner (by.App m))
        (want.Asks (by.App m) request.Claim) }
    ensures { IfOk result (λ note. IsNoted (declared_by script.now) held.now.parts
        (who.Runner (by.App m)) (note_in note)) }
{
    let Ok(part) = find_cell(script, held, m) else {
        unreachable!()
    };
    match part.cell().peek() {
        Some(reply) => {
            let note = Note::Got(Said::Whole(reply));
            Ok(Some(text_of(alloc, script, Runner::App(m), &note)?))
        }
        None => Ok(None),
    }
}
