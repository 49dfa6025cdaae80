//! An event of mouse or key, made ready.
ghost use Rattle.std.specs.Prelude.{IfOk, IfSome, option_map};
ghost use Rattle.be_changes.specs.Events.{IsActivation, IsAddressed};
ghost use Rattle.be_desk.specs.Desks.{desk_of};
ghost use Rattle.be_geom.specs.declared.change.Change.TheVariants.{Activate};
ghost use Rattle.be_input.specs.Seen.{seen_post};
ghost use Rattle.be_ready.specs.Happening.{DeliversIn, MayHappen};
ghost use Rattle.be_ready.specs.Plannable.{IsPlannable};
ghost use Rattle.be_script.specs.Script.{declared_by};

use crate::letters::sealed;
use crate::plans::plan_for;
use crate::there::desk_there;
use be_changes::{Activation, Addressed, Delivered};
use be_desk::{Desk, PlanFault};
use be_geom::{Change, NoMemory};
use be_hall::Held;
use be_input::{Event, Post, deliver};
use be_parts::Part;
use be_port::{Duty, Sender};
use be_script::Script;
use std::alloc::Global;

/// Makes ready an event of mouse or key: the letters of its messages, the window that it activates,
/// and what is remembered of the pointer.
///
/// It costs the flattening of two messages at most, and a plan where a window is activated.
pub fn delivered(
    alloc: Global,
    script: &Script,
    held: &Held<Part>,
    event: &Event,
) -> Result<Delivered, NoMemory>
    requires { MayHappen (declared_by script.now) held.now.parts event.now }
    ensures { IfOk result (DeliversIn (declared_by script.now) held.now.parts event.now) }
{
    let known = desk_there(script, held).desk();
    let delivery = deliver(alloc, &known.stack, &known.pointing, event)?;
    let first = addressed(alloc, &delivery.first)?;
    let second = addressed(alloc, &delivery.second)?;
    let activation = activation(alloc, script, held, known, delivery.activate)?;
    Ok(Delivered {
        first,
        second,
        activation,
        under: delivery.under,
    })
}

/// The letter of a message that an event posts, where it posts one.
fn addressed(alloc: Global, post: &Option<Post>) -> Result<Option<Addressed>, NoMemory>
    ensures { IfOk result (IsAddressed (option_map seen_post post.now)) }
{
    let Some(post) = post else {
        return Ok(None);
    };
    let letter = sealed(
        alloc,
        Sender::Input,
        post.target,
        0,
        Duty::Free,
        &post.message,
    )?;
    Ok(Some(Addressed {
        window: post.window,
        letter,
    }))
}

/// The plan for a window that an event activates. None where it activates none, or the desk
/// refuses.
fn activation(
    alloc: Global,
    script: &Script,
    held: &Held<Part>,
    known: &Desk,
    active: Option<u16>,
) -> Result<Option<Activation>, NoMemory>
    requires { IfSome active (λ w.
        IsPlannable (declared_by script.now) held.now.parts (desk_of known.now) w Activate) }
    ensures { IfOk result (IsActivation (declared_by script.now) held.now.parts (desk_of known.now)
        active) }
{
    let Some(w) = active else {
        return Ok(None);
    };
    match plan_for(alloc, script, held, known, w, &Change::Activate) {
        Ok((plan, places)) => Ok(Some(Activation { plan, places })),
        Err(PlanFault::NoMemory) => Err(NoMemory),
        Err(PlanFault::Gone | PlanFault::OffRange) => Ok(None),
    }
}
