//! The letters that the loopers take in a finished history.
ghost use Rattle.std.specs.Prelude.{◌≡◌, ◌<◌, ◌++◌, [], length, slice_get, Some};
ghost use Rattle.std.specs.Prelude.{option_and_then, option_copied, option_map};
ghost use Rattle.std.specs.Prelude.{IfErr, IfOk, OnOk};
ghost use Rattle.std.specs.Option.{option_map_or};
ghost use Rattle.be_check.specs.Checking.{IsFaultOf};
ghost use Rattle.be_check.specs.Stepping.{HasAll};
ghost use Rattle.be_check.specs.Taking.{looper_in, IsFrontPort, TakesNow};
ghost use Rattle.be_machine.specs.Activities.{activity_of};
ghost use Rattle.be_machine.specs.History.{IsFinished};
ghost use Rattle.be_check.specs.Following.{state_in};
ghost use Rattle.be_parts.specs.Loopers.{owner_in};
ghost use Rattle.be_pressed.specs.Taken.{letters_taken, taken_from};
ghost use Rattle.be_script.specs.Limits.{IsWithinLimits};
ghost use Rattle.be_script.specs.Script.{declared_by};

use crate::fault::CheckFault;
use crate::stepping::{ends_in_stop, make_if_legal};
use be_asking::{Activity, Runner, activity_of, find_looper, find_port};
use be_flat::unflatten;
use be_geom::NoMemory;
use be_hall::Held;
use be_looper::Owner;
use be_machine::Entry;
use be_parts::Part;
use be_port::{Letter, queues_are_ports};
use be_pressed::TakenLetter;
use be_script::Script;
use be_world::World;
use std::alloc::Global;

/// The letters that the loopers of a finished history take, in its order. Each is read in the port
/// from which it is taken, and costs its bytes beside its entry.
pub fn taken(
    alloc: Global,
    world: &World,
    history: &[Entry],
) -> Result<Vec<TakenLetter>, CheckFault>
    ensures finished { IfOk result (λ _. IsFinished world.now history.now) }
    ensures letters { IfOk result
        (λ letters. letters.items ≡ letters_taken world.now history.now) }
    ensures fault { IfErr result (IsFaultOf world.now history.now) }
{
    let script = world.script();
    let opening = world.opening()?;
    let mut held = Held::whole(opening);
    let mut letters = Vec::new(alloc);
    let mut made = 0;
    for entry in history {
        add_taken(alloc, &mut letters, script, &held, entry.actor)?;
        let legal = make_if_legal(world, &mut held, entry, made)?;
        if !legal {
            return Err(CheckFault::Illegal(made + 1));
        }
        made += 1;
    }
    if !ends_in_stop(history) {
        return Err(CheckFault::Illegal(made + 1));
    }
    Ok(letters)
}

/// Adds the letter that the activity of this number takes next, if it is a looper's that may take
/// one.
fn add_taken(
    alloc: Global,
    letters: &mut Vec<TakenLetter>,
    script: &Script,
    held: &Held<Part>,
    actor: u32,
) -> Result<(), NoMemory>
    requires { HasAll (declared_by script.now) held.now.parts }
    ensures { OnOk result (TakesNow (declared_by script.now)
        (state_in (declared_by script.now) held.now.parts) actor letters.old.items
        letters.new.items) }
{
    let Some(window) = looper_of(script, actor) else {
        return Ok(());
    };
    match owner_of(script, held, window) {
        Owner::Free => add_front(alloc, letters, script, held, window),
        Owner::Own | Owner::App(_) => Ok(()),
    }
}

/// The window whose looper the activity of this number is, if it is one.
fn looper_of(script: &Script, actor: u32) -> Option<u16>
    requires { IsWithinLimits (declared_by script.now) }
    ensures { result ≡ option_and_then looper_in (activity_of (declared_by script.now) actor) }
{
    match activity_of(script, actor)? {
        Activity::Runner(Runner::Looper(window)) => Some(window),
        Activity::Runner(Runner::App(_)) | Activity::Twin(_) => None,
        Activity::Input | Activity::Closing => None,
    }
}

/// Adds the letter in front of a window's port, if there is one.
fn add_front(
    alloc: Global,
    letters: &mut Vec<TakenLetter>,
    script: &Script,
    held: &Held<Part>,
    window: u16,
) -> Result<(), NoMemory>
    requires all { HasAll (declared_by script.now) held.now.parts }
    requires there { window < length (declared_by script.now).windows }
    ensures { let s = state_in (declared_by script.now) held.now.parts in
        OnOk result (letters.new.items
        ≡ letters.old.items ++ option_map_or (taken_from window) (slice_get s.ports window) []) }
{
    queues_are_ports();
    let Some(letter) = front_of(script, held, window) else {
        return Ok(());
    };
    let Ok(message) = unflatten(alloc, letter.bytes.as_slice()) else {
        return Err(NoMemory);
    };
    letters.push(TakenLetter {
        window,
        number: letter.number,
        target: letter.target,
        message,
    })?;
    Ok(())
}

/// Who has the looper of a window.
fn owner_of(script: &Script, held: &Held<Part>, window: u16) -> Owner
    requires all { HasAll (declared_by script.now) held.now.parts }
    requires there { window < length (declared_by script.now).windows }
    ensures { let s = state_in (declared_by script.now) held.now.parts in
        Some result ≡ option_map owner_in (slice_get s.loopers window) }
{
    let Ok(part) = find_looper(script, held, window) else {
        unreachable!()
    };
    part.owner()
}

/// The letter in front of a window's port.
fn front_of<'a>(script: &Script, held: &'a Held<Part>, window: u16) -> Option<&'a Letter>
    requires all { HasAll (declared_by script.now) held.now.parts }
    requires there { window < length (declared_by script.now).windows }
    ensures { IsFrontPort (state_in (declared_by script.now) held.now.parts) window
        (option_copied result) }
{
    let Ok(part) = find_port(script, held, window) else {
        unreachable!()
    };
    part.port().front()
}
