//! The panes of the windows that an activation alters.
ghost use Rattle.std.specs.Prelude.{◌≡◌, ◌<◌, length, IfOk, IfSome, MatchOption};
ghost use Rattle.be_asking.specs.Using.{AreInHand, AreWindows, HasActive, HasMissing, HasStirred};
ghost use Rattle.be_asking.specs.Using.{LacksActive, LacksStirred};
ghost use Rattle.be_desk.specs.Desks.{IsPaired, desk_of};
ghost use Rattle.be_hall.specs.Hands.{meant};
ghost use Rattle.be_hall.specs.Machine.{SomeFits};
ghost use Rattle.be_parts.specs.Parts.{meaning_of};
ghost use Rattle.be_rules.specs.Rules.{world_machine};
ghost use Rattle.be_script.specs.Limits.{IsWithinLimits};
ghost use Rattle.be_script.specs.Script.{declared_by};

use crate::finding::find_pane;
use be_desk::{Desk, PlanFault, affected};
use be_geom::{Change, NoMemory};
use be_hall::Held;
use be_parts::Part;
use be_script::Script;
use std::alloc::Global;

/// The place of the first pane that isn't in hand, of the window that is activated, if one is, and
/// of those that own other pixels then. None where all are.
pub(crate) fn missing_pane(
    alloc: Global,
    script: &Script,
    held: &Held<Part>,
    desk: &Desk,
    active: Option<u16>,
) -> Result<Option<u32>, NoMemory>
    requires limits { IsWithinLimits (declared_by script.now) }
    requires fitting { SomeFits (world_machine (declared_by script.now))
        (meant meaning_of held.now.parts) }
    requires paired { IsPaired (desk_of desk.now) }
    requires many { length desk.now.stack.windows ≡ length (declared_by script.now).windows }
    requires there { IfSome active (λ w. w < length (declared_by script.now).windows) }
    ensures { IfOk result (λ place. MatchOption place
        (HasActive (declared_by script.now) held.now.parts (desk_of desk.now) active)
        (LacksActive (declared_by script.now) held.now.parts (desk_of desk.now) active)) }
{
    match active {
        None => Ok(None),
        Some(w) => missing_stirred(alloc, script, held, desk, w),
    }
}

fn missing_stirred(
    alloc: Global,
    script: &Script,
    held: &Held<Part>,
    desk: &Desk,
    w: u16,
) -> Result<Option<u32>, NoMemory>
    requires limits { IsWithinLimits (declared_by script.now) }
    requires fitting { SomeFits (world_machine (declared_by script.now))
        (meant meaning_of held.now.parts) }
    requires paired { IsPaired (desk_of desk.now) }
    requires many { length desk.now.stack.windows ≡ length (declared_by script.now).windows }
    requires there { w < length (declared_by script.now).windows }
    ensures { IfOk result (λ place. MatchOption place
        (HasStirred (declared_by script.now) held.now.parts (desk_of desk.now) w)
        (LacksStirred (declared_by script.now) held.now.parts (desk_of desk.now) w)) }
{
    match affected(alloc, desk, w, &Change::Activate) {
        Ok(names) => Ok(first_missing(script, held, &names)),
        Err(PlanFault::NoMemory) => Err(NoMemory),
        Err(PlanFault::Gone | PlanFault::OffRange) => Ok(first_missing(script, held, &[w])),
    }
}

/// The place of the first pane of these windows that isn't in hand. None where all are.
fn first_missing(script: &Script, held: &Held<Part>, names: &[u16]) -> Option<u32>
    requires limits { IsWithinLimits (declared_by script.now) }
    requires fitting { SomeFits (world_machine (declared_by script.now))
        (meant meaning_of held.now.parts) }
    requires there { AreWindows (declared_by script.now) names.now }
    ensures { MatchOption result (AreInHand (declared_by script.now) held.now.parts names.now)
        (HasMissing (declared_by script.now) held.now.parts names.now) }
{
    for window in names {
        if let Err(place) = find_pane(script, held, *window) {
            return Some(place);
        }
    }
    None
}
