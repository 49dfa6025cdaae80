//! What a part in hand means once a step is made.
ghost use Rattle.std.specs.Prelude.{◌≡◌};
ghost use Rattle.be_asking.specs.declared.want.Want.{Want};
ghost use Rattle.be_hall.specs.Hands.{meant};
ghost use Rattle.be_hall.specs.Machine.{IsHeld};
ghost use Rattle.be_machine.specs.Touched as part;
ghost use Rattle.be_parts.specs.Parts.{meaning_of};
ghost use Rattle.be_rules.specs.Places.{IsPart, place_of};
ghost use Rattle.be_script.specs.Script.{declared_by};
ghost use Rattle.be_steps.specs.Steps.{IsAllowed, LeavesAt};

use be_asking::Activity;
use be_hall::Held;
use be_parts::{Meaning, Part};
use be_script::Script;
use be_told::{Told, choose};
use std::marker::Brand;
use std::snapshot::Snapshot;

/// Whose step it is, and of which part is asked.
#[derive(Drop)]
pub(crate) struct About {
    script: Snapshot<Script>,
    before: Snapshot<Snapshot<Held<Part>>>,
    who: Activity,
    place: u32,
}

/// What the part at this place means after the activity's step, by the parts in hand before it. It
/// costs nothing.
pub fn left_at(
    script: &Script,
    before: &Snapshot<Held<Part>>,
    who: Activity,
    place: u32,
) -> Told<Meaning>
    requires allowed { (want : Want)
        × IsAllowed (declared_by script.now) before.now.value.parts who want }
    requires there { (x : part.Part) × IsPart (declared_by script.now) x
        × (place ≡ place_of (declared_by script.now) x)
        × IsHeld (meant meaning_of before.now.value.parts) place }
    ensures { LeavesAt (declared_by script.now) before.now.value.parts who place result.value }
{
    let about = About {
        script: Snapshot::of(script),
        before: Snapshot::of(before),
        who,
        place,
    };
    choose::<Meaning, About, Brand>(&about)
}
