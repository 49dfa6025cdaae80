//! What a twin wants, and the input, and who closes.
ghost use Rattle.std.specs.Prelude.{◌≡◌, Some, option_map, slice_get};
ghost use Rattle.be_asking.specs.Wants.{IsWanted};
ghost use Rattle.be_hall.specs.Hands.{meant};
ghost use Rattle.be_hall.specs.Machine.{SomeFits};
ghost use Rattle.be_machine.specs.Activities as machine;
ghost use Rattle.be_parts.specs.Parts.{meaning_of};
ghost use Rattle.be_rules.specs.Rules.{world_machine};
ghost use Rattle.be_script.specs.Limits.{IsWithinLimits};
ghost use Rattle.be_script.specs.Script.{declared_by};

use crate::places::{input_place, pane_place};
use crate::want::{Want, Wanted};
use be_hall::Held;
use be_parts::{Part, input_in_hand, pane_in_hand};
use be_script::{InputLine, Script};
use be_update::{a_notice_is_owed_in_the_window, waiting_pixels_are_listed};

/// What the twin of a window wants, by the window's pane. A notice that is owed comes before any
/// command.
pub(crate) fn wanted_by_twin<'a>(
    script: &'a Script,
    held: &Held<Part>,
    number: u32,
    window: u16,
) -> Wanted<'a>
    requires limits { IsWithinLimits (declared_by script.now) }
    requires number { machine.activity_of (declared_by script.now) number
        ≡ Some (machine.twin window) }
    requires fitting { SomeFits (world_machine (declared_by script.now))
        (meant meaning_of held.now.parts) }
    ensures { IsWanted (declared_by script.now) (meant meaning_of held.now.parts) number
        (machine.twin window) result }
{
    let place = pane_place(script, window);
    let Some(pane) = pane_in_hand(held, place) else {
        return Wanted::Needs(place);
    };
    a_notice_is_owed_in_the_window();
    waiting_pixels_are_listed();
    if pane.pane().is_owed() {
        return Wanted::Wants(Want::Notifies(window));
    }
    Wanted::Wants(Want::Executes(window))
}

/// What the input wants: its next line.
pub(crate) fn wanted_by_input<'a>(script: &'a Script, held: &Held<Part>, number: u32) -> Wanted<'a>
    requires number { machine.activity_of (declared_by script.now) number ≡ Some machine.input }
    requires fitting { SomeFits (world_machine (declared_by script.now))
        (meant meaning_of held.now.parts) }
    ensures { IsWanted (declared_by script.now) (meant meaning_of held.now.parts) number
        machine.input result }
{
    let place = input_place();
    let Some(input) = input_in_hand(held, place) else {
        return Wanted::Needs(place);
    };
    match line_at(script, input.used()) {
        Some(line) => Wanted::Wants(Want::Uses(line)),
        None => Wanted::Nothing,
    }
}

// The line of the input of this number. None behind the last.
fn line_at(script: &Script, number: u64) -> Option<&InputLine>
    ensures { option_map (λ line. line.now) result
        ≡ slice_get (declared_by script.now).input number }
{
    script.input.get(number as usize)
}

/// What the closing activity wants: to stop.
pub(crate) fn wanted_by_closing<'a>(script: &Script, held: &Held<Part>, number: u32) -> Wanted<'a>
    requires number { machine.activity_of (declared_by script.now) number ≡ Some machine.closing }
    requires fitting { SomeFits (world_machine (declared_by script.now))
        (meant meaning_of held.now.parts) }
    ensures { IsWanted (declared_by script.now) (meant meaning_of held.now.parts) number
        machine.closing result }
{
    let place = input_place();
    match input_in_hand(held, place) {
        Some(_) => Wanted::Wants(Want::Stops),
        None => Wanted::Needs(place),
    }
}
