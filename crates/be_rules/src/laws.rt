ghost use Rattle.be_hall.specs.Machine.{Lawful};
ghost use Rattle.be_rules.specs.Laws.{SlicesAreTheState, OpeningIsSound, OpeningIsWithinWork};
ghost use Rattle.be_rules.specs.Laws.{OneListTellsAll, NextIsKnown, NextFits, WantsAreKnown};
ghost use Rattle.be_rules.specs.Laws.{PartsAreTheScripts, PartsAreNeeded, WaitingIsKnown};
ghost use Rattle.be_rules.specs.Laws.{EndingIsKnown, AllPartsTell, AlteredAreNeeded};
ghost use Rattle.be_rules.specs.Laws.{ActivatedAreNeeded, NobodyIsStuck, StopStops, NothingFollows};
ghost use Rattle.be_rules.specs.Laws.{LastOneStops};
ghost use Rattle.be_rules.specs.Rules.{world_machine};
ghost use Rattle.be_script.specs.Script.{Declared};

/// The rules keep what a hall asks of rules, whatever the script.
pub fn the_rules_are_lawful()
    ensures { (d : Declared) → Lawful (world_machine d) }
{}

/// Nothing is lost where a state is cut into slices.
pub fn slices_are_the_state()
    ensures { SlicesAreTheState }
{}

/// A run may begin with the slices of the opening.
pub fn the_opening_is_sound()
    ensures sound { OpeningIsSound }
    ensures work { OpeningIsWithinWork }
{}

/// Whoever has the parts that an entry touches knows that it is legal, and what it makes of them.
pub fn one_list_tells_all()
    ensures ready { OneListTellsAll }
    ensures next { NextIsKnown }
    ensures fits { NextFits }
{}

/// Whoever has an activity's own parts knows what it wants; which parts beside them it touches is
/// seen in the parts in hand.
pub fn own_parts_tell_what_is_wanted()
    ensures wants { WantsAreKnown }
    ensures parts { PartsAreTheScripts }
    ensures needs { PartsAreNeeded }
    ensures waits { WaitingIsKnown }
    ensures ends { EndingIsKnown }
    ensures all { AllPartsTell }
{}

/// The panes of the windows that a change alters are known once the desk is in hand.
pub fn altered_panes_are_needed()
    ensures changed { AlteredAreNeeded }
    ensures activated { ActivatedAreNeeded }
{}

/// A run goes on until Stop, and no further.
pub fn nobody_is_stuck()
    ensures stuck { NobodyIsStuck }
    ensures stops { StopStops }
    ensures follows { NothingFollows }
    ensures last { LastOneStops }
{}
