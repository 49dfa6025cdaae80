ghost use Rattle.be_machine.specs.Laws.{UntouchedStays, WantedAfterBoth, LegalAfterBoth};
ghost use Rattle.be_machine.specs.Laws.{MakesTheSame, TouchesTheSame};

/// A legal entry leaves each part as it was that the table of touched parts doesn't name for it.
///
/// The part of a window's pane has its left top, its views and its pixels: those that it owns
/// before or after keep their owner and their cell.
pub fn an_entry_leaves_what_it_does_not_touch()
    ensures { UntouchedStays }
{}

/// A legal entry reads only what it touches: where those parts are the same after two legal
/// histories of one script, it is legal after both, for the same want, touches the same, and makes
/// the same of each part that is the same.
///
/// So whoever holds the touched parts knows whether the entry is legal and what it makes of them.
pub fn an_entry_reads_only_what_it_touches()
    ensures wanted { WantedAfterBoth }
    ensures legal { LegalAfterBoth }
    ensures kept { MakesTheSame }
    ensures touches { TouchesTheSame }
{}
