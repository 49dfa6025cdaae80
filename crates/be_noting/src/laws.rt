ghost use Rattle.be_noting.specs.Laws.{LawfulWithNotes, HistoriesTellAll, TurnsWithNotes};
ghost use Rattle.be_noting.specs.Laws.{GoesOnWithNotes};

use be_hall::Parts;
use be_serial::Closing;

/// Rules keep what a hall asks of rules, whatever their parts note.
pub fn notes_keep_rules_lawful<P: Parts>()
    ensures { (it : P) → LawfulWithNotes (P.machine it) }
{}

/// A legal history is one of the rules alone, and leaves each part the notes of the entries that it
/// keeps.
pub fn notes_are_kept<P: Parts>()
    ensures { (it : P) → HistoriesTellAll (P.machine it) }
{}

/// The activities of a world make the same entries where its parts keep notes.
pub fn notes_keep_activities<W: Closing>()
    ensures turns { (it : W) → TurnsWithNotes (W.machine it) (W.legal it) W.stops
        (W.activities it) }
    ensures goes_on { (it : W) → GoesOnWithNotes (W.machine it) (W.legal it) W.stops
        (W.activities it) (W.closed it) }
{}
