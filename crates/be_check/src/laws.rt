ghost use Rattle.be_check.specs.Laws.{FinishedOrIllegal, NotBoth, OneAlone, ItChanged, NoneBehind};

// What holds of histories that are checked. Each law is the contract of a function with an empty
// body.

/// Each history is finished, or illegal at just one number.
pub fn a_history_is_finished_or_illegal()
    ensures one { FinishedOrIllegal }
    ensures not_both { NotBoth }
    ensures alone { OneAlone }
{}

/// The entry that explains a pixel changed its colour, and none behind it did.
pub fn the_entry_told_is_the_last_that_changed_a_pixel()
    ensures changed { ItChanged }
    ensures behind { NoneBehind }
{}
