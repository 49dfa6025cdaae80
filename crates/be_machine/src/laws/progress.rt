ghost use Rattle.be_machine.specs.Laws.{SomeEntryIsLegal, FinishedEndsInStop, StopFinishes};
ghost use Rattle.be_machine.specs.Laws.{NoneFollows, StopWantsRest, EachSeedHasOne, NoSeedHasTwo};

/// Every legal history goes on until Stop: in a state that hasn't stopped some activity has a legal
/// entry.
///
/// Locks, links without room, waits for replies and events that wait for an application's end never
/// hold each other up.
pub fn no_history_is_stuck()
    ensures { SomeEntryIsLegal }
{}

/// Stop is the last entry of a finished history, and nothing follows it.
///
/// A legal history is finished exactly where its last entry is Stop. Then no activity has a legal
/// act. Stop is legal only where every application is at its end, every event is used, every looper
/// is free, and no letter, no command and no notice is on its way.
pub fn nothing_follows_stop()
    ensures ends_in_stop { FinishedEndsInStop }
    ensures is_finished { StopFinishes }
    ensures none_follows { NoneFollows }
    ensures all_rest { StopWantsRest }
{}

/// For each seed there is exactly one finished history that is scheduled by it.
///
/// A schedule chooses at each turn among all legal entries: the first for seed 0, for any other
/// seed the one that a row of random numbers from it chooses.
pub fn each_seed_has_one_history()
    ensures there { EachSeedHasOne }
    ensures alone { NoSeedHasTwo }
{}
