ghost use Rattle.be_machine.specs.Laws.{FewLettersArrive, FewCommandsAreMade, FewEventsAreUsed};
ghost use Rattle.be_machine.specs.Laws.{WorkBoundsEntries};

/// No number of a legal history outgrows its entries: at most two letters arrive at a port with
/// each of them, and at most one command is made and one event used.
pub fn numbers_stay_small()
    ensures arrived { FewLettersArrive }
    ensures made { FewCommandsAreMade }
    ensures used { FewEventsAreUsed }
{}

/// A legal history has at most as many entries as its script's work, so that every run comes to its
/// end.
pub fn no_history_outgrows_its_work()
    ensures { WorkBoundsEntries }
{}
