ghost use Rattle.be_machine.specs.Laws.{EachHistoryIsOrderly};

/// Every legal history is orderly, which its entries alone show.
///
/// At each window letters are taken in the order in which they arrived, and commands executed in
/// the order in which they were made, each once. From a Take to its End and from a Lock to its
/// Unlock nobody else has the looper. A message gets one reply at most, and of each kind no more
/// answers are claimed than were given. Where the last entry is Stop no letter, no command and no
/// answer is left over.
pub fn every_history_is_orderly()
    ensures { EachHistoryIsOrderly }
{}
