ghost use Rattle.be_made.specs.Laws.{MadeIsScript};

/// What is made of a number is read as a script that keeps its limits, and its work is at most
/// 16,881.
pub fn what_is_made_is_a_script()
    ensures { MadeIsScript }
{}
