ghost use Rattle.be_control.specs.Laws.{SaidWithTwo};

/// A letter invokes a button by the rule that goes through the letters one by one exactly where it
/// does by the rule with two letters: it is a release, some earlier letter is a press, and none
/// between them breaks it.
pub fn two_letters_invoke()
    ensures { SaidWithTwo }
{}
