ghost use Rattle.be_summary.specs.Laws.{CountsEachOnce};

/// The colours of some cells are as many as stand in a list that has these and no other, each once.
pub fn a_color_counts_once()
    ensures { CountsEachOnce }
{}
