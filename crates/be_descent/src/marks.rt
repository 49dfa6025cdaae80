ghost use Rattle.be_descent.specs.Marks.{MarksStay};

/// Painting by a rule that leaves the mark of each cell leaves the number of pixels that wait. The
/// call does nothing, and is there for its clause.
pub fn marks_stay()
    ensures { MarksStay }
{}
