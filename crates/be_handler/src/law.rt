ghost use Rattle.be_handler.specs.Laws.{GoesToTheFirst, IsUnknownToAll, IsSkippedByFilters};

/// A message goes to the first handler that has a body for its word, of all to which any number of
/// steps lead from the target that the filters left, and it is unknown exactly where none has one.
/// So the steps that a route makes at most are enough, also where plain handlers go round in a
/// circle.
pub fn a_message_goes_to_the_first_body()
    ensures first { GoesToTheFirst }
    ensures unknown { IsUnknownToAll }
    ensures skipped { IsSkippedByFilters }
{}
