ghost use Rattle.be_input.specs.Laws.{HearsOfVisits};

/// While the pointer moves and nothing else changes, a view hears of visits and of nothing else:
/// that the pointer entered it, any number of times that it is inside, and that it exited, and so
/// again. The first visit has no entry where the pointer was in the view before, and the last no
/// exit where it still is.
pub fn a_view_hears_of_visits()
    ensures { HearsOfVisits }
{}
