ghost use Rattle.be_views.specs.Ways.{AnyWayIsTheSame};

/// Resizing a window to one size and on to another leaves its views as resizing it to the other at
/// once does, where no step leaves the range; and then the one is refused where the other is.
pub fn any_way_is_the_same()
    ensures { AnyWayIsTheSame }
{}
