ghost use Rattle.be_follow.specs.Frames.{AnyWayIsTheSame};

/// Resizing a parent from one size to another and on to a third leaves a view's frame as resizing
/// it to the third at once does. Where no step leaves the range, so do the calls of `follow`.
pub fn any_way_is_the_same()
    ensures { AnyWayIsTheSame }
{}
