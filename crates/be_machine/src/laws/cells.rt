ghost use Rattle.be_machine.specs.PixelLaws.{ScreenIsWhole, OwnedHaveCells, OwnedHaveViews};
ghost use Rattle.be_machine.specs.PixelLaws.{OwnedHaveColors, ExposedHaveColors};
ghost use Rattle.be_machine.specs.PixelLaws.{CommandsReachTheirView, InvalidatingStaysInside};
ghost use Rattle.be_machine.specs.PixelLaws.{ColorsChangeByFew, KeptPixelsStay, ExposedAreMarked};

/// After every legal history each pixel that a window owns has a cell, a view of the window at it,
/// and a colour of that view.
///
/// So it has after any change of any window too: what a change exposes is always given a colour and
/// a mark.
pub fn every_owned_pixel_has_a_view_and_a_color()
    ensures whole { ScreenIsWhole }
    ensures cells { OwnedHaveCells }
    ensures views { OwnedHaveViews }
    ensures colors { OwnedHaveColors }
    ensures exposed { ExposedHaveColors }
{}

/// A pixel that a command changes at a view has that view at it, and each clip of the view and an
/// open session have it.
///
/// Only to invalidate goes past clips and sessions, and to the views within the view.
pub fn commands_reach_their_view_alone()
    ensures reached { CommandsReachTheirView }
    ensures inside { InvalidatingStaysInside }
{}

/// Only commands and events change a colour.
pub fn colors_change_by_commands_and_events()
    ensures { ColorsChangeByFew }
{}

/// A pixel that a window comes to own without being moved waits to be drawn, and one that it keeps
/// while it is neither moved nor resized stays as it was.
pub fn what_is_exposed_is_marked()
    ensures kept { KeptPixelsStay }
    ensures marked { ExposedAreMarked }
{}
