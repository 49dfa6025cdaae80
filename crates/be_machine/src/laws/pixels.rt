ghost use Rattle.be_machine.specs.Laws.{PixelsStayBeside, DesktopShows, CommandsStayInside};
ghost use Rattle.be_machine.specs.Laws.{DrawingLeavesMarks};

/// A pixel that stays with its window changes only by an entry of that window's looper or twin.
///
/// So no drawing, update or change of one window shows in another. Where a pixel changes hands, the
/// rule of changes says what it becomes.
pub fn a_pixel_is_changed_by_its_window_alone()
    ensures { PixelsStayBeside }
{}

/// After every legal history a pixel that no window owns has the desktop's colour, and doesn't wait
/// to be drawn.
pub fn the_desktop_shows_where_no_window_is()
    ensures { DesktopShows }
{}

/// What a command does at a view leaves each pixel that its window doesn't own, copying and
/// invalidating included.
pub fn commands_stay_in_their_window()
    ensures { CommandsStayInside }
{}

/// What draws leaves the mark of every pixel of the screen: only what is exposed waits to be drawn.
pub fn drawing_leaves_marks()
    ensures { DrawingLeavesMarks }
{}
