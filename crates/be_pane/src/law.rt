ghost use Rattle.be_pane.specs.Laws.{OwedByPixels, NotedAsPosted};

/// A notice is owed exactly where a pixel of the window waits, no session is open and no notice was
/// posted that hasn't begun.
pub fn a_notice_is_owed_by_pixels()
    ensures { OwedByPixels }
{}

/// A pane that stands for a window stands for it with a notice once one is noted, and nothing else
/// changes.
pub fn a_posted_notice_is_noted()
    ensures { NotedAsPosted }
{}
