ghost use Rattle.be_desk.specs.Laws.{CarriedAsTheMachine, EachPixelOnce, OthersAsTheMachine};
ghost use Rattle.be_desk.specs.Laws.{PanesAreWhole, PanesShowAScreen, PlannedForEach};

/// A pane that stands for its window stands for it once a change is carried out, where the machine
/// has it then, with the pixels that the rule of changes gives.
pub fn a_change_is_carried_out_in_the_windows()
    ensures { CarriedAsTheMachine }
{}

/// A change that is planned with a pane may be carried out on any that stands for the same window.
pub fn a_plan_is_for_each_pane_of_its_window()
    ensures { PlannedForEach }
{}

/// The pane of a window that `affected` doesn't name stands for its window after the change as it
/// is.
pub fn other_windows_stay()
    ensures { OthersAsTheMachine }
{}

/// No pixel is in the panes of two windows, and one that no window owns is the desktop's on the
/// machine's screen.
pub fn each_pixel_is_of_one_window()
    ensures { EachPixelOnce }
{}

/// Panes of different windows show a screen, of which a plan with them speaks.
pub fn panes_of_a_desk_show_a_screen()
    ensures { PanesShowAScreen }
{}

/// A pane with the pixels of its window has none outside its root's frame, so that the window can
/// be drawn on and updated.
pub fn panes_of_a_desk_are_whole()
    ensures { PanesAreWhole }
{}
