ghost use Rattle.be_update.specs.Laws.{BegunAsTheMachine, FoundAsTheMachine, ListedAsDirty};
ghost use Rattle.be_update.specs.Laws.{OwedAsTheMachine, PassedAsTheMachine, StaysWhole};
ghost use Rattle.be_update.specs.Laws.{SurveyedForEach};

/// The pixels that the machine lists as waiting are those that the window owns and that wait.
pub fn waiting_pixels_are_listed()
    ensures { ListedAsDirty }
{}

/// What `survey` asks of a pane it finds as the machine has it: whether a session is open, and
/// whether a pixel waits.
pub fn a_pane_is_found_as_its_window()
    ensures { FoundAsTheMachine }
{}

/// A survey of a pane is one of each that stands for the same window.
pub fn a_survey_is_for_each_pane_of_its_window()
    ensures { SurveyedForEach }
{}

/// A pane owes a notice of an update exactly where the window for which it stands is owed one.
pub fn a_notice_is_owed_in_the_window()
    ensures { OwedAsTheMachine }
{}

/// A pane that stands for a window stands, once an update has begun, for the window with a session
/// of all pixels that waited, and the views listed are the machine's.
pub fn an_update_begins_in_the_window()
    ensures { BegunAsTheMachine }
{}

/// A pane that stands for a window stands for it once the notice is passed over in both.
pub fn a_notice_is_passed_over_in_the_window()
    ensures { PassedAsTheMachine }
{}

/// A pane that is whole stays so once an update has begun or was passed over.
pub fn a_whole_pane_stays_whole()
    ensures { StaysWhole }
{}
