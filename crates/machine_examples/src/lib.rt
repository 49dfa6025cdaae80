//! Examples of the window machine, worked out by computing with its definitions: nothing of the
//! server runs here.
//!
//! Each function has an empty body; its contract says what the machine makes of one script.
#![tactic(auto)]

ghost use Rattle.machine_examples.specs.OneWindow as one_window_example;
ghost use Rattle.machine_examples.specs.OneWindowSeed7 as one_window_by_seed_7_example;
ghost use Rattle.machine_examples.specs.CoveredFill as covered_fill_example;
ghost use Rattle.machine_examples.specs.SecondUpdate as second_update_example;
ghost use Rattle.machine_examples.specs.MovedWindow as moved_window_example;
ghost use Rattle.machine_examples.specs.SentBehind as sent_behind_example;
ghost use Rattle.machine_examples.specs.RefusedResize as refused_resize_example;
ghost use Rattle.machine_examples.specs.Wider as wider_example;
ghost use Rattle.machine_examples.specs.SlantedLine as slanted_line_example;
ghost use Rattle.machine_examples.specs.Replies as replies_example;
ghost use Rattle.machine_examples.specs.Presses as presses_example;
ghost use Rattle.machine_examples.specs.LaterChild as later_child_example;
ghost use Rattle.machine_examples.specs.SavedStates as saved_states_example;
ghost use Rattle.machine_examples.specs.DrawnBitmap as drawn_bitmap_example;
ghost use Rattle.machine_examples.specs.CopiedPixels as copied_pixels_example;
ghost use Rattle.machine_examples.specs.PostedToAndFro as posted_to_and_fro_example;
ghost use Rattle.machine_examples.specs.TakenAfterClose as taken_after_close_example;
ghost use Rattle.machine_examples.specs.Order as order_example;
ghost use Rattle.machine_examples.specs.Views as views_example;
ghost use Rattle.machine_examples.specs.LawsAtWork as laws_at_work_example;
ghost use Rattle.machine_examples.specs.KeptPixels as kept_pixels_example;

/// A window is shown and filled: its update comes between the two commands.
pub fn one_window()
    ensures { one_window_example.Holds }
{}

/// The script of `one_window`, with the turns that seed 7 chooses.
pub fn one_window_by_seed_7()
    ensures { one_window_by_seed_7_example.Holds }
{}

/// A window behind another fills all of itself: the pixels that the other owns stay.
pub fn covered_fill()
    ensures { covered_fill_example.Holds }
{}

/// A window that is uncovered in part draws only that part in its second update.
pub fn second_update()
    ensures { second_update_example.Holds }
{}

/// A window that moves brings its pixels along; the one that it uncovers is the desktop's.
pub fn moved_window()
    ensures { moved_window_example.Holds }
{}

/// A window that is sent behind another shows it.
pub fn sent_behind()
    ensures { sent_behind_example.Holds }
{}

/// A resize that would bring a view out of the range is refused, and changes nothing.
pub fn refused_resize()
    ensures { refused_resize_example.Holds }
{}

/// A view follows a window that grows.
pub fn wider()
    ensures { wider_example.Holds }
{}

/// A line with a slope.
pub fn slanted_line()
    ensures { slanted_line_example.Holds }
{}

/// A message that nobody understands, one that gets no reply, and one that gets its reply and a
/// second one.
pub fn replies()
    ensures { replies_example.Holds }
{}

/// Presses on an inactive window, on the active one, and on one that accepts the first click.
pub fn presses()
    ensures { presses_example.Holds }
{}

/// Of two children that hold a pixel the one declared later has it.
pub fn later_child()
    ensures { later_child_example.Holds }
{}

/// A pop with nothing saved, and one push too many.
pub fn saved_states()
    ensures { saved_states_example.Holds }
{}

/// A bitmap with a transparent pixel.
pub fn drawn_bitmap()
    ensures { drawn_bitmap_example.Holds }
{}

/// Copied pixels are the old ones; one that another window owns is no source.
pub fn copied_pixels()
    ensures { copied_pixels_example.Holds }
{}

/// Two windows post to one another until the eighth message is too deep.
pub fn posted_to_and_fro()
    ensures { posted_to_and_fro_example.Holds }
{}

/// Letters that had arrived at a closed window are taken, and no later one arrives.
pub fn taken_after_close()
    ensures { taken_after_close_example.Holds }
{}

/// The history of the first example is orderly at its window, and one entry out of order isn't.
pub fn one_window_in_order()
    ensures { order_example.Holds }
{}

/// Which view is at a pixel, where views are, which pixels two lines have, and four pixels of a
/// letter.
pub fn views_and_lines()
    ensures { views_example.Holds }
{}

/// A window with a child is shown, filled and updated, and an application sends: what the laws of
/// pixels and limits say.
pub fn laws_at_work()
    ensures { laws_at_work_example.Holds }
{}

/// A child is filled and invalidated, and a second window covers it: what changes, and what stays.
pub fn kept_pixels()
    ensures { kept_pixels_example.Holds }
{}
