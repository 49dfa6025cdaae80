//! What holds of every legal history. Each law is the contract of a function with an empty body.

mod cells;
mod counts;
mod limits;
mod orderly;
mod pixels;
mod progress;
mod touched;

pub use cells::{
    colors_change_by_commands_and_events, commands_reach_their_view_alone,
    every_owned_pixel_has_a_view_and_a_color, what_is_exposed_is_marked,
};
pub use counts::{no_history_outgrows_its_work, numbers_stay_small};
pub use limits::{
    a_cell_is_idle_at_a_send, an_owed_notice_is_alone, messages_in_hand_are_shallow,
    no_session_is_open_at_a_begin, waiting_commands_are_within_limits,
};
pub use orderly::every_history_is_orderly;
pub use pixels::{
    a_pixel_is_changed_by_its_window_alone, commands_stay_in_their_window, drawing_leaves_marks,
    the_desktop_shows_where_no_window_is,
};
pub use progress::{each_seed_has_one_history, no_history_is_stuck, nothing_follows_stop};
pub use touched::{an_entry_leaves_what_it_does_not_touch, an_entry_reads_only_what_it_touches};
