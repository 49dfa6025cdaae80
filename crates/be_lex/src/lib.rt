//! The words of a text: lines, words, numbers, names, colours, patterns, modes, four-letter codes.
//!
//! A text is cut into lines by `Lines`, and a line into words by `Words`, each from the front and
//! once. A word is then read as what it has to be: the answer `None` says that it has the wrong
//! form. A `Number` is a word of the right form, of any length; whether it lies in a range is asked
//! afterwards. Nothing here knows a statement.
//!
//! A reader looks at each byte of its word a fixed number of times and takes no memory. What is
//! written is put behind the bytes of a list, or that list stays as it was.
#![tactic(auto)]

mod code;
mod color;
mod hex_word;
mod laws;
mod line;
mod mode;
mod name;
mod number;
mod pattern;
mod word;

pub use code::{is_reserved_code, read_code, write_code};
pub use color::{read_color, read_pixel, read_rgb, write_color, write_rgb};
pub use laws::{
    a_code_has_one_word, a_color_has_one_word, a_color_is_read_back, a_line_in_front_is_read,
    a_mode_has_one_word, a_mode_is_read_back, a_name_is_a_word, a_number_has_one_word,
    a_number_is_read_back, a_pattern_is_read_back, a_space_in_front_is_passed_over,
    a_word_in_front_is_read,
};
pub use line::{Line, Lines, is_printable};
pub use mode::{read_mode, write_mode};
pub use name::{is_field_name, is_name, is_reserved_name};
pub use number::{Number, write_natural, write_number};
pub use pattern::{read_pattern, write_pattern};
pub use word::{Words, cut_at, is_passed_over};
