ghost use Rattle.std.specs.Prelude.{◌≡◌, [], pos, unsigned_abs, IsTrue, SomeIff};
ghost use Rattle.be_geom.specs.Points.{between};
ghost use Rattle.be_lex.specs.Words.{words_of};
ghost use Rattle.be_line.specs.GivenOptions.{no_option, with_option, finished};
ghost use Rattle.be_line.specs.Options.{option_of, options_said};

use be_color::{Color, Rgb};
use be_command::Reason;
use be_lex::{Number, Words, cut_at, read_color};

/// What a window is beside its name and its frame.
#[derive(Clone, Copy, Debug, PartialEq, Eq)]
pub struct Options {
    pub first_click: bool,
    pub avoid_focus: bool,
    /// How many letters its port holds.
    pub port: u8,
    /// The colour of its root view.
    pub color: Color,
}

impl Options {
    /// Those of a window that has none.
    pub const NONE: Options = Options {
        first_click: false,
        avoid_focus: false,
        port: 100,
        color: Color::Solid(Rgb::WHITE),
    };
}

/// An option; a number of letters is of any size.
#[derive(Drop)]
pub(crate) enum WindowOption<'a> {
    FirstClick,
    AvoidFocus,
    Port(Number<'a>),
    Color(Color),
}

/// The options of the words so far.
#[derive(Clone, Copy)]
pub(crate) struct Given {
    options: Options,
    has_first_click: bool,
    has_avoid_focus: bool,
    has_port: bool,
    has_color: bool,
    /// Each is an option, and stands once.
    is_formed: bool,
    is_in_range: bool,
}

/// Reads all words that are left as options, each of which stands once at most.
pub fn read_options(words: &mut Words<'_>) -> Result<Options, Reason>
    ensures said { result ≡ options_said (words_of words.old) }
    ensures none_left { words_of words.new ≡ [] }
{
    let mut given = Given::nothing();
    while let Some(word) = words.next() {
        given = given.with(option_of(word));
    }
    given.finish()
}

impl Given {
    fn nothing() -> Given
        ensures { result ≡ no_option }
    {
        Given {
            options: Options::NONE,
            has_first_click: false,
            has_avoid_focus: false,
            has_port: false,
            has_color: false,
            is_formed: true,
            is_in_range: true,
        }
    }

    /// With one word more. None stands for a word that is no option.
    fn with(self, option: Option<WindowOption<'_>>) -> Given
        ensures { result ≡ with_option self option.entry }
    {
        let mut given = self;
        match option {
            Some(WindowOption::FirstClick) => {
                given.is_formed = given.is_formed && !given.has_first_click;
                given.has_first_click = true;
                given.options.first_click = true;
            }
            Some(WindowOption::AvoidFocus) => {
                given.is_formed = given.is_formed && !given.has_avoid_focus;
                given.has_avoid_focus = true;
                given.options.avoid_focus = true;
            }
            Some(WindowOption::Port(number)) => {
                given.is_formed = given.is_formed && !given.has_port;
                given.has_port = true;
                match port_size(&number) {
                    Some(port) => given.options.port = port,
                    None => given.is_in_range = false,
                }
            }
            Some(WindowOption::Color(color)) => {
                given.is_formed = given.is_formed && !given.has_color;
                given.has_color = true;
                given.options.color = color;
            }
            None => given.is_formed = false,
        }
        given
    }

    fn finish(self) -> Result<Options, Reason>
        ensures { result ≡ finished self }
    {
        if !self.is_formed {
            Err(Reason::Shape)
        } else if !self.is_in_range {
            Err(Reason::Range)
        } else {
            Ok(self.options)
        }
    }
}

/// How many letters a port holds: 1 to 100.
fn port_size(number: &Number<'_>) -> Option<u8>
    ensures { SomeIff result (IsTrue (between (pos 1) number.now (pos 100)))
        (unsigned_abs number.now) }
{
    let size = number.between(1, 100)?;
    Some(size as u8)
}

/// What option a word is.
#[tactic(auto, unfolding(crate::specs::Options::option_of))]
fn option_of(word: &[u8]) -> Option<WindowOption<'_>>
    ensures { result ≡ option_of word.now }
{
    if word == b"firstclick".as_slice() {
        return Some(WindowOption::FirstClick);
    }
    if word == b"avoidfocus".as_slice() {
        return Some(WindowOption::AvoidFocus);
    }
    let (key, value) = cut_at(word, b'=')?;
    if key == b"port".as_slice() {
        Some(WindowOption::Port(Number::of(value)?))
    } else if key == b"color".as_slice() {
        Some(WindowOption::Color(read_color(value)?))
    } else {
        None
    }
}
