ghost use Rattle.std.specs.Prelude.{◌≡◌, ◌+◌, ◌-ℤ◌, ◌≤◌, [], IfOk, None, Some, pos, slice_get};
ghost use Rattle.std.specs.Prelude.{unsigned_abs};
ghost use Rattle.std.specs.Map.{lookup};
ghost use Rattle.std.specs.Option.{option_map};
ghost use Rattle.std.specs.Result.{result_err, result_map_both};
ghost use Rattle.std.specs.Str.{bytes_eq};
ghost use Rattle.be_actor.specs.DraftViews.{seen_words};
ghost use Rattle.be_command.specs.Kinds.{coordinate, formed, named, numbered};
ghost use Rattle.be_lex.specs.Words.{words_of};
ghost use Rattle.be_line.specs.Fields.{fields_said};
ghost use Rattle.be_line.specs.Kinds.{across_words, color_or_white, down_words, filter_what_said};
ghost use Rattle.be_line.specs.Kinds.{note_said, pixels_in, said_as, what_said};
ghost use Rattle.be_line.specs.Options.{options_said};
ghost use Rattle.be_said.specs.Names.{handler_names, new_name};
ghost use Rattle.be_reader.specs.Kinds.{a_rule, a_window, after, behind, ended, frame_said};
ghost use Rattle.be_reader.specs.Kinds.{handler_named, list_named, place_said, rule_by};
ghost use Rattle.be_reader.specs.Kinds.{window_frame, word_said};
ghost use Rattle.be_reader.specs.Progress.{Takes, first_reason};
ghost use Rattle.be_said.specs.SoFar.{app_names, bitmap_names, has_message, row_width, view_names};
ghost use Rattle.be_said.specs.SoFar.{window_names};

use crate::{naming, pixels, screen};
use be_actor::FieldWord;
use be_color::Color;
use be_command::Reason;
use be_follow::{Across, Down};
use be_geom::{NoMemory, Point, Rect};
use be_handler::Rule;
use be_lex::Words;
use be_line::{Options, judging, read_fields, read_options};
use be_message::Target;
use be_said::SoFar;
use std::alloc::Global;
use std::marker::Model;

/// A line behind its first word, as it is read word by word. A word against which a reason holds is
/// passed over, so that the reason of the whole line is found in one pass; something stands in for
/// what it would say.
#[derive(Drop)]
pub(crate) struct Reading<'a> {
    words: Words<'a>,
    /// The window that the line named; the names behind it are of that one.
    window: Option<u16>,
    /// All of the line.
    text: &'a [u8],
    reason: Option<Reason>,
}

impl<'a> Model for Reading<'a> {
    ghost use Rattle.be_lex.specs.Words.{words_of};
    ghost use Rattle.be_reader.specs.Progress.{Progress};

    ghost Value = { Progress };

    ghost view = { λ r. record {
      at = record { words = words_of r.words; window = r.window; text = r.text.now };
      reason = r.reason;
    } };
}

impl<'a> Reading<'a> {
    /// What stands behind the first word.
    pub(crate) fn behind_first(words: Words<'a>, text: &'a [u8]) -> Reading<'a>
        ensures { result ≡ record {
          at = record { words = words_of words.entry; window = None; text = text.now };
          reason = None;
        } }
    {
        Reading {
            words,
            window: None,
            text,
            reason: None,
        }
    }

    /// The reason of what was read, and of the words that are left.
    pub(crate) fn finish(mut self) -> Option<Reason>
        ensures { result ≡ first_reason self.entry.reason (result_err (ended self.entry.at.words)) }
    {
        if self.word().is_some() {
            self.note_reason(Reason::Shape);
        }
        self.reason
    }

    /// The next word.
    fn word(&mut self) -> Option<&'a [u8]>
        ensures word { option_map (λ word. word.now) result ≡ slice_get self.old.at.words 0 }
        ensures after { self.new ≡ record { at = behind 1 self.old.at; reason = self.old.reason } }
    {
        self.words.next()
    }

    /// What a part says, or something in its stead where a reason holds against it, which is noted.
    fn said<T>(&mut self, read: Result<T, Reason>, stead: T) -> T
    where
        T: Drop,
        ensures { Takes read self.old.at self.old self.new result }
    {
        match read {
            Ok(said) => said,
            Err(reason) => {
                self.note_reason(reason);
                stead
            }
        }
    }

    /// The same of a part that says bytes.
    #[tactic(auto, using(crate::proofs::TakesLemmas::takes_seen))]
    fn said_bytes(&mut self, read: Result<&'a [u8], Reason>) -> &'a [u8]
        ensures { Takes (result_map_both (λ bytes. bytes.now) (λ reason. reason) read.entry)
            self.old.at self.old self.new result.now }
    {
        self.said(read, b"")
    }

    fn note_reason(&mut self, reason: Reason)
        ensures { self.new ≡ record {
          at = self.old.at;
          reason = first_reason self.old.reason (Some reason);
        } }
    {
        self.reason = Some(match self.reason {
            Some(earlier) => judging::first_of(earlier, reason),
            None => reason,
        });
    }
}

/// What stands next, read as of each kind.
impl<'a> Reading<'a> {
    /// `low` is 0 or more.
    pub(crate) fn number(&mut self, low: u16, high: u16) -> u16
        ensures { Takes (said_as unsigned_abs
            (word_said (numbered (pos low) (pos high)) 0 self.old.at))
            (behind 1 self.old.at) self.old self.new result }
    {
        let read = judging::natural(self.word(), low, high);
        self.said(read, low)
    }

    fn coordinate(&mut self) -> i16
        ensures { Takes (word_said coordinate 0 self.old.at) (behind 1 self.old.at)
            self.old self.new result }
    {
        let read = judging::coordinate(self.word());
        self.said(read, 0)
    }

    pub(crate) fn frame(&mut self) -> Rect
        ensures { Takes (frame_said self.old.at) (behind 4 self.old.at) self.old self.new result }
    {
        Rect {
            left: self.coordinate(),
            top: self.coordinate(),
            right: self.coordinate(),
            bottom: self.coordinate(),
        }
    }

    /// A frame with pixels, whose edges are at most 32767 apart.
    pub(crate) fn window_frame(&mut self) -> Rect
        ensures { Takes (window_frame (frame_said self.old.at)) (behind 4 self.old.at)
            self.old self.new result }
    {
        let frame = self.frame();
        if screen::is_frame(frame) {
            return frame;
        }
        self.note_reason(Reason::Range);
        frame
    }

    /// One of so many columns or rows of the screen.
    fn pixel(&mut self, count: u16) -> i16
        requires { count ≤ 1024 }
        ensures { Takes (word_said (numbered (pos 0) (pos count -ℤ pos 1)) 0 self.old.at)
            (behind 1 self.old.at) self.old self.new result }
    {
        let read = screen::below(self.word(), count);
        self.said(read, 0)
    }

    /// A pixel of a screen that is so wide and high.
    fn pixel_of(&mut self, width: u16, height: u16) -> Point
        requires wide { width ≤ 1024 }
        requires high { height ≤ 768 }
        ensures { Takes (place_said (Some (width, height)) self.old.at) (behind 2 self.old.at)
            self.old self.new result }
    {
        Point {
            x: self.pixel(width),
            y: self.pixel(height),
        }
    }

    /// A pixel of the screen. Before the screen's line there is none.
    pub(crate) fn place(&mut self, said: &SoFar) -> Point
        ensures { Takes (place_said said.now.screen self.old.at) (behind 2 self.old.at)
            self.old self.new result }
    {
        if let Some((width, height)) = said.screen() {
            return self.pixel_of(width, height);
        }
        self.pass_two();
        self.said(Err(Reason::Range), Point { x: 0, y: 0 })
    }

    /// Passes over two words.
    fn pass_two(&mut self)
        ensures { self.new ≡ record { at = behind 2 self.old.at; reason = self.old.reason } }
    {
        self.word();
        self.word();
    }

    pub(crate) fn across(&mut self) -> Across
        ensures { Takes (word_said (λ word. formed (lookup (bytes_eq word) across_words)) 0
            self.old.at)
            (behind 1 self.old.at) self.old self.new result }
    {
        let read = judging::across(self.word());
        self.said(read, Across::Left)
    }

    pub(crate) fn down(&mut self) -> Down
        ensures { Takes (word_said (λ word. formed (lookup (bytes_eq word) down_words)) 0
            self.old.at)
            (behind 1 self.old.at) self.old self.new result }
    {
        let read = judging::down(self.word());
        self.said(read, Down::Top)
    }

    pub(crate) fn last_color(&mut self) -> Color
        ensures { Takes (color_or_white (slice_get self.old.at.words 0)) (behind 1 self.old.at)
            self.old self.new result }
    {
        let read = judging::last_color(self.word());
        self.said(read, Color::Clear)
    }

    pub(crate) fn what(&mut self) -> u32
        ensures { Takes (word_said what_said 0 self.old.at) (behind 1 self.old.at)
            self.old self.new result }
    {
        let read = judging::what(self.word());
        self.said(read, 0)
    }

    pub(crate) fn filter_what(&mut self) -> Option<u32>
        ensures { Takes (word_said filter_what_said 0 self.old.at) (behind 1 self.old.at)
            self.old self.new result }
    {
        let read = judging::filter_what(self.word());
        self.said(read, None)
    }

    /// All words that are left.
    pub(crate) fn options(&mut self) -> Options
        ensures { Takes (options_said self.old.at.words) (record self.old.at { words = [] })
            self.old self.new result }
    {
        let read = read_options(&mut self.words);
        self.said(read, Options::NONE)
    }
}

/// Names, beside those that were said so far.
impl<'a> Reading<'a> {
    pub(crate) fn new_bitmap(&mut self, said: &SoFar) -> &'a [u8]
        ensures { Takes (word_said (new_name (bitmap_names said.now)) 0 self.old.at)
            (behind 1 self.old.at) self.old self.new result.now }
    {
        let read = naming::new_bitmap(said, self.word());
        self.said_bytes(read)
    }

    pub(crate) fn new_window(&mut self, said: &SoFar) -> &'a [u8]
        ensures { Takes (word_said (new_name (window_names said.now)) 0 self.old.at)
            (behind 1 self.old.at) self.old self.new result.now }
    {
        let read = naming::new_window(said, self.word());
        self.said_bytes(read)
    }

    pub(crate) fn new_handler(&mut self, said: &SoFar) -> &'a [u8]
        ensures { Takes (word_said (new_name (handler_names said.now self.old.at.window)) 0
            self.old.at)
            (behind 1 self.old.at) self.old self.new result.now }
    {
        let read = naming::new_handler(said, self.window, self.word());
        self.said_bytes(read)
    }

    pub(crate) fn new_app(&mut self, said: &SoFar) -> &'a [u8]
        ensures { Takes (word_said (new_name (app_names said.now)) 0 self.old.at)
            (behind 1 self.old.at) self.old self.new result.now }
    {
        let read = naming::new_app(said, self.word());
        self.said_bytes(read)
    }

    /// The names behind it are of this window.
    pub(crate) fn window(&mut self, said: &SoFar) -> u16
        ensures { Takes (word_said (named (window_names said.now)) 0 self.old.at)
            (after said.now a_window self.old.at) self.old self.new result }
    {
        let read = naming::window(said, self.word());
        self.window = read.ok();
        self.said(read, 0)
    }

    pub(crate) fn view(&mut self, said: &SoFar) -> u16
        ensures { Takes (word_said (named (view_names said.now self.old.at.window)) 0 self.old.at)
            (behind 1 self.old.at) self.old self.new result }
    {
        let read = naming::view(said, self.window, self.word());
        self.said(read, 0)
    }

    pub(crate) fn app(&mut self, said: &SoFar) -> u16
        ensures { Takes (word_said (named (app_names said.now)) 0 self.old.at)
            (behind 1 self.old.at) self.old self.new result }
    {
        let read = naming::app(said, self.word());
        self.said(read, 0)
    }

    pub(crate) fn handler(&mut self, said: &SoFar) -> Target
        ensures { Takes (word_said (handler_named said.now self.old.at.window) 0 self.old.at)
            (behind 1 self.old.at) self.old self.new result }
    {
        let read = naming::handler(said, self.window, self.word());
        self.said(read, Target::Window)
    }

    pub(crate) fn list(&mut self, said: &SoFar) -> Option<Target>
        ensures { Takes (word_said (list_named said.now self.old.at.window) 0 self.old.at)
            (behind 1 self.old.at) self.old self.new result }
    {
        let read = naming::list(said, self.window, self.word());
        self.said(read, None)
    }

    /// `skip`, `pass`, or `redirect` and a handler.
    pub(crate) fn rule(&mut self, said: &SoFar) -> Rule
        ensures { Takes (word_said (rule_by said.now self.old.at) 0 self.old.at)
            (after said.now a_rule self.old.at) self.old self.new result }
    {
        let Some(word) = self.word() else {
            return self.said(Err(Reason::Shape), Rule::Pass);
        };
        if word == b"skip".as_slice() {
            return Rule::Skip;
        }
        if word == b"pass".as_slice() {
            return Rule::Pass;
        }
        if word == b"redirect".as_slice() {
            return Rule::Redirect(self.handler(said));
        }
        self.said(Err(Reason::Shape), Rule::Pass)
    }
}

/// What else stands in bitmaps, bodies and programs.
impl<'a> Reading<'a> {
    pub(crate) fn note(&mut self) -> &'a [u8]
        ensures { Takes (word_said note_said 0 self.old.at) (behind 1 self.old.at)
            self.old self.new result.now }
    {
        let read = judging::note(self.word());
        self.said_bytes(read)
    }

    /// All words that are left, as FIELDS. They take memory.
    pub(crate) fn fields(&mut self, alloc: Global, said: &SoFar) -> Result<Vec<FieldWord>, NoMemory>
        ensures { IfOk result
            (λ fields. Takes (fields_said (has_message said.now.begun) self.old.at.words)
            (record self.old.at { words = [] }) self.old self.new (seen_words fields.items)) }
    {
        let read = read_fields(alloc, &mut self.words, said.has_message())?;
        Ok(self.said(read, Vec::new(alloc)))
    }

    /// A bitmap's next row. It takes memory.
    pub(crate) fn pixels(&mut self, alloc: Global, said: &SoFar) -> Result<Vec<Color>, NoMemory>
        ensures { IfOk result (λ row. Takes
            (word_said (λ word. formed (pixels_in (row_width said.now.begun) word)) 0 self.old.at)
            (behind 1 self.old.at) self.old self.new row.items) }
    {
        let read = pixels::row(alloc, self.word(), said.row_width())?;
        Ok(self.said(read, Vec::new(alloc)))
    }
}
