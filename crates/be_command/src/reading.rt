ghost use Rattle.std.specs.Prelude.{◌≡◌, ◌+◌, ◌^◌, ◌<◌, length, unsigned_abs, [], None, Some, pos};
ghost use Rattle.std.specs.Prelude.{negsuc, IfOk, OnOk};
ghost use Rattle.std.specs.Option.{option_map};
ghost use Rattle.std.specs.Result.{result_err};
ghost use Rattle.be_command.specs.Faults.{first_fault, said_as};
ghost use Rattle.be_lex.specs.Colors.{color_of};
ghost use Rattle.be_lex.specs.Patterns.{pattern_of};
ghost use Rattle.be_lex.specs.Modes.{mode_of};
ghost use Rattle.be_command.specs.Kinds.{named, focus_named, numbered, coordinate, formed, pair_at};
ghost use Rattle.be_command.specs.Kinds.{after_pair, point_at, rect_at, after_rect, rest_said};
ghost use Rattle.be_command.specs.Kinds.{is_none_word, rects_at, after_rects, clip_at, after_clip};
ghost use Rattle.be_command.specs.Places.{word_at, after_word, said_at, next_said, ended};
ghost use Rattle.be_command.specs.Progress.{Takes, TakesMore};

use crate::fault::{Fault, Reason};
use crate::names::Names;
use crate::{Clip, CommandText, judging};
use be_color::{Color, Mode, Pattern};
use be_geom::{NoMemory, Point, Rect};
use be_lex::Words;
use std::alloc::Global;
use std::marker::Model;

// A line behind its first word, as it is read word by word. A word that has a fault is passed over,
// so that the fault of the whole line is found in one pass; something stands in for what it would
// say.
#[derive(Drop)]
pub(crate) struct Reading<'a> {
    words: Words<'a>,
    place: usize,
    fault: Option<Fault>,
}

impl<'a> Model for Reading<'a> {
    ghost use Rattle.std.specs.Prelude.{◌+◌, ◌^◌, ◌<◌, length};
    ghost use Rattle.be_command.specs.Progress.{Progress};

    ghost Value = { Progress };

    ghost view = { λ r. record {
      at = record { text = r.words; place = r.place };
      fault = r.fault;
    } };

    ghost invariant = { λ r. r.place + length r.words < 2 ^ 64 };
}

impl<'a> Reading<'a> {
    // What stands behind the first word.
    pub(crate) fn behind_first(words: Words<'a>) -> Reading<'a>
        requires { length words + 1 < 2 ^ 64 }
        ensures { result ≡ record { at = record { text = words.entry; place = 1 }; fault = None } }
    {
        Reading {
            words,
            place: 1,
            fault: None,
        }
    }

    // The fault of what was read, and of the words that are left.
    pub(crate) fn finish(mut self) -> Option<Fault>
        ensures { result ≡ first_fault self.entry.fault (result_err (ended self.entry.at)) }
    {
        let place = self.place;
        if self.word().is_some() {
            self.note(place, Reason::Shape);
        }
        self.fault
    }

    // The next word.
    pub(crate) fn word(&mut self) -> Option<&'a [u8]>
        ensures word { option_map (λ word. word.now) result ≡ word_at self.old.at }
        ensures after { self.new ≡ record { at = after_word self.old.at; fault = self.old.fault } }
    {
        let word = self.words.next()?;
        self.place += 1;
        Some(word)
    }

    // The next word, which stays.
    fn peek(&self) -> Option<&'a [u8]>
        ensures { option_map (λ word. word.now) result ≡ word_at self.now.at }
    {
        Words::of(self.words.rest()).next()
    }

    // What a word at this place says, or something in its stead where it has a fault, which is
    // noted.
    fn said<T>(&mut self, at: usize, read: Result<T, Reason>, stead: T) -> T
    where
        T: Drop,
        ensures { Takes (said_at at read) self.old.at self.old self.new result }
    {
        match read {
            Ok(said) => said,
            Err(reason) => {
                self.note(at, reason);
                stead
            }
        }
    }

    // A fault of the word at this place.
    fn note(&mut self, at: usize, reason: Reason)
        ensures { self.new ≡ record {
          at = self.old.at;
          fault = first_fault self.old.fault (Some (record { at = at; reason = reason }));
        } }
    {
        let fault = Fault { at, reason };
        self.fault = Some(match self.fault {
            Some(earlier) => fault.or(earlier),
            None => fault,
        });
    }
}

// What stands next, read as of each kind.
impl<'a> Reading<'a> {
    pub(crate) fn view(&mut self, names: &Names) -> u16
        ensures { Takes (next_said (named names.now.views) self.old.at) (after_word self.old.at)
            self.old self.new result }
    {
        let place = self.place;
        let read = judging::view(self.word(), names);
        self.said(place, read, 0)
    }

    pub(crate) fn window(&mut self, names: &Names) -> u16
        ensures { Takes (next_said (named names.now.windows) self.old.at) (after_word self.old.at)
            self.old self.new result }
    {
        let place = self.place;
        let read = judging::window(self.word(), names);
        self.said(place, read, 0)
    }

    pub(crate) fn bitmap(&mut self, names: &Names) -> u16
        ensures { Takes (next_said (named names.now.bitmaps) self.old.at) (after_word self.old.at)
            self.old self.new result }
    {
        let place = self.place;
        let read = judging::bitmap(self.word(), names);
        self.said(place, read, 0)
    }

    pub(crate) fn focus(&mut self, names: &Names) -> Option<u16>
        ensures { Takes (next_said (focus_named names.now.views) self.old.at)
            (after_word self.old.at) self.old self.new result }
    {
        let place = self.place;
        let read = judging::focus(self.word(), names);
        self.said(place, read, None)
    }

    fn coordinate(&mut self) -> i16
        ensures { Takes (next_said coordinate self.old.at) (after_word self.old.at)
            self.old self.new result }
    {
        let place = self.place;
        let read = judging::coordinate(self.word());
        self.said(place, read, 0)
    }

    fn number(&mut self, low: i32, high: i32) -> i32
        ensures { Takes (next_said (numbered low high) self.old.at) (after_word self.old.at)
            self.old self.new result }
    {
        let place = self.place;
        let read = judging::number(self.word(), low, high);
        self.said(place, read, low)
    }

    pub(crate) fn pattern(&mut self) -> Pattern
        ensures { Takes (next_said (λ word. formed (pattern_of word)) self.old.at)
            (after_word self.old.at) self.old self.new result }
    {
        let place = self.place;
        let read = judging::pattern(self.word());
        self.said(place, read, Pattern::LOW)
    }

    pub(crate) fn color(&mut self) -> Color
        ensures { Takes (next_said (λ word. formed (color_of word)) self.old.at)
            (after_word self.old.at) self.old self.new result }
    {
        let place = self.place;
        let read = judging::color(self.word());
        self.said(place, read, Color::Clear)
    }

    pub(crate) fn mode(&mut self) -> Mode
        ensures { Takes (next_said (λ word. formed (mode_of word)) self.old.at)
            (after_word self.old.at) self.old self.new result }
    {
        let place = self.place;
        let read = judging::mode(self.word());
        self.said(place, read, Mode::Copy)
    }

    pub(crate) fn point(&mut self) -> Point
        ensures { Takes (point_at self.old.at) (after_pair self.old.at) self.old self.new result }
    {
        Point {
            x: self.coordinate(),
            y: self.coordinate(),
        }
    }

    pub(crate) fn rect(&mut self) -> Rect
        ensures { Takes (rect_at self.old.at) (after_rect self.old.at) self.old self.new result }
    {
        Rect {
            left: self.coordinate(),
            top: self.coordinate(),
            right: self.coordinate(),
            bottom: self.coordinate(),
        }
    }

    pub(crate) fn distance(&mut self) -> (i32, i32)
        ensures { Takes (pair_at (numbered (negsuc 65534) (pos 65535)) self.old.at)
            (after_pair self.old.at) self.old self.new result }
    {
        (self.number(-65535, 65535), self.number(-65535, 65535))
    }

    pub(crate) fn size(&mut self) -> (i16, i16)
        ensures { Takes (pair_at (numbered (pos 0) (pos 32767)) self.old.at)
            (after_pair self.old.at) self.old self.new result }
    {
        (self.extent(), self.extent())
    }

    fn extent(&mut self) -> i16
        ensures { Takes (next_said (numbered (pos 0) (pos 32767)) self.old.at)
            (after_word self.old.at) self.old self.new result }
    {
        let place = self.place;
        let read = judging::extent(self.word());
        self.said(place, read, 0)
    }

    pub(crate) fn pen_size(&mut self) -> u8
        ensures { Takes (said_as unsigned_abs (next_said (numbered (pos 1) (pos 32)) self.old.at))
            (after_word self.old.at) self.old self.new result }
    {
        let place = self.place;
        let read = judging::pen_size(self.word());
        self.said(place, read, 1)
    }

    // The rest of the line. It takes memory for its bytes.
    pub(crate) fn text(&mut self, alloc: Global) -> Result<CommandText, NoMemory>
        ensures { IfOk result (λ text. Takes
            (said_at self.old.at.place (rest_said self.old.at.text))
            (record self.old.at { text = [] }) self.old self.new text) }
    {
        let place = self.place;
        let rest = self.words.rest();
        self.words = Words::of(b"");
        match judging::text(rest) {
            Ok(text) => CommandText::of(alloc, text),
            Err(reason) => {
                self.note(place, reason);
                CommandText::of(alloc, b"")
            }
        }
    }

    // `none`, or 1 to 16 rectangles. These take memory for themselves and for their pixels.
    pub(crate) fn clip(&mut self, alloc: Global) -> Result<Option<Clip>, NoMemory>
        ensures { IfOk result (λ clip. Takes (clip_at self.old.at) (after_clip self.old.at)
            self.old self.new clip) }
    {
        if self.is_none_next() {
            self.word();
            return Ok(None);
        }
        let mut rects = Vec::new(alloc);
        self.rects(16, &mut rects)?;
        Ok(Some(Clip::of(alloc, rects)?))
    }

    // Whether the next word is `none`.
    fn is_none_next(&self) -> bool
        ensures { result ≡ is_none_word (word_at self.now.at) }
    {
        match self.peek() {
            Some(word) => word == b"none".as_slice(),
            None => false,
        }
    }

    // A rectangle, and one more as long as a word is left, but at most so many. They are added to
    // those before them.
    fn rects(&mut self, most: usize, rects: &mut Vec<Rect>) -> Result<(), NoMemory>
        ensures { OnOk result (TakesMore (rects_at most self.old.at) (after_rects most self.old.at)
            self.old self.new rects.old.items rects.new.items) }
    {
        if most == 0 {
            return Ok(());
        }
        rects.push(self.rect())?;
        if self.peek().is_none() {
            return Ok(());
        }
        self.rects(most - 1, rects)
    }
}
