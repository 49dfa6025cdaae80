ghost use Rattle.std.specs.Prelude.{◌≡◌, ◌⊎◌, MatchResult};
ghost use Rattle.be_command.specs.Faults.{said_as};
ghost use Rattle.be_command.specs.Forms.{form_of};
ghost use Rattle.be_command.specs.Kinds.{said_all, after_all};
ghost use Rattle.be_command.specs.Progress.{Takes};

use crate::Command;
use crate::first_word::FirstWord;
use crate::names::Names;
use crate::reading::Reading;
use be_geom::{Change, NoMemory};
use std::alloc::Global;

impl Reading<'_> {
    // What stands behind a first word, by the form of its line. Only a text and a clip take memory.
    pub(crate) fn command(
        &mut self,
        alloc: Global,
        word: FirstWord,
        names: &Names,
    ) -> Result<Command, NoMemory>
        ensures { MatchResult result
            (λ command. Takes
            (said_as (form_of word).makes (said_all names.now (form_of word).kinds self.old.at))
            (after_all (form_of word).kinds self.old.at) self.old self.new command)
            (λ _. (word ≡ FirstWord.Text) ⊎ (word ≡ FirstWord.Clip)) }
    {
        match word {
            FirstWord::Fill => Ok(Command::Fill(self.view(names), self.rect(), self.pattern())),
            FirstWord::Frame => Ok(Command::Frame(self.view(names), self.rect(), self.pattern())),
            FirstWord::Line => Ok(Command::Line(
                self.view(names),
                self.point(),
                self.point(),
                self.pattern(),
            )),
            FirstWord::Text => Ok(Command::Text(self.view(names), self.text(alloc)?)),
            FirstWord::Bitmap => Ok(Command::Bitmap(
                self.view(names),
                self.bitmap(names),
                self.point(),
            )),
            FirstWord::High => Ok(Command::High(self.view(names), self.color())),
            FirstWord::Low => Ok(Command::Low(self.view(names), self.color())),
            FirstWord::ViewColor => Ok(Command::ViewColor(self.view(names), self.color())),
            FirstWord::Mode => Ok(Command::Mode(self.view(names), self.mode())),
            FirstWord::PenSize => Ok(Command::PenSize(self.view(names), self.pen_size())),
            FirstWord::Pen => Ok(Command::Pen(self.view(names), self.point())),
            FirstWord::Origin => Ok(Command::Origin(self.view(names), self.point())),
            FirstWord::Clip => Ok(Command::Clip(self.view(names), self.clip(alloc)?)),
            FirstWord::Push => Ok(Command::Push(self.view(names))),
            FirstWord::Pop => Ok(Command::Pop(self.view(names))),
            FirstWord::CopyBits => Ok(Command::CopyBits(
                self.view(names),
                self.rect(),
                self.point(),
            )),
            FirstWord::Invalidate => Ok(Command::Invalidate(self.view(names), self.rect())),
            FirstWord::Show => Ok(Command::Change(Change::Show)),
            FirstWord::Hide => Ok(Command::Change(Change::Hide)),
            FirstWord::MoveTo => Ok(Command::Change(Change::MoveTo(self.point()))),
            FirstWord::MoveBy => {
                let (right, down) = self.distance();
                Ok(Command::Change(Change::MoveBy(right, down)))
            }
            FirstWord::ResizeTo => {
                let (width, height) = self.size();
                Ok(Command::Change(Change::ResizeTo(width, height)))
            }
            FirstWord::Activate => Ok(Command::Change(Change::Activate)),
            FirstWord::Behind => Ok(Command::Change(Change::Behind(self.window(names)))),
            FirstWord::Focus => Ok(Command::Change(Change::Focus(self.focus(names)))),
            FirstWord::Close => Ok(Command::Change(Change::Close)),
        }
    }
}
