ghost use Rattle.std.specs.Prelude.{◌≡◌, true, IfOk, OnErr};
ghost use Rattle.std.specs.Option.{is_some, option_map};
ghost use Rattle.be_command.specs.Copies.{keeps_a_list};

use crate::{Clip, Command, CommandText};
use be_geom::NoMemory;
use std::alloc::Global;

impl Command {
    /// An equal command. Only a text and the rectangles of a clip take memory.
    pub fn copy(&self, alloc: Global) -> Result<Command, NoMemory>
        ensures same { IfOk result (λ command. command ≡ self.now) }
        ensures memory { OnErr result (keeps_a_list self.now ≡ true) }
    {
        Ok(match self {
            Command::Fill(view, rect, pattern) => Command::Fill(*view, *rect, *pattern),
            Command::Frame(view, rect, pattern) => Command::Frame(*view, *rect, *pattern),
            Command::Line(view, from, to, pattern) => Command::Line(*view, *from, *to, *pattern),
            Command::Text(view, text) => {
                Command::Text(*view, CommandText::of(alloc, text.as_slice())?)
            }
            Command::Bitmap(view, bitmap, at) => Command::Bitmap(*view, *bitmap, *at),
            Command::High(view, color) => Command::High(*view, *color),
            Command::Low(view, color) => Command::Low(*view, *color),
            Command::ViewColor(view, color) => Command::ViewColor(*view, *color),
            Command::Mode(view, mode) => Command::Mode(*view, *mode),
            Command::PenSize(view, size) => Command::PenSize(*view, *size),
            Command::Pen(view, at) => Command::Pen(*view, *at),
            Command::Origin(view, at) => Command::Origin(*view, *at),
            Command::Clip(view, clip) => Command::Clip(*view, copy_clip(alloc, clip)?),
            Command::Push(view) => Command::Push(*view),
            Command::Pop(view) => Command::Pop(*view),
            Command::CopyBits(view, source, target) => Command::CopyBits(*view, *source, *target),
            Command::Invalidate(view, rect) => Command::Invalidate(*view, *rect),
            Command::Change(change) => Command::Change(*change),
            Command::EndUpdate => Command::EndUpdate,
        })
    }
}

// The same clip, or none.
fn copy_clip(alloc: Global, clip: &Option<Clip>) -> Result<Option<Clip>, NoMemory>
    ensures same { IfOk result (λ copy. copy ≡ clip.now) }
    ensures memory { OnErr result (is_some clip.now ≡ true) }
{
    Ok(match clip {
        Some(clip) => Some(clip.copy(alloc)?),
        None => None,
    })
}
