ghost use Rattle.std.specs.Prelude.{◌≡◌, ◌<◌, ◌≤◌, ◌+◌, ◌*◌, List, length, map, replicate, IfOk};
ghost use Rattle.be_machine.specs.History.{IsLegalHistory, state_after};
ghost use Rattle.be_machine.specs.declared.Entry.{Entry};
ghost use Rattle.be_parts.specs.Parts.{meaning_of};
ghost use Rattle.be_rules.specs.Rules.{IsSound};
ghost use Rattle.be_rules.specs.Slices.{slices, state_of};
ghost use Rattle.be_script.specs.Script.{declared_by};
ghost use Rattle.be_span.specs.Cells.{desktop_cell};

use crate::looks::cells_from;
use crate::stretch::{Stretch, stretch_from};
use be_color::Rgb;
use be_geom::NoMemory;
use be_parts::Part;
use be_script::Script;
use be_span::Cell;
use be_written::Screen;
use std::alloc::Global;
use std::marker::Model;

/// What a pixel shows that no window owns.
const DESKTOP: Cell = Cell {
    rgb: Rgb {
        red: 0x33,
        green: 0x66,
        blue: 0x98,
    },
    dirty: false,
};

/// The screen of a run, seen as its size and its cells in row order.
#[derive(Drop)]
pub struct Shown<'a> {
    script: &'a Script,
    parts: &'a [Part],
    /// As long as the screen is wide.
    desktop: Vec<Cell>,
}

impl<'a> Model for Shown<'a> {
    ghost use Rattle.std.specs.Prelude.{map};
    ghost use Rattle.be_parts.specs.Parts.{meaning_of};
    ghost use Rattle.be_script.specs.Script.{declared_by};
    ghost use Rattle.be_shown.specs.Standing.{IsTold, ScreenCells, screen_of};

    ghost Value = { ScreenCells };

    ghost view = { λ s. screen_of (declared_by s.script.now) (map meaning_of s.parts.now) };

    ghost invariant = { λ s. IsTold (declared_by s.script.now) s.parts.now s.desktop.items };
}

impl<'a> Shown<'a> {
    /// The screen of a run of this script that has come to these parts. It takes the memory of one
    /// row of cells.
    pub fn new(alloc: Global, script: &'a Script, parts: &'a [Part]) -> Result<Shown<'a>, NoMemory>
        requires { IsSound (declared_by script.now) (map meaning_of parts.now) }
        ensures across { IfOk result (λ shown. shown.across ≡ (declared_by script.now).width) }
        ensures down { IfOk result (λ shown. shown.down ≡ (declared_by script.now).height) }
        ensures cells { IfOk result (λ shown. shown.cells
            ≡ (state_of (declared_by script.now) (map meaning_of parts.now)).screen) }
        ensures size { IfOk result (λ shown. length shown.cells ≡ shown.across * shown.down) }
        ensures after { IfOk result (λ shown. (history : List Entry)
            → IsLegalHistory (declared_by script.now) history
            → map meaning_of parts.now
            ≡ slices (declared_by script.now) (state_after (declared_by script.now) history)
            → shown.cells ≡ (state_after (declared_by script.now) history).screen) }
    {
        Ok(Shown {
            script,
            parts,
            desktop: desktop_row(alloc, usize::from(script.screen.0))?,
        })
    }
}

impl<'a> Screen for Shown<'a> {
    ghost across = { λ s. s.across };

    ghost down = { λ s. s.down };

    ghost cells = { λ s. s.cells };

    fn width(&self) -> u32 {
        u32::from(self.script.screen.0)
    }

    fn height(&self) -> u32 {
        u32::from(self.script.screen.1)
    }

    fn row_from(&self, row: u32, column: u32) -> &[Cell] {
        let (width, height) = self.script.screen;
        prove!(column < u32::from(width) && row < u32::from(height));
        let (x, y) = (column as u16, row as u16);
        match stretch_from(self.parts, width, x, y) {
            Stretch::Owned(part) => cells_from(part, x, y),
            Stretch::Desktop(count) => &self.desktop[..count as usize],
        }
    }
}

/// A row of pixels that no window owns.
fn desktop_row(alloc: Global, width: usize) -> Result<Vec<Cell>, NoMemory>
    ensures { IfOk result (λ cells. cells.items ≡ replicate width desktop_cell) }
{
    Ok(vec![in alloc; DESKTOP; width]?)
}
