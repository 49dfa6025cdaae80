ghost use Rattle.std.specs.Prelude.{◌≡◌, [], replicate};
ghost use Rattle.be_script.specs.Script.{declared_by};
ghost use Rattle.be_span.specs.Cells.{desktop_cell};
ghost use Rattle.report_tests.specs.Bare.{bare};

use be_color::Rgb;
use be_script::Script;
use be_span::Cell;
use be_written::{Notes, Runner, Screen};
use std::alloc::Global;

/// A screen of 4 by 3 pixels, and nothing else.
pub(crate) fn script(alloc: Global) -> Script
    ensures { declared_by result ≡ bare }
{
    Script {
        screen: (4, 3),
        bitmaps: Vec::new(alloc),
        windows: Vec::new(alloc),
        views: Vec::new(alloc),
        handlers: Vec::new(alloc),
        filters: Vec::new(alloc),
        bodies: Vec::new(alloc),
        draws: Vec::new(alloc),
        apps: Vec::new(alloc),
        input: Vec::new(alloc),
    }
}

/// Where there is no runner, nothing is noted.
#[derive(Drop)]
pub(crate) struct Nobody;

impl Notes for Nobody {
    ghost told = { λ it who. [] };

    fn told(&self, _runner: Runner) -> &[u8] {
        b""
    }
}

const DESKTOP: Cell = Cell {
    rgb: Rgb {
        red: 0x33,
        green: 0x66,
        blue: 0x98,
    },
    dirty: false,
};

/// No window is shown, and each pixel is told alone.
#[derive(Drop)]
pub(crate) struct Desktop;

impl Screen for Desktop {
    ghost across = { λ it. 4 };

    ghost down = { λ it. 3 };

    ghost cells = { λ it. replicate 12 desktop_cell };

    fn width(&self) -> u32 {
        4
    }

    fn height(&self) -> u32 {
        3
    }

    fn row_from(&self, _row: u32, _column: u32) -> &[Cell] {
        &[DESKTOP]
    }
}
