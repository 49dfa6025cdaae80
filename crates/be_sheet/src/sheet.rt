ghost use Rattle.std.specs.Prelude.{◌≡◌};

use be_picture::OffScreen;
use be_span::Cell;
use be_written::Screen;

/// The pixels of a bitmap off the screen.
#[derive(Drop)]
pub(crate) struct Sheet<'a> {
    pub(crate) off: &'a OffScreen,
}

impl<'a> Screen for Sheet<'a> {
    ghost across = { λ s. s.off.now.width };

    ghost down = { λ s. s.off.now.height };

    ghost cells = { λ s. s.off.now.cells };

    fn width(&self) -> u32 {
        u32::from(self.off.width())
    }

    fn height(&self) -> u32 {
        u32::from(self.off.height())
    }

    fn row_from(&self, row: u32, column: u32) -> &[Cell] {
        let (width, height) = (self.off.width(), self.off.height());
        prove!(column < u32::from(width) && row < u32::from(height));
        &self.off.row(row as u16)[column as usize..]
    }
}
