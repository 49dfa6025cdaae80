ghost use Rattle.be_said.specs.SeenDeeds.{seen_deed};
ghost use Rattle.be_said.specs.Due.{IsDue};
ghost use Rattle.be_said.specs.Fits.{Fits};
ghost use Rattle.be_said.specs.Judging.{done};

use super::SoFar;
use crate::deeds::Deed;
use crate::fault::LineFault;
use std::alloc::Global;

impl SoFar {
    /// Does what a line says, or tells why it may not be done.
    pub fn done(self, alloc: Global, deed: Deed) -> Result<SoFar, LineFault>
        requires { Fits self (seen_deed deed) }
        ensures { IsDue (done self (seen_deed deed)) result }
    {
        match deed {
            Deed::Screen(width, height) => Ok(self.set_screen(width, height)),
            Deed::Bitmap {
                name,
                width,
                height,
            } => self.begin_bitmap(alloc, name, width, height),
            Deed::Row(row) => self.add_row(row),
            Deed::Window(line) => self.add_window(alloc, line),
            Deed::View(line) => self.add_view(line),
            Deed::Handler(line) => self.add_handler(alloc, line),
            Deed::Filter(line) => self.add_filter(line),
            Deed::Body(window, target, what) => self.begin_body(alloc, window, target, what),
            Deed::Draw(window, view) => self.begin_draw(alloc, window, view),
            Deed::Program(name) => self.begin_program(alloc, name),
            Deed::Input(event) => self.add_input(event),
            Deed::Step(step) => self.add_step(step),
            Deed::End => self.close(),
        }
    }
}
