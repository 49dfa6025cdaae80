ghost use Rattle.std.specs.Prelude.{◌≡◌, Ok};
ghost use Rattle.be_said.specs.Due.{IsDue};
ghost use Rattle.be_said.specs.Fits.{Fits};
ghost use Rattle.be_said.specs.Deeds.{adds_input, sizes_screen};
ghost use Rattle.be_said.specs.Judging.{done};

use super::SoFar;
use crate::fault::LineFault;
use be_command::Reason;
use be_script::InputLine;

const EVENTS: usize = 4_096;

impl SoFar {
    pub(super) fn set_screen(mut self, width: u16, height: u16) -> SoFar
        requires { Fits self (sizes_screen width height) }
        ensures { done self (sizes_screen width height) ≡ Ok result }
    {
        self.screen = Some((width, height));
        self
    }

    pub(super) fn add_input(mut self, event: InputLine) -> Result<SoFar, LineFault>
        requires { Fits self (adds_input event) }
        ensures { IsDue (done self (adds_input event)) result }
    {
        if self.input.len() >= EVENTS {
            return Err(LineFault::Bad(Reason::TooMany));
        }
        self.input.push(event)?;
        Ok(self)
    }
}
