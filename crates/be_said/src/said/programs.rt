ghost use Rattle.be_said.specs.Due.{IsDue};
ghost use Rattle.be_said.specs.Fits.{Fits};
ghost use Rattle.be_said.specs.Deeds.{adds_step, begins_body, begins_draw, begins_program, closes};
ghost use Rattle.be_said.specs.Judging.{done};

use super::SoFar;
use super::chains::taken;
use super::steps::is_long;
use crate::begun::Begun;
use crate::fault::LineFault;
use be_actor::{Instruction, Program};
use be_command::Reason;
use be_message::{Target, Text};
use be_script::{AppLine, BodyLine, DrawLine};
use std::alloc::Global;
use std::mem;

const APPS: usize = 16;

/// How many instructions a body or a program may have.
const STEPS: usize = 1_024;

impl SoFar {
    pub(super) fn begin_body(
        mut self,
        alloc: Global,
        window: u16,
        target: Target,
        what: u32,
    ) -> Result<SoFar, LineFault>
        requires { Fits self (begins_body window target what) }
        ensures { IsDue (done self (begins_body window target what)) result }
    {
        let inside = &mut self.inside[usize::from(window)];
        if inside.chain.has_body(target, what) {
            return Err(LineFault::Bad(Reason::NameTaken));
        }
        taken(inside.chain.add_body(target, what))?;
        self.begun = Begun::HandlerBody {
            window,
            target,
            what,
            steps: Vec::new(alloc),
        };
        Ok(self)
    }

    pub(super) fn begin_draw(
        mut self,
        alloc: Global,
        window: u16,
        view: u16,
    ) -> Result<SoFar, LineFault>
        requires { Fits self (begins_draw window view) }
        ensures { IsDue (done self (begins_draw window view)) result }
    {
        let inside = &mut self.inside[usize::from(window)];
        if inside.draws[usize::from(view)] {
            return Err(LineFault::Bad(Reason::NameTaken));
        }
        inside.draws[usize::from(view)] = true;
        self.begun = Begun::DrawBody {
            window,
            view,
            steps: Vec::new(alloc),
        };
        Ok(self)
    }

    pub(super) fn begin_program(mut self, alloc: Global, name: Text) -> Result<SoFar, LineFault>
        requires { Fits self (begins_program name) }
        ensures { IsDue (done self (begins_program name)) result }
    {
        if self.apps.len() >= APPS {
            return Err(LineFault::Bad(Reason::TooMany));
        }
        self.begun = Begun::Program {
            name,
            lock: None,
            steps: Vec::new(alloc),
        };
        Ok(self)
    }

    pub(super) fn add_step(mut self, step: Instruction) -> Result<SoFar, LineFault>
        requires { Fits self (adds_step step) }
        ensures { IsDue (done self (adds_step step)) result }
    {
        if self.begun.step_count() >= STEPS {
            return Err(LineFault::Bad(Reason::TooMany));
        }
        if is_long(&step) {
            return Err(LineFault::Bad(Reason::TooMany));
        }
        self.begun.add_step(step)?;
        Ok(self)
    }

    /// Closes what was begun.
    pub(super) fn close(mut self) -> Result<SoFar, LineFault>
        requires { Fits self closes }
        ensures { IsDue (done self closes) result }
    {
        match mem::replace(&mut self.begun, Begun::Nothing) {
            Begun::HandlerBody {
                window,
                target,
                what,
                steps,
            } => {
                let program = Program { steps };
                self.bodies.push(BodyLine {
                    window,
                    target,
                    what,
                    program,
                })?;
                Ok(self)
            }
            Begun::DrawBody {
                window,
                view,
                steps,
            } => {
                let program = Program { steps };
                self.draws.push(DrawLine {
                    window,
                    view,
                    program,
                })?;
                Ok(self)
            }
            Begun::Program { name, steps, .. } => {
                let program = Program { steps };
                self.apps.push(AppLine { name, program })?;
                Ok(self)
            }
            Begun::Nothing | Begun::Bitmap { .. } => unreachable!(),
        }
    }
}
