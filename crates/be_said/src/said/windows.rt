ghost use Rattle.be_said.specs.Due.{IsDue};
ghost use Rattle.be_said.specs.Fits.{Fits};
ghost use Rattle.be_said.specs.Deeds.{adds_filter, adds_handler, adds_view};
ghost use Rattle.be_said.specs.Judging.{done};

use super::chains::taken;
use super::{SoFar, names};
use crate::fault::LineFault;
use be_command::Reason;
use be_message::Text;
use be_script::{FilterLine, HandlerLine, ViewLine};
use std::alloc::Global;

/// How deep a view may lie.
const DEPTH: u8 = 8;

impl SoFar {
    pub(super) fn add_view(mut self, line: ViewLine) -> Result<SoFar, LineFault>
        requires { Fits self (adds_view line) }
        ensures { IsDue (done self (adds_view line)) result }
    {
        let inside = &mut self.inside[usize::from(line.window)];
        let depth = inside.depths[usize::from(line.parent)];
        if depth >= DEPTH {
            return Err(LineFault::Bad(Reason::TooMany));
        }
        taken(inside.chain.add_view(Some(line.parent)))?;
        names::add_view(&mut inside.names, &line.name)?;
        inside.depths.push(depth + 1)?;
        inside.draws.push(false)?;
        self.views.push(line)?;
        Ok(self)
    }

    pub(super) fn add_handler(
        mut self,
        alloc: Global,
        line: HandlerLine,
    ) -> Result<SoFar, LineFault>
        requires { Fits self (adds_handler line) }
        ensures { IsDue (done self (adds_handler line)) result }
    {
        let inside = &mut self.inside[usize::from(line.window)];
        taken(inside.chain.add_plain(line.next))?;
        let name = Text::new(alloc, line.name.as_slice())?;
        inside.plain.push(name)?;
        self.handlers.push(line)?;
        Ok(self)
    }

    pub(super) fn add_filter(mut self, line: FilterLine) -> Result<SoFar, LineFault>
        requires { Fits self (adds_filter line) }
        ensures { IsDue (done self (adds_filter line)) result }
    {
        let inside = &mut self.inside[usize::from(line.window)];
        taken(inside.chain.add_filter(line.list, line.what, line.rule))?;
        self.filters.push(line)?;
        Ok(self)
    }
}
