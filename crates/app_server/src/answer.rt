//! What is answered where a text is due, and the report of a run.
ghost use Rattle.app_server.specs.Headline.{turn};
ghost use Rattle.app_server.specs.Runs.{IsAnswered};
ghost use Rattle.be_report.specs.Report.{report_of};
ghost use Rattle.be_runs.specs.Runs.{Leaves};

use crate::status::Status;
use be_outside::Sink;
use be_report::{ReportFault, put_lines, report};
use be_runs::Finished;
use be_shown::{Shown, Traces};
use std::alloc::Global;

/// Writes the report of a finished run.
pub fn answer<K: Sink>(alloc: Global, run: &Finished, sink: &mut K) -> Status
    requires { Leaves run.now.world run.now }
    ensures { IsAnswered (report_of run.now.world run.now.history.items)
        (turn K.held K.faults sink.old sink.new) result }
{
    let script = run.world.script();
    let parts = run.parts.as_slice();
    let Ok(notes) = Traces::new(alloc, script, parts) else {
        return Status::NoMemory;
    };
    let Ok(screen) = Shown::new(alloc, script, parts) else {
        return Status::NoMemory;
    };
    match report(alloc, script, run.history.as_slice(), &notes, &screen, sink) {
        Ok(()) => Status::Finished,
        Err(ReportFault::WriteFault) => Status::WriteFault,
        Err(ReportFault::NoMemory) => Status::NoMemory,
    }
}

/// Writes a text, line by line.
pub fn write<K: Sink>(text: &[u8], sink: &mut K) -> Status
    ensures { IsAnswered text.now (turn K.held K.faults sink.old sink.new) result }
{
    match put_lines(text, sink) {
        Ok(()) => Status::Finished,
        Err(_) => Status::WriteFault,
    }
}
