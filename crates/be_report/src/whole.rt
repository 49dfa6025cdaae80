ghost use Rattle.std.specs.Prelude.{◌≡◌, ◌≤◌, OnOk, OnErr, IfOk};
ghost use Rattle.be_machine.specs.History.{IsLegalHistory, state_after};
ghost use Rattle.be_outside.specs.Faults.{FaultsRose};
ghost use Rattle.be_outside.specs.Telling.{with_end, TakesPrefix};
ghost use Rattle.be_report.specs.Report.{report_of};
ghost use Rattle.be_script.specs.Limits.{IsWithinLimits};
ghost use Rattle.be_script.specs.Script.{declared_by};
ghost use Rattle.be_written.specs.Notings.{AreTold};

use crate::puts::put_lines;
use be_geom::NoMemory;
use be_machine::Entry;
use be_outside::Sink;
use be_script::Script;
use be_written::{Notes, Page, Screen, write_history, write_screen, write_traces};
use std::alloc::Global;
use thiserror::Error;

/// Why a report wasn't written to its end.
#[derive(Clone, Copy, Debug, PartialEq, Eq, Error)]
pub enum ReportFault {
    #[error("write fault")]
    WriteFault,
    #[error("no memory")]
    NoMemory,
}

/// Writes the report of a history, each line by one `put`: its entries, what the runners noted of
/// them, and the screen that they leave. Its text is made before the first put, in a time that is
/// linear in its bytes and what telling the notes and the runs of the screen takes.
pub fn report<N: Notes, S: Screen, K: Sink>(
    alloc: Global,
    script: &Script,
    history: &[Entry],
    notes: &N,
    screen: &S,
    sink: &mut K,
) -> Result<(), ReportFault>
    requires limits { IsWithinLimits (declared_by script.now) }
    requires legal { IsLegalHistory (declared_by script.now) history.now }
    requires told { AreTold (declared_by script.now) history.now (N.told notes.now) }
    requires across { S.across screen.now ≡ (declared_by script.now).width }
    requires down { S.down screen.now ≡ (declared_by script.now).height }
    requires cells { S.cells screen.now
        ≡ (state_after (declared_by script.now) history.now).screen }
    ensures written { OnOk result (K.held sink.new
        ≡ with_end (K.held sink.old) (report_of (declared_by script.now) history.now)) }
    ensures prefix { OnErr result (TakesPrefix (K.held sink.old) (K.held sink.new)
        (report_of (declared_by script.now) history.now)) }
    ensures fault { result ≡ Err ReportFault.WriteFault
        → FaultsRose (K.faults sink.old) (K.faults sink.new) }
    ensures no_memory { result ≡ Err ReportFault.NoMemory → sink.new ≡ sink.old }
    ensures never_falls { K.faults sink.old ≤ K.faults sink.new }
{
    match text(alloc, script, history, notes, screen) {
        Ok(page) => put_lines(page.as_slice(), sink).map_err(|_| ReportFault::WriteFault),
        Err(NoMemory) => Err(ReportFault::NoMemory),
    }
}

fn text<N: Notes, S: Screen>(
    alloc: Global,
    script: &Script,
    history: &[Entry],
    notes: &N,
    screen: &S,
) -> Result<Page, NoMemory>
    requires limits { IsWithinLimits (declared_by script.now) }
    requires legal { IsLegalHistory (declared_by script.now) history.now }
    requires told { AreTold (declared_by script.now) history.now (N.told notes.now) }
    requires across { S.across screen.now ≡ (declared_by script.now).width }
    requires down { S.down screen.now ≡ (declared_by script.now).height }
    requires cells { S.cells screen.now
        ≡ (state_after (declared_by script.now) history.now).screen }
    ensures { IfOk result (λ page. page ≡ report_of (declared_by script.now) history.now) }
{
    let mut page = Page::new(alloc);
    write_history(&mut page, script, history)?;
    write_traces(&mut page, script, notes)?;
    write_screen(&mut page, screen)?;
    page.text(b"end")?;
    page.end_line()?;
    Ok(page)
}
