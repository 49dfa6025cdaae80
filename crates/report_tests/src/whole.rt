ghost use Rattle.std.specs.Prelude.{◌≡◌};
ghost use Rattle.be_outside.specs.Faults.{FaultsRose};
ghost use Rattle.be_machine.specs.History.{IsLegalHistory};
ghost use Rattle.be_script.specs.Limits.{IsWithinLimits};
ghost use Rattle.report_tests.specs.Bare.{bare, bare_history};

use crate::bare::{Desktop, Nobody, script};
use be_machine::{Act, Entry};
use be_outside::MemorySink;
use be_report::{ReportFault, report};
use std::alloc::Global;
use std::test::Fail;

/// Eight lines.
const REPORT: &[u8] =
    b"history 1\n1 stop stop\ntraces\nscreen 4 3\n0 4x336698\n1 4x336698\n2 4x336698\nend\n";

/// What becomes of the report of a machine that only stops.
fn reported(alloc: Global, sink: &mut MemorySink) -> Result<(), ReportFault> {
    let script = script(alloc);
    let history = [Entry {
        actor: 1,
        act: Act::Stop,
    }];
    report(alloc, &script, &history, &Nobody, &Desktop, sink)
}

#[test]
fn each_line_is_one_put(rt: HostRuntime) -> Result<(), Fail> {
    let alloc = rt.alloc();
    for (failing, room, want, held) in [
        (None, 200, Ok(()), REPORT),
        (Some(8), 200, Ok(()), REPORT),
        (Some(7), 200, Err(ReportFault::WriteFault), &REPORT[..75]),
        (
            Some(0),
            200,
            Err(ReportFault::WriteFault),
            b"histo".as_slice(),
        ),
        (
            Some(1),
            200,
            Err(ReportFault::WriteFault),
            b"history 1\n1 stop".as_slice(),
        ),
        (
            None,
            12,
            Err(ReportFault::WriteFault),
            b"history 1\n".as_slice(),
        ),
    ] {
        let mut calls = Vec::new(alloc);
        if let Some(call) = failing {
            calls.push(call)?;
        }
        let mut sink = MemorySink::new(alloc, room, calls)?;
        assert_eq!(rt; reported(alloc, &mut sink), want);
        assert_eq!(rt; sink.held(), held);
    }
    Ok(())
}
