ghost use Rattle.std.specs.Prelude.{◌≡◌, ◌+◌, Err};
ghost use Rattle.be_lex.specs.Lines.{lines_of};
ghost use Rattle.be_reader.specs.Outcomes.{fault_at};
ghost use Rattle.be_report.specs.Outcomes.{IsHistory};
ghost use Rattle.be_written.specs.Runners.{AreFew};
ghost use Rattle.be_report.specs.Told.{entries_in, entries_of};
ghost use Rattle.be_script.specs.Limits.{IsWithinLimits};
ghost use Rattle.be_script.specs.Script.{declared_by};

use crate::line::{begins_traces, count_in, entry_in};
use be_command::Reason;
use be_lex::cut_at;
use be_machine::Entry;
use be_reader::ScriptFault;
use be_said::LineFault;
use be_script::Script;
use std::alloc::Global;

/// The history that bytes tell, from their first line `history N` to the line `traces`. Lines are
/// counted from the first of these bytes. What stands behind the line `traces` isn't looked at.
///
/// It looks at each byte a fixed number of times, but for names, and takes memory for the entries.
#[tactic(auto, unfolding(crate::specs::Told::entries_of))]
pub fn read_history(alloc: Global, bytes: &[u8], script: &Script) -> Result<Vec<Entry>, ScriptFault>
    requires { IsWithinLimits (declared_by script.now) }
    ensures { IsHistory (entries_of (declared_by script.now) bytes.now) result }
{
    let Some((first, rest)) = cut_at(bytes, b'\n') else {
        return Err(bad_entry(1));
    };
    match count_in(first) {
        Some(last) => entries_in(alloc, script, last, rest),
        None => Err(bad_entry(1)),
    }
}

/// The entries from the first on, up to the last one, and then the line `traces`.
fn entries_in(
    alloc: Global,
    script: &Script,
    last: u64,
    text: &[u8],
) -> Result<Vec<Entry>, ScriptFault>
    requires { AreFew (declared_by script.now) }
    ensures { IsHistory (entries_in (declared_by script.now) last 1 (lines_of text.now)) result }
{
    let mut entries = Vec::new(alloc);
    let mut rest = text;
    let mut number = 1;
    while let Some((line, behind)) = cut_at(rest, b'\n') {
        if last < number {
            return if begins_traces(line) {
                Ok(entries)
            } else {
                Err(bad_entry(number + 1))
            };
        }
        let entry = match entry_in(alloc, script, number, line) {
            Ok(entry) => entry,
            Err(fault) => return Err(fault_at(number + 1, fault)),
        };
        if entries.push(entry).is_err() {
            return Err(ScriptFault::NoMemory);
        }
        rest = behind;
        number += 1;
    }
    Err(bad_entry(number + 1))
}

fn bad_entry(line: u64) -> ScriptFault
    ensures { result ≡ ScriptFault.At line Reason.BadEntry }
{
    ScriptFault::At {
        line,
        reason: Reason::BadEntry,
    }
}

fn fault_at(line: u64, fault: LineFault) -> ScriptFault
    ensures { result ≡ fault_at line fault }
{
    match fault {
        LineFault::Bad(reason) => ScriptFault::At { line, reason },
        LineFault::NoMemory => ScriptFault::NoMemory,
    }
}
