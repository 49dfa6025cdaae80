//! A script and a history of it from a source.
ghost use Rattle.std.specs.Prelude.{◌≡◌, ◌≤◌, IfErr, IfNone, IfOk, IfSome, drop, length, take};
ghost use Rattle.app_server.specs.Headline.{turn};
ghost use Rattle.app_server.specs.Inputs.{begins_history, report_part, script_lines, script_part};
ghost use Rattle.app_server.specs.Inputs.{told_in};
ghost use Rattle.app_server.specs.Parts.{IsScriptLine, IsTold, Stops};
ghost use Rattle.app_server.specs.Scripts.{Reads, Refuses};
ghost use Rattle.be_lex.specs.Lines.{lines_of};
ghost use Rattle.be_script.specs.Limits.{IsWithinLimits};
ghost use Rattle.be_script.specs.Script.{declared_by};

use crate::input::{InputFault, read_all};
use crate::status::Status;
use be_command::Reason;
use be_lex::{Line, Lines, Words};
use be_machine::Entry;
use be_outside::Source;
use be_reader::{ScriptFault, read};
use be_report::read_history;
use be_script::Script;
use std::alloc::Global;

/// How many bytes a script and the report behind it may have.
const MOST: usize = 67_108_864;

/// A script, and a history that was told of it. That is one of the script isn't said.
#[derive(Drop)]
pub struct Told {
    pub script: Script,
    pub history: Vec<Entry>,
}

/// Reads a source as a script and a report of it, or tells the status that says why it is none. Of
/// the report nothing behind its line `traces` is looked at.
pub fn told_from<S: Source>(alloc: Global, source: &mut S) -> Result<Told, Status>
    ensures told { IfOk result (λ told. Reads 67108864 told_in
        (turn S.left S.faults source.old source.new)
        (record { script = declared_by told.script; history = told.history.items })) }
    ensures limits { IfOk result (λ told. IsWithinLimits (declared_by told.script)) }
    ensures refused { IfErr result
        (Refuses 67108864 told_in (turn S.left S.faults source.old source.new)) }
{
    let bytes = match read_all(alloc, MOST, source) {
        Ok(bytes) => bytes,
        Err(InputFault::ReadFault) => return Err(Status::ReadFault),
        Err(InputFault::NoMemory) => return Err(Status::NoMemory),
    };
    match told_by(alloc, bytes.as_slice()) {
        Ok(told) => Ok(told),
        Err(ScriptFault::At { line, reason }) => Err(Status::BadScript { line, reason }),
        Err(ScriptFault::NoMemory) => Err(Status::NoMemory),
    }
}

/// The script and the history that the bytes are.
#[tactic(auto, unfolding(crate::specs::Inputs::told_in))]
fn told_by(alloc: Global, bytes: &[u8]) -> Result<Told, ScriptFault>
    ensures told { IsTold (told_in bytes.now) result }
    ensures limits { IfOk result (λ told. IsWithinLimits (declared_by told.script)) }
{
    if bytes.len() > MOST {
        return Err(ScriptFault::At {
            line: 0,
            reason: Reason::TooLong,
        });
    }
    let (before, cut) = parts(bytes);
    let (front, report) = bytes.split_at(cut);
    let script = read(alloc, front)?;
    match read_history(alloc, report, &script) {
        Ok(history) => Ok(Told { script, history }),
        Err(ScriptFault::At { line, reason }) => Err(ScriptFault::At {
            line: before + line,
            reason,
        }),
        Err(ScriptFault::NoMemory) => Err(ScriptFault::NoMemory),
    }
}

/// How many lines and how many bytes stand before the first line that begins the report.
fn parts(bytes: &[u8]) -> (u64, usize)
    ensures lines { result.0 ≡ script_lines bytes.now }
    ensures few { result.0 ≤ length bytes.now }
    ensures within { result.1 ≤ length bytes.now }
    ensures front { take result.1 bytes.now ≡ script_part bytes.now }
    ensures rest { drop result.1 bytes.now ≡ report_part bytes.now }
{
    let mut before = 0;
    let mut rest = bytes;
    while let Some(behind) = behind_script_line(rest) {
        before += 1;
        rest = behind;
    }
    (before, bytes.len() - rest.len())
}

/// What stands behind the first line. None where there is no line, or it begins the report.
fn behind_script_line(text: &[u8]) -> Option<&[u8]>
    ensures line { IfSome result (λ behind. IsScriptLine text.now behind.now) }
    ensures none { IfNone result (Stops (lines_of text.now)) }
{
    let mut lines = Lines::of(text);
    let line = lines.next()?;
    if begins_history(&line) {
        return None;
    }
    Some(lines.rest())
}

/// Whether its first word is that of a report's first line.
fn begins_history(line: &Line<'_>) -> bool
    ensures { result ≡ begins_history line.now }
{
    Words::of(line.text()).next() == Some(b"history")
}
