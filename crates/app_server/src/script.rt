//! A script from a source.
ghost use Rattle.std.specs.Prelude.{◌≡◌, IfOk, IfErr};
ghost use Rattle.app_server.specs.Headline.{turn};
ghost use Rattle.app_server.specs.Inputs.{script_in};
ghost use Rattle.app_server.specs.Scripts.{Refuses, Tells};
ghost use Rattle.be_script.specs.Limits.{IsWithinLimits};
ghost use Rattle.be_script.specs.Script.{declared_by};

use crate::input::{InputFault, read_all};
use crate::status::Status;
use be_outside::Source;
use be_reader::{ScriptFault, read};
use be_script::Script;
use std::alloc::Global;

/// How many bytes a script may have.
const MOST: usize = 1_048_576;

/// Reads a source as a script, or tells the status that says why there is none.
pub fn script_from<S: Source>(alloc: Global, source: &mut S) -> Result<Script, Status>
    ensures script { IfOk result (Tells (turn S.left S.faults source.old source.new)) }
    ensures limits { IfOk result (λ script. IsWithinLimits (declared_by script)) }
    ensures refused { IfErr result
        (Refuses 1048576 script_in (turn S.left S.faults source.old source.new)) }
{
    let bytes = match read_all(alloc, MOST, source) {
        Ok(bytes) => bytes,
        Err(InputFault::ReadFault) => return Err(Status::ReadFault),
        Err(InputFault::NoMemory) => return Err(Status::NoMemory),
    };
    match read(alloc, bytes.as_slice()) {
        Ok(script) => Ok(script),
        Err(ScriptFault::At { line, reason }) => Err(Status::BadScript { line, reason }),
        Err(ScriptFault::NoMemory) => Err(Status::NoMemory),
    }
}
