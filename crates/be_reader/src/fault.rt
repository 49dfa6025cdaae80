ghost use Rattle.std.specs.Prelude.{◌≡◌};
ghost use Rattle.be_reader.specs.Outcomes.{fault_at};

use be_command::Reason;
use be_said::LineFault;
use thiserror::Error;

/// Why bytes aren't a script.
#[derive(Clone, Copy, Debug, PartialEq, Eq, Error)]
pub enum ScriptFault {
    /// The first faulty line, from 1; 0 where no line has the fault.
    #[error("script line {line}: {reason:?}")]
    At { line: u64, reason: Reason },
    #[error("no memory")]
    NoMemory,
}

/// This fault as that of the line with this number.
pub(crate) fn fault_at(line: u64, fault: LineFault) -> ScriptFault
    ensures { result ≡ fault_at line fault }
{
    match fault {
        LineFault::Bad(reason) => ScriptFault::At { line, reason },
        LineFault::NoMemory => ScriptFault::NoMemory,
    }
}
