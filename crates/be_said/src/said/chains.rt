ghost use Rattle.std.specs.Prelude.{◌≡◌, Err};
ghost use Rattle.be_said.specs.Due.{chain_due};

use crate::fault::LineFault;
use be_command::Reason;
use be_handler::ChainFault;

/// What a chain takes, as a part of a line that names what is there.
pub(super) fn taken(added: Result<(), ChainFault>) -> Result<(), LineFault>
    requires { added ≡ Err ChainFault.NoTarget → ⊥ }
    ensures { result ≡ chain_due added }
{
    match added {
        Ok(()) => Ok(()),
        Err(ChainFault::TooMany) => Err(LineFault::Bad(Reason::TooMany)),
        Err(ChainFault::NoMemory) => Err(LineFault::NoMemory),
        Err(ChainFault::NoTarget) => unreachable!(),
    }
}
