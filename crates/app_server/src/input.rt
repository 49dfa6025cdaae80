ghost use Rattle.std.specs.Prelude.{◌≡◌, ◌<◌, ◌^◌, IfOk};
ghost use Rattle.app_server.specs.Headline.{turn, WasRead};
ghost use Rattle.be_outside.specs.Faults.{FaultsRose};

use be_outside::{Failed, Source};
use std::alloc::Global;

/// Why a source wasn't read to its end.
#[derive(Clone, Copy, Debug, PartialEq, Eq)]
pub enum InputFault {
    ReadFault,
    NoMemory,
}

/// Reads a source to its end, or to one byte more than it may have.
pub fn read_all<S: Source>(
    alloc: Global,
    most: usize,
    source: &mut S,
) -> Result<Vec<u8>, InputFault>
    requires { most < 2 ^ 32 }
    ensures read { IfOk result
        (λ v. WasRead most (turn S.left S.faults source.old source.new) v.items) }
    ensures fault { result ≡ Err InputFault.ReadFault
        → FaultsRose (S.faults source.old) (S.faults source.new) }
{
    let mut bytes = Vec::new(alloc);
    let mut buffer = [0; 65_536];
    while bytes.len() <= most {
        let room = (most + 1 - bytes.len()).min(65_536);
        match source.read(&mut buffer[..room]) {
            Ok(0) => return Ok(bytes),
            Ok(count) => bytes
                .extend_from_slice(&buffer[..count])
                .map_err(|_| InputFault::NoMemory)?,
            Err(Failed) => return Err(InputFault::ReadFault),
        }
    }
    Ok(bytes)
}
