ghost use Rattle.std.specs.Prelude.{◌≡◌, ◌<◌, IfOk, IfErr};
ghost use Rattle.be_message.specs.Messages.{Message};
ghost use Rattle.be_flat.specs.Grammar.{Spells};
ghost use Rattle.be_flat.specs.Reading.{reading, FailsAs};

use be_flat::{FlatError, each_message_has_one_spelling, flatten, unflatten};
use std::alloc::Global;

/// Reads and writes a flattened message in each round. The bytes come back as they were, and only
/// where they spell a message; what fails is the reading of them.
pub fn read_back(alloc: Global, bytes: &[u8], rounds: u32) -> Result<Vec<u8>, FlatError>
    requires { 0 < rounds }
    ensures same { IfOk result (λ last. last.items ≡ bytes.now) }
    ensures spelt { IfOk result (λ last. (m : Message) × Spells bytes.now m) }
    ensures fault { IfErr result (λ error. FailsAs error (reading bytes.now)) }
{
    let mut last = again(alloc, bytes)?;
    for _ in 1..rounds {
        last = again(alloc, last.as_slice())?;
    }
    Ok(last)
}

fn again(alloc: Global, bytes: &[u8]) -> Result<Vec<u8>, FlatError>
    ensures same { IfOk result (λ again. again.items ≡ bytes.now) }
    ensures spelt { IfOk result (λ again. (m : Message) × Spells bytes.now m) }
    ensures fault { IfErr result (λ error. FailsAs error (reading bytes.now)) }
{
    each_message_has_one_spelling();
    let message = unflatten(alloc, bytes)?;
    Ok(flatten(alloc, &message)?)
}
