ghost use Rattle.std.specs.Prelude.{◌≡◌, IfOk};

use crate::CommandText;
use be_geom::NoMemory;
use std::alloc::Global;

impl CommandText {
    /// The bytes, each 32 to 126.
    pub fn as_slice(&self) -> &[u8]
        ensures { result.now ≡ self.now }
    {
        self.bytes.as_slice()
    }

    pub(crate) fn of(alloc: Global, bytes: &[u8]) -> Result<CommandText, NoMemory>
        ensures { IfOk result (λ text. text ≡ bytes.now) }
    {
        Ok(CommandText {
            bytes: Vec::from_slice(alloc, bytes)?,
        })
    }
}
