ghost use Rattle.std.specs.Prelude.{◌≡◌, ℕ, List, IfOk};

use be_geom::NoMemory;
use std::alloc::Global;
use std::marker::Model;

/// Bytes that stand for a text, as a window's name or a value of a message. It owns them, is seen
/// as the list of them, and holds any: which bytes a name or a message's text may have is said
/// there.
#[derive(Debug, Drop)]
pub struct Text {
    bytes: Vec<u8>,
}

impl Model for Text {
    ghost Value = { List ℕ };

    ghost view = { λ t. t.bytes.items };
}

impl Text {
    /// A copy of the bytes.
    pub fn new(alloc: Global, bytes: &[u8]) -> Result<Text, NoMemory>
        ensures { IfOk result (λ text. text ≡ bytes.now) }
    {
        Ok(Text {
            bytes: Vec::from_slice(alloc, bytes)?,
        })
    }

    /// The bytes.
    pub fn as_slice(&self) -> &[u8]
        ensures { result.now ≡ self.now }
    {
        self.bytes.as_slice()
    }
}
