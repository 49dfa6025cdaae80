//! Notices of updates.
ghost use Rattle.std.specs.Prelude.{IfOk};
ghost use Rattle.be_steps.specs.Notices.{IsNotice};

use be_flat::{Bytes, flatten};
use be_geom::NoMemory;
use be_message::{Message, Target};
use be_port::{Duty, Letter, Sender};
use std::alloc::Global;

/// `_UPDATE_`, the word of a notice.
const UPDATE_NOTICE: u32 = 0x5550_4454;

/// The notice of an update, from window `w`'s twin to the window: a word without fields. The port
/// gives it its number.
pub fn notice(alloc: Global, w: u16) -> Result<Letter, NoMemory>
    ensures { IfOk result (IsNotice w) }
{
    let message = Message::new(alloc, UPDATE_NOTICE);
    let bytes = Bytes::from_vec(flatten(alloc, &message)?);
    Ok(Letter {
        number: 0,
        sender: Sender::Twin(w),
        target: Target::Window,
        hop: 0,
        duty: Duty::Free,
        notice: true,
        bytes,
    })
}
