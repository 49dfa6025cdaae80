//! Acts by the parts that they read.
ghost use Rattle.std.specs.Prelude.{◌≡◌, ◌≤◌, option_and_then, IfSome};
ghost use Rattle.be_asking.specs.Acts.{draw_by, flush_by, sync_by};
ghost use Rattle.be_machine.specs.Lists.{with_both};
ghost use Rattle.be_rules.specs.Slices.{buffer_in, link_in};

use crate::requests::MOST_BUFFERED;
use be_machine::Act;
use be_parts::{LinkPart, LooperPart};

// A link holds so many commands.
const MOST_LINKED: u32 = 256;

/// The whole buffer goes over to the link. None where that has no room for it.
pub(crate) fn flushed(looper: &LooperPart, link: &LinkPart, w: u16) -> Option<Act>
    ensures { result ≡ with_both (flush_by w) (buffer_in looper.now.slice) (link_in link.now) }
{
    let count = looper.buffer().len();
    if count + link.link().len() > MOST_LINKED {
        return None;
    }
    Some(Act::Flush(w, count))
}

/// A command comes into the buffer. None where that is full.
pub(crate) fn drawn(looper: &LooperPart, w: u16) -> Option<Act>
    requires { IfSome (buffer_in looper.now.slice) (λ b. b.made ≤ 4611686018427387904) }
    ensures { result ≡ option_and_then (draw_by w) (buffer_in looper.now.slice) }
{
    let buffer = looper.buffer();
    if buffer.len() >= MOST_BUFFERED {
        return None;
    }
    Some(Act::Draw(w, buffer.next_number()))
}

/// The link is empty, so that a sync is done.
pub(crate) fn synced(link: &LinkPart, w: u16) -> Option<Act>
    ensures { result ≡ option_and_then (sync_by w) (link_in link.now) }
{
    if link.link().len() > 0 {
        return None;
    }
    Some(Act::SyncDone(w))
}
