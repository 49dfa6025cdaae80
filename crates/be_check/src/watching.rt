//! One pixel, watched from entry to entry.
ghost use Rattle.std.specs.Prelude.{◌≡◌, false, pos, if◌then◌else◌};
ghost use Rattle.be_check.specs.Explaining.{same_color};
ghost use Rattle.be_check.specs.Stepping.{HasAll};
ghost use Rattle.be_machine.specs.PixelLaws.{is_painting};
ghost use Rattle.be_machine.specs.Pixels.{color_at};
ghost use Rattle.be_check.specs.Following.{state_in};
ghost use Rattle.be_script.specs.Script.{declared_by};

use crate::color::color_of;
use be_color::Rgb;
use be_hall::Held;
use be_machine::Act;
use be_parts::Part;
use be_script::Script;

/// What is known of a pixel behind some entries.
#[derive(Clone, Copy)]
pub(crate) struct Seen {
    /// None off the screen.
    pub(crate) color: Option<Rgb>,
    /// The number of the last entry that changed the colour. 0: none did.
    pub(crate) last: u64,
}

/// What is known behind the entry of this number, which has this act. The pixel is looked at where
/// an act of its kind may change a colour.
pub(crate) fn seen_behind(
    script: &Script,
    held: &Held<Part>,
    x: u16,
    y: u16,
    act: &Act,
    number: u64,
    before: Seen,
) -> Seen
    requires all { HasAll (declared_by script.now) held.now.parts }
    requires quiet { is_painting act.now ≡ false → before.color
        ≡ color_at (state_in (declared_by script.now) held.now.parts) (pos x) (pos y) }
    ensures color { result.color
        ≡ color_at (state_in (declared_by script.now) held.now.parts) (pos x) (pos y) }
    ensures last { result.last
        ≡ (if same_color before.color result.color then before.last else number) }
{
    if !may_paint(act) {
        return before;
    }
    let color = color_of(script, held, x, y);
    if color == before.color {
        return before;
    }
    Seen {
        color,
        last: number,
    }
}

/// Whether an entry with this act may change a colour.
fn may_paint(act: &Act) -> bool
    ensures { result ≡ is_painting act.now }
{
    match act {
        Act::Exec(..) | Act::Event(..) => true,
        Act::Post(..) | Act::Take(_) | Act::Note(_) | Act::Reply(_) | Act::Claim(_) => false,
        Act::Lock(_) | Act::Unlock(_) | Act::Draw(..) | Act::Flush(..) => false,
        Act::SyncDone(_) | Act::Notify(_) | Act::Begin(_) | Act::End(_) | Act::Stop => false,
    }
}
