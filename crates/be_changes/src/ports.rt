//! Ports in hand.
ghost use Rattle.std.specs.Prelude.{◌≡◌, Some};
ghost use Rattle.be_asking.specs.declared.want.Want.{Want};
ghost use Rattle.be_changes.specs.Left.{HasLeft};
ghost use Rattle.be_changes.specs.Ports.{AreToClose, MeansPort};
ghost use Rattle.be_hall.specs.Hands.{part_at};
ghost use Rattle.be_rules.specs.Slices.{Slice};
ghost use Rattle.be_rules.specs.Sure.{port_for};
ghost use Rattle.be_script.specs.Limits.{IsWithinLimits};
ghost use Rattle.be_script.specs.Script.{declared_by};
ghost use Rattle.be_steps.specs.Steps.{IsAllowed};

use be_asking::{Activity, port_place};
use be_geom::Change;
use be_hall::Held;
use be_parts::{Part, port_in_hand, port_to_change};
use be_script::Script;
use be_steps::left_at;
use std::snapshot::Snapshot;

/// Closes the port of window `w` where the change closes the window. `before` are the parts with
/// which the activity's step began.
pub(crate) fn close_port(
    script: &Script,
    held: &mut Held<Part>,
    before: &Snapshot<Held<Part>>,
    who: Activity,
    w: u16,
    change: &Change,
)
    requires limits { IsWithinLimits (declared_by script.now) }
    requires allowed { (want : Want)
        × IsAllowed (declared_by script.now) before.now.value.parts who want }
    requires ports { AreToClose (declared_by script.now) before.now.value.parts held.old.parts who w
        change.now }
    ensures { HasLeft (declared_by script.now) before.now.value.parts who (port_for w change.now)
        held.old held.new }
{
    match change {
        Change::Close => {
            let port = port_place(script, w);
            let closed = left_at(script, before, who, port);
            port_is_held(held, port);
            port_to_change(held, port).close(closed);
        }
        Change::Show | Change::Hide | Change::Activate | Change::Behind(_) => {}
        Change::MoveTo(_) | Change::MoveBy(..) | Change::ResizeTo(..) | Change::Focus(_) => {}
    }
}

/// What means a port is stored as one.
pub(crate) fn port_is_held(held: &Held<Part>, place: u32)
    requires { MeansPort held.now.parts place }
    ensures { (p : Slice) × (part_at held.now.parts place ≡ Some (Part.Port p)) }
{
    match port_in_hand(held, place) {
        Some(_) => {}
        None => unreachable!(),
    }
}
