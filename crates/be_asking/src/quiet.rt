//! Whether anything of a window is on its way.
ghost use Rattle.std.specs.Prelude.{◌≡◌, ◌&&◌, not, IfOk, IfErr};
ghost use Rattle.be_asking.specs.Finding.{IsReachable};
ghost use Rattle.be_asking.specs.Stopping.{HasWindow, IsLost, Tells, is_empty_link, is_empty_port};
ghost use Rattle.be_asking.specs.Stopping.{is_idle, is_quiet};
ghost use Rattle.be_machine.specs.Touched as part;
ghost use Rattle.be_script.specs.Script.{declared_by};

use crate::finding::{find_link, find_looper, find_pane, find_port};
use be_hall::Held;
use be_looper::Owner;
use be_parts::{LinkPart, LooperPart, Part, PortPart};
use be_script::Script;
use be_update::{a_notice_is_owed_in_the_window, waiting_pixels_are_listed};

/// Whether nobody has the looper of window `w`, no letter and no command waits, and no notice is
/// owed. The error is the place of a part that isn't in hand.
pub(crate) fn is_quiet(script: &Script, held: &Held<Part>, w: u16) -> Result<bool, u32>
    requires { IsReachable (declared_by script.now) held.now.parts (part.looper w) }
    ensures told { IfOk result (Tells (declared_by script.now) held.now.parts (is_quiet w)) }
    ensures there { IfOk result (λ _. HasWindow (declared_by script.now) held.now.parts w) }
    ensures lost { IfErr result (IsLost (declared_by script.now) held.now.parts) }
{
    let idle = is_idle(find_looper(script, held, w)?);
    let no_letter = is_empty_port(find_port(script, held, w)?);
    let no_command = is_empty_link(find_link(script, held, w)?);
    let pane = find_pane(script, held, w)?;
    a_notice_is_owed_in_the_window();
    waiting_pixels_are_listed();
    let owed = pane.pane().is_owed();
    Ok(is_at_rest(idle, no_letter, no_command, owed))
}

fn is_at_rest(idle: bool, no_letter: bool, no_command: bool, owed: bool) -> bool
    ensures { result ≡ (idle && no_letter && no_command && not owed) }
{
    idle && no_letter && no_command && !owed
}

fn is_idle(looper: &LooperPart) -> bool
    ensures { result ≡ is_idle looper.now.slice }
{
    match looper.owner() {
        Owner::Free => looper.buffer().len() == 0,
        Owner::Own | Owner::App(_) => false,
    }
}

fn is_empty_port(port: &PortPart) -> bool
    ensures { result ≡ is_empty_port port.now }
{
    port.port().front().is_none()
}

fn is_empty_link(link: &LinkPart) -> bool
    ensures { result ≡ is_empty_link link.now }
{
    link.link().len() == 0
}
