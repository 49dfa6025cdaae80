//! Notices of updates, and their begin.
ghost use Rattle.be_asking.specs.Deeds.{IsAnswer, IsAsked};
ghost use Rattle.be_asking.specs.declared.activity.Activity.TheVariants as who;
ghost use Rattle.be_asking.specs.declared.activity.Runner.TheVariants as by;
ghost use Rattle.be_asking.specs.declared.want.Want.TheVariants as want;
ghost use Rattle.be_hall.specs.Hands.{meant};
ghost use Rattle.be_parts.specs.Parts.{meaning_of};
ghost use Rattle.be_script.specs.Script.{declared_by};

use crate::deed::{Answer, Deed};
use crate::finding::{find_link, find_looper, find_pane, find_port};
use be_hall::Held;
use be_machine::Act;
use be_parts::Part;
use be_script::Script;
use be_update::{a_pane_is_found_as_its_window, waiting_pixels_are_listed};

/// A notice that is owed gets the port's next number.
pub fn may_notify<'a>(script: &Script, held: &Held<Part>, number: u32, w: u16) -> Answer<'a>
    requires { IsAsked (declared_by script.now) held.now.parts number (who.Twin w)
        (want.Notifies w) }
    ensures { IsAnswer (declared_by script.now) (meant meaning_of held.now.parts) number result }
{
    if let Err(place) = find_pane(script, held, w) {
        return Answer::Needs(place);
    }
    match find_port(script, held, w) {
        Err(place) => Answer::Needs(place),
        Ok(port) => Answer::May(Deed::Makes(Act::Notify(port.port().next_number()))),
    }
}

/// An update begins once the window's link is empty. It opens where a pixel waits to be drawn.
pub fn may_begin<'a>(script: &Script, held: &Held<Part>, number: u32, w: u16) -> Answer<'a>
    requires { IsAsked (declared_by script.now) held.now.parts number (who.Runner (by.Looper w))
        (want.Begins w) }
    ensures { IsAnswer (declared_by script.now) (meant meaning_of held.now.parts) number result }
{
    if let Err(place) = find_looper(script, held, w) {
        return Answer::Needs(place);
    }
    let link = match find_link(script, held, w) {
        Ok(link) => link,
        Err(place) => return Answer::Needs(place),
    };
    let pane = match find_pane(script, held, w) {
        Ok(pane) => pane,
        Err(place) => return Answer::Needs(place),
    };
    if link.link().len() > 0 {
        return Answer::NotYet;
    }
    a_pane_is_found_as_its_window();
    waiting_pixels_are_listed();
    let opens = !pane.pane().spans().is_clean();
    Answer::May(Deed::Makes(Act::Begin(opens)))
}
