//! Letters that an event of the input posts.
ghost use Rattle.std.specs.Prelude.{◌≡◌, Some};
ghost use Rattle.be_changes.specs.Posts.{HasPostedTo, IsOpenTo, IsOrdinary, MayPost};
ghost use Rattle.be_hall.specs.Hands.{Hand, part_at};
ghost use Rattle.be_machine.specs.Touched as part;
ghost use Rattle.be_parts.specs.Ports.{HasPosted};
ghost use Rattle.be_rules.specs.Places.{place_of};
ghost use Rattle.be_rules.specs.Slices.{Slice};
ghost use Rattle.be_script.specs.Limits.{IsWithinLimits};
ghost use Rattle.be_script.specs.Script.{declared_by};

use crate::events::Addressed;
use crate::ports::port_is_held;
use be_asking::port_place;
use be_hall::Held;
use be_parts::{Meaning, Part, port_to_change};
use be_port::Letter;
use be_script::Script;
use be_told::{Told, choose};
use std::marker::Brand;
use std::snapshot::Snapshot;

/// Posts a letter, where there is one. The port may refuse it.
pub(crate) fn post_to(script: &Script, held: &mut Held<Part>, post: Option<Addressed>)
    requires limits { IsWithinLimits (declared_by script.now) }
    requires post { MayPost (declared_by script.now) held.old.parts 1 post }
    ensures { HasPostedTo (declared_by script.now) post held.old held.new }
{
    if let Some(Addressed { window, letter }) = post {
        let place = port_place(script, window);
        port_is_held(held, place);
        let next = posted_at(held, place, &letter);
        let _answer = port_to_change(held, place).post(letter, next);
    }
}

/// What is asked of a port: which letter it is to take, and where it is.
#[derive(Drop)]
pub(crate) struct About {
    held: Snapshot<Held<Part>>,
    letter: Snapshot<Letter>,
    place: u32,
}

// What the port at this place means once it was asked to take the letter. It costs nothing.
fn posted_at(held: &Held<Part>, place: u32, letter: &Letter) -> Told<Meaning>
    requires { (was is : Slice) × (part_at held.now.parts place ≡ Some (Part.Port was))
        × HasPosted letter.now was is }
    ensures { (was : Slice) → part_at held.now.parts place ≡ Some (Part.Port was)
        → HasPosted letter.now was result.value }
{
    let about = About {
        held: Snapshot::of(held),
        letter: Snapshot::of(letter),
        place,
    };
    choose::<Meaning, About, Brand>(&about)
}
