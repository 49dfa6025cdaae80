ghost use Rattle.std.specs.Prelude.{◌≡◌, pos, IfOk, OnOk};
ghost use Rattle.be_message.specs.Fields.{with_value};
ghost use Rattle.be_message.specs.Views.{seen_value};
ghost use Rattle.be_input.specs.Deliveries.{saturated_point, where_message, key_message};
ghost use Rattle.be_input.specs.Seen.{at_place, transit_number, mouse_message};

use be_geom::{NoMemory, Point};
use be_message::{Message, Value};
use std::alloc::Global;

/// The characters of `MDWN`: `B_MOUSE_DOWN`.
pub(crate) const MOUSE_DOWN: u32 = 0x4d44_574e;

/// The characters of `MUP_`: `B_MOUSE_UP`.
pub(crate) const MOUSE_UP: u32 = 0x4d55_505f;

/// The characters of `MMOV`: `B_MOUSE_MOVED`.
const MOUSE_MOVED: u32 = 0x4d4d_4f56;

/// The characters of `KEYD`: `B_KEY_DOWN`.
const KEY_DOWN: u32 = 0x4b45_5944;

/// How the pointer moved with regard to a view.
#[derive(Clone, Copy, Debug, PartialEq, Eq)]
pub(crate) enum Transit {
    /// `B_ENTERED_VIEW`
    Entered,
    /// `B_INSIDE_VIEW`
    Inside,
    /// `B_EXITED_VIEW`
    Exited,
}

/// A message about the mouse.
#[derive(Clone, Copy, Debug, PartialEq, Eq)]
pub(crate) enum Mouse {
    Down,
    Up,
    Moved(Transit),
}

/// A place as it is seen from a view's left top, in range or not.
#[derive(Clone, Copy, Debug, PartialEq, Eq)]
pub(crate) struct Place {
    pub x: i64,
    pub y: i64,
}

/// A message about the mouse, with its place in the view.
pub(crate) fn mouse_message(alloc: Global, mouse: Mouse, place: Place) -> Result<Message, NoMemory>
    ensures { IfOk result (λ message. message ≡ mouse_message mouse (at_place place)) }
{
    match mouse {
        Mouse::Down => where_message(alloc, MOUSE_DOWN, place),
        Mouse::Up => where_message(alloc, MOUSE_UP, place),
        Mouse::Moved(transit) => {
            let mut message = where_message(alloc, MOUSE_MOVED, place)?;
            add(&mut message, "transit", Value::Int(transit_number(transit)))?;
            Ok(message)
        }
    }
}

/// A message with a place, which stops at the ends of the range of coordinates.
fn where_message(alloc: Global, what: u32, place: Place) -> Result<Message, NoMemory>
    ensures { IfOk result (λ message. message ≡ where_message what (at_place place)) }
{
    let mut message = Message::new(alloc, what);
    add(&mut message, "where", Value::Point(nearest(place)))?;
    Ok(message)
}

/// The pixel of the range that is nearest to a place.
fn nearest(place: Place) -> Point
    ensures { result ≡ saturated_point (at_place place) }
{
    Point {
        x: place.x.clamp(-32_768, 32_767) as i16,
        y: place.y.clamp(-32_768, 32_767) as i16,
    }
}

fn transit_number(transit: Transit) -> i32
    ensures { result ≡ pos (transit_number transit) }
{
    match transit {
        Transit::Entered => 0,
        Transit::Inside => 1,
        Transit::Exited => 2,
    }
}

/// A message about a key.
pub(crate) fn key_message(alloc: Global, key: i32) -> Result<Message, NoMemory>
    ensures { IfOk result (λ message. message ≡ key_message key) }
{
    let mut message = Message::new(alloc, KEY_DOWN);
    add(&mut message, "key", Value::Int(key))?;
    Ok(message)
}

/// Adds a value that the message takes: all others are refused too.
fn add(message: &mut Message, name: &str, value: Value) -> Result<(), NoMemory>
    ensures { OnOk result (message.new ≡ with_value message.old name.now (seen_value value)) }
{
    match message.add(name, value) {
        Ok(()) => Ok(()),
        Err(_) => Err(NoMemory),
    }
}
