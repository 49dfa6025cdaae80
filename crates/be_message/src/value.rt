ghost use Rattle.std.specs.Prelude.{◌≡◌, ◌≤◌, IsTrue, IfOk};
ghost use Rattle.be_message.specs.Depths.{datum_depth};
ghost use Rattle.be_message.specs.Fields.{is_allowed};
ghost use Rattle.be_message.specs.Limits.{most_depth};
ghost use Rattle.be_message.specs.Sound.{kind_of, AreCoordinates, IsSound};
ghost use Rattle.be_message.specs.Views.{seen_value};

use crate::kind::Kind;
use crate::message::Message;
use crate::names::is_text;
use crate::text::Text;
use be_geom::{NoMemory, Point, Rect};
use std::alloc::Global;

const MOST_DEPTH: u8 = 16;

/// One value of a field.
#[cycle(message)]
#[derive(Debug, Drop)]
pub enum Value {
    /// A truth value.
    Bool(bool),
    /// A whole number.
    Int(i32),
    /// A text. A message takes those of at most 1,024 bytes, none of them below 32 or above 126.
    Text(Text),
    /// A pixel.
    Point(Point),
    /// A rectangle, which may be empty.
    Rect(Rect),
    /// A message, one level deeper.
    Message(Box<Message>),
}

impl Value {
    /// Its type.
    pub fn kind(&self) -> Kind
        ensures { result ≡ kind_of (seen_value self.now) }
    {
        match self {
            Value::Bool(_) => Kind::Bool,
            Value::Int(_) => Kind::Int,
            Value::Text(_) => Kind::Text,
            Value::Point(_) => Kind::Point,
            Value::Rect(_) => Kind::Rect,
            Value::Message(_) => Kind::Message,
        }
    }

    /// How many messages lie within one another in it.
    pub(crate) fn depth(&self) -> u8
        ensures depth { result ≡ datum_depth (seen_value self.now) }
        ensures most { result ≤ most_depth }
    {
        match self {
            Value::Message(message) => message.depth(),
            _ => 0,
        }
    }

    /// Whether a message can hold it.
    pub(crate) fn is_allowed(&self) -> bool
        ensures allowed { result ≡ is_allowed (seen_value self.now) }
        ensures sound { IsTrue result → IsSound (seen_value self.now) }
    {
        match self {
            Value::Text(text) => is_text(text.as_slice()),
            Value::Message(message) => message.depth() < MOST_DEPTH,
            Value::Point(point) => {
                are_coordinates(point.x, point.y);
                true
            }
            Value::Rect(rect) => {
                are_coordinates(rect.left, rect.top);
                are_coordinates(rect.right, rect.bottom);
                true
            }
            Value::Int(number) => {
                let _number = *number;
                true
            }
            Value::Bool(_) => true,
        }
    }

    /// An equal value, in memory of its own.
    #[cycle(copy)]
    pub fn copy(&self, alloc: Global) -> Result<Value, NoMemory>
        ensures { IfOk result (λ value. seen_value value ≡ seen_value self.now) }
    {
        Ok(match self {
            Value::Bool(truth) => Value::Bool(*truth),
            Value::Int(number) => Value::Int(*number),
            Value::Text(text) => Value::Text(Text::new(alloc, text.as_slice())?),
            Value::Point(point) => Value::Point(*point),
            Value::Rect(rect) => Value::Rect(*rect),
            Value::Message(message) => Value::Message(Box::new(alloc, message.copy()?)?),
        })
    }
}

/// Coordinates are never out of their range. It does nothing: what counts is that it is proved.
fn are_coordinates(x: i16, y: i16)
    ensures { AreCoordinates x y }
{}
