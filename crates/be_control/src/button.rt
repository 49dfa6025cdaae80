ghost use Rattle.std.specs.Prelude.{◌≡◌, [], ◌∷◌, ◌++◌, List, if◌then◌else◌};
ghost use Rattle.be_control.specs.Buttons.{HasHeard, Heard, is_at, pressed_by, tells_exit};
ghost use Rattle.be_control.specs.Letters.{IsLetter};

use be_geom::Rect;
use be_message::{Kind, Message, Value};
use std::marker::Model;

/// The characters of `MDWN`: `B_MOUSE_DOWN`.
const MOUSE_DOWN: u32 = 0x4d44_574e;

/// The characters of `MUP_`: `B_MOUSE_UP`.
const MOUSE_UP: u32 = 0x4d55_505f;

/// The characters of `MMOV`: `B_MOUSE_MOVED`.
const MOUSE_MOVED: u32 = 0x4d4d_4f56;

/// The `transit` of a pointer that left: `B_EXITED_VIEW`.
const EXITED: i32 = 2;

/// What a letter is to a button.
#[derive(Clone, Copy, Debug, PartialEq, Eq)]
pub enum Pressed {
    /// Nothing, or the end of a press that came to nothing.
    Idle,
    /// A press begins.
    Armed,
    /// The press comes to its end inside: `BControl::Invoke`.
    Invoked,
}

/// A button, which hears the letters that its window takes, one after the other: `BControl`, as far
/// as the mouse goes.
#[derive(Clone, Copy, Debug)]
pub struct Button {
    /// In the view's own coordinates.
    bounds: Rect,
    is_armed: bool,
}

impl Model for Button {
    ghost use Rattle.be_control.specs.Buttons as buttons;

    ghost Value = { buttons.Button };

    ghost view = { λ b. record { bounds = b.bounds; armed = b.is_armed } };

    ghost inverse = { λ b. record { bounds = b.bounds; is_armed = b.armed } };
}

impl Button {
    /// A button that has heard nothing. The bounds are in the view's own coordinates, and an empty
    /// rectangle is never pressed.
    pub fn new(bounds: Rect) -> Button
        ensures bounds { result.bounds ≡ bounds }
        ensures heard { HasHeard result [] }
    {
        Button {
            bounds,
            is_armed: false,
        }
    }

    /// Hears the next letter that the window takes, and says what it is to the button. `own` is
    /// whether the letter's target is the button's view. It finds one field of the letter at most.
    pub fn hear(&mut self, own: bool, message: &Message) -> Pressed
        ensures bounds { self.new.bounds ≡ self.old.bounds }
        ensures heard { (before : List Heard) → HasHeard self.old before
            → HasHeard self.new (before ++ record { own = own; message = message.now } ∷ []) }
        ensures pressed { (before : List Heard) → HasHeard self.old before
            → result ≡ pressed_by self.old.bounds before
            (record { own = own; message = message.now }) }
    {
        let was_armed = self.is_armed;
        match letter_of(self.bounds, own, message) {
            Letter::Press => {
                self.is_armed = true;
                Pressed::Armed
            }
            Letter::Release => {
                self.is_armed = false;
                released(was_armed)
            }
            Letter::Break => {
                self.is_armed = false;
                Pressed::Idle
            }
            Letter::Other => Pressed::Idle,
        }
    }
}

// What the end of a press inside is, where one was on or none.
fn released(was_armed: bool) -> Pressed
    ensures { result ≡ (if was_armed then Pressed.Invoked else Pressed.Idle) }
{
    if was_armed {
        Pressed::Invoked
    } else {
        Pressed::Idle
    }
}

// What a letter is to a button, whatever came before it.
#[derive(Clone, Copy)]
enum Letter {
    // The mouse's button goes down inside.
    Press,
    // It comes up inside.
    Release,
    // It goes down or comes up elsewhere, or the pointer leaves.
    Break,
    Other,
}

fn letter_of(bounds: Rect, own: bool, message: &Message) -> Letter
    ensures { IsLetter bounds (record { own = own; message = message.now }) result }
{
    match message.what() {
        MOUSE_DOWN => {
            if own && is_at(bounds, message) {
                Letter::Press
            } else {
                Letter::Break
            }
        }
        MOUSE_UP => {
            if own && is_at(bounds, message) {
                Letter::Release
            } else {
                Letter::Break
            }
        }
        MOUSE_MOVED => {
            if own && is_exit(message) {
                Letter::Break
            } else {
                Letter::Other
            }
        }
        _ => Letter::Other,
    }
}

// Whether the letter tells a pixel of the bounds.
fn is_at(bounds: Rect, message: &Message) -> bool
    ensures { result ≡ is_at bounds message.now }
{
    match message.find("where", Kind::Point, 0) {
        Ok(Value::Point(place)) => bounds.contains(*place),
        Ok(_) => false,
        Err(_) => false,
    }
}

// Whether the letter tells that the pointer left.
fn is_exit(message: &Message) -> bool
    ensures { result ≡ tells_exit message.now }
{
    match message.find("transit", Kind::Int, 0) {
        Ok(Value::Int(transit)) => *transit == EXITED,
        Ok(_) => false,
        Err(_) => false,
    }
}
