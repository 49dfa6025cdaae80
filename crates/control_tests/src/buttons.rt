use be_control::{Button, Pressed};
use be_geom::{Point, Rect};
use be_message::{Message, Value};
use std::alloc::Global;
use std::test::Fail;

/// The characters of `MDWN`, `MUP_`, `MMOV` and `KEYD`.
const DOWN: u32 = 0x4d44_574e;

const UP: u32 = 0x4d55_505f;

const MOVED: u32 = 0x4d4d_4f56;

const KEY: u32 = 0x4b45_5944;

/// A letter: whether it is for the button's view, its word, where the pointer is, and its transit.
#[derive(Clone, Copy)]
struct Letter {
    own: bool,
    what: u32,
    x: i16,
    transit: Option<i32>,
}

const fn at(what: u32, x: i16) -> Letter {
    Letter {
        own: true,
        what,
        x,
        transit: None,
    }
}

const fn elsewhere(what: u32) -> Letter {
    Letter {
        own: false,
        what,
        x: 0,
        transit: None,
    }
}

const fn moved(own: bool, transit: i32) -> Letter {
    Letter {
        own,
        what: MOVED,
        x: 0,
        transit: Some(transit),
    }
}

fn message_of(alloc: Global, letter: Letter) -> Result<Message, Fail> {
    let mut message = Message::new(alloc, letter.what);
    let place = Point { x: letter.x, y: 0 };
    message.add("where", Value::Point(place))?;
    if let Some(transit) = letter.transit {
        message.add("transit", Value::Int(transit))?;
    }
    Ok(message)
}

/// What a new button of 2 by 1 pixels says of the last of these letters.
fn last_of(alloc: Global, letters: &[Letter]) -> Result<Pressed, Fail> {
    let mut button = Button::new(Rect {
        left: 0,
        top: 0,
        right: 1,
        bottom: 0,
    });
    let mut said = Pressed::Idle;
    for letter in letters {
        said = button.hear(letter.own, &message_of(alloc, *letter)?);
    }
    Ok(said)
}

#[test]
fn tells_presses_and_releases(rt: HostRuntime) -> Result<(), Fail> {
    let press = at(DOWN, 0);
    let release = at(UP, 1);
    for (letters, said) in [
        ([at(KEY, 0)].as_slice(), Pressed::Idle),
        ([press].as_slice(), Pressed::Armed),
        ([press, release].as_slice(), Pressed::Invoked),
        ([press, release, press].as_slice(), Pressed::Armed),
        ([press, release, release].as_slice(), Pressed::Idle),
        ([release].as_slice(), Pressed::Idle),
        ([at(DOWN, 2)].as_slice(), Pressed::Idle),
        ([at(DOWN, 2), release].as_slice(), Pressed::Idle),
        ([press, at(UP, 2)].as_slice(), Pressed::Idle),
        ([press, at(UP, -1), release].as_slice(), Pressed::Idle),
        ([press, press, release].as_slice(), Pressed::Invoked),
        ([elsewhere(DOWN)].as_slice(), Pressed::Idle),
        ([press, elsewhere(UP)].as_slice(), Pressed::Idle),
        ([press, elsewhere(UP), release].as_slice(), Pressed::Idle),
        ([press, elsewhere(DOWN), release].as_slice(), Pressed::Idle),
        (
            [press, elsewhere(KEY), release].as_slice(),
            Pressed::Invoked,
        ),
        (
            [press, moved(true, 0), release].as_slice(),
            Pressed::Invoked,
        ),
        ([press, moved(true, 2), release].as_slice(), Pressed::Idle),
        (
            [press, moved(false, 2), release].as_slice(),
            Pressed::Invoked,
        ),
        ([press, at(MOVED, 0), release].as_slice(), Pressed::Invoked),
    ] {
        assert_eq!(rt; last_of(rt.alloc(), letters)?, said);
    }
    Ok(())
}

#[test]
fn needs_a_place(rt: HostRuntime) -> Result<(), Fail> {
    let alloc = rt.alloc();
    let bounds = Rect {
        left: 0,
        top: 0,
        right: 1,
        bottom: 0,
    };
    let mut button = Button::new(bounds);
    assert_eq!(rt;
        button.hear(true, &Message::new(alloc, DOWN)),
        Pressed::Idle
    );
    let mut message = Message::new(alloc, DOWN);
    message.add("where", Value::Rect(bounds))?;
    assert_eq!(rt; button.hear(true, &message), Pressed::Idle);

    let mut empty = Button::new(Rect {
        left: 1,
        top: 0,
        right: 0,
        bottom: 0,
    });
    assert_eq!(rt;
        empty.hear(true, &message_of(alloc, at(DOWN, 0))?),
        Pressed::Idle
    );
    Ok(())
}
